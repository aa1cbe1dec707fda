// The rows that desks touch, as sets of 32 bits, three for each of the 32 table columns: a table with a column of it.
//     mark           joins the rows of one step
//     mark_closed    of the transactions that are not open
//     mark_open      of the open ones under a filling
ghost use Rattle.std.specs.Prelude.{◌≡◌, ◌<◌, replicate};
ghost use Rattle.plan.specs.Decode.{open_field};
ghost use Rattle.partitioning.specs.Best.{open_words, filling_count};
ghost use Rattle.partitioning.specs.Touched.{table_column, rows_of, mark, mark_closed, mark_open};
ghost use Rattle.partitioning.specs.Sets.{sets_of};

use crate::filling::FillingNumber;
use word::fields;

// One set for each table column.
#[derive(Clone, Copy)]
pub(crate) struct Touched {
    // Rows that every desk touches.
    pub(crate) every: [u32; 32],
    // Rows that each desk touches where it is the row's own: row r is that of desk r modulo the desks.
    pub(crate) own: [u32; 32],
    // Rows that desk 0 touches for transactions with no partitioning.
    pub(crate) desk_0: [u32; 32],
}

// Table and column of the step in this word: bits 27-23.
pub(crate) fn table_column(word: u32) -> usize
    ensures { (result ≡ table_column word) × (result < 32) }
{
    (word / fields::COLUMN % 32) as usize
}

// The rows that it can name.
pub(crate) fn rows(word: u32) -> u32
    ensures { result ≡ rows_of word }
{
    if word / fields::ROW_SOURCE % 8 == 7 {
        1 << (word % 32)
    } else {
        0xffff_ffff
    }
}

impl Touched {
    // No rows at all.
    pub(crate) fn none() -> Touched
        ensures { sets_of result ≡ replicate 96 0 }
    {
        Touched {
            every: [0; 32],
            own: [0; 32],
            desk_0: [0; 32],
        }
    }

    // Joins the rows of the step in this word. Under an open partitioning it joins none.
    fn mark(&mut self, word: u32, partitioning: u32)
        ensures { sets_of self.new ≡ mark partitioning word (sets_of self.old) }
    {
        if 4 < word / fields::KIND {
            return;
        }
        if partitioning == plan::OPEN {
            return;
        }
        let column = table_column(word);
        if partitioning == plan::UNPARTITIONED {
            self.desk_0[column] |= rows(word);
        } else if word / fields::ROW_SOURCE % 8 == partitioning {
            self.own[column] |= rows(word);
        } else {
            self.every[column] |= rows(word);
        }
    }

    // Joins the rows of the transactions that are not open.
    #[tactic(auto, unfolding(crate::specs::Touched::mark_closed))]
    pub(crate) fn mark_closed(&mut self, plan: &[u32])
        ensures { sets_of self.new ≡ mark_closed open_field plan.now (sets_of self.old) }
    {
        let mut partitioning = plan::OPEN;
        for word in plan {
            if word / fields::KIND == 2 {
                partitioning = word / fields::PARTITIONING % 16;
            } else {
                self.mark(*word, partitioning);
            }
        }
    }

    // Joins the rows of the open ones, as filling number `number` of so many fills them.
    // A walk of its own beside mark_closed's, no longer than one that takes a closure: that would divide by what it keeps and changes.
    #[tactic(auto, using(crate::proofs::FillWalk::walk_fillings), unfolding(crate::specs::Touched::mark_open))]
    pub(crate) fn mark_open(&mut self, plan: &[u32], fillings: u32, number: u32)
        requires { fillings ≡ filling_count (open_words plan.now) }
        ensures { sets_of self.new ≡ mark_open open_field fillings number plan.now (sets_of self.old) }
    {
        let mut partitioning = plan::OPEN;
        let mut left = FillingNumber { fillings, number };
        for word in plan {
            if plan::is_open(*word) {
                partitioning = left.next_field(*word);
            } else if word / fields::KIND == 2 {
                partitioning = plan::OPEN;
            } else {
                self.mark(*word, partitioning);
            }
        }
    }
}
