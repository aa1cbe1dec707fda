// What an accepted plan and a well-formed transaction say.
//     Plan::read                     the plan, of the words of one
//     desks, transaction_count       its counts
//     standing                       the transaction that stands at a place
//     parameters, partitioning       its fields
// `#[inline(always)]`: these are small and run in inner loops.
ghost use Rattle.std.specs.Prelude.{◌≡◌, ◌<◌, ◌≤◌, OnOk, IfOk, length};
ghost use Rattle.verdict.specs.Verdict.{verdict_of};
ghost use Rattle.word.specs.Field.{head_transactions, parameter_count, partitioning_field};
ghost use Rattle.plan.specs.Decode.{head_of, part_by};
ghost use Rattle.plan.specs.Admission.{plan_verdict};
ghost use Rattle.plan.specs.Accepted.{the_plan};
ghost use Rattle.plan.specs.Place.{StandsAt, transaction_from};
ghost use Rattle.plan.specs.Step.{part_from, step_from};
ghost use Rattle.plan.specs.Transaction.{the_steps, the_transaction, the_transactions};
ghost use Rattle.std.specs.Iterator.{YieldsFirstBy, item_count};
ghost use Rattle.std.specs.Option.{option_map};
ghost use Rattle.std.specs.List.{slice_get};

use crate::accepted_plan::Plan;
use crate::partitioning::Partitioning;
use crate::step::Step;
use crate::transaction::Transaction;
use crate::transactions::{Steps, Transactions};
use crate::{place, reader};
use verdict::Refusal;
use word::fields;

impl<'a> Plan<'a> {
    // The plan of these words, which the plan reader accepts.
    pub fn read(words: &'a [u32]) -> Result<Self, Refusal>
        ensures verdict { verdict_of result ≡ plan_verdict words.now }
        ensures words { IfOk result (λ p. p.words.now ≡ words.now) }
    {
        reader::read_plan(words)?;
        Ok(Plan {
            words,
            places: place::transaction_places(words),
        })
    }

    // How many desks.
    #[inline(always)]
    pub fn desks(&self) -> u32
        ensures desks { result ≡ (the_plan self.now).desks }
        ensures some { 1 ≤ result }
        ensures most { result ≤ 8 }
    {
        self.words[0] / fields::DESKS % 16
    }

    // The transaction with this number.
    #[inline(always)]
    pub fn transaction(&self, number: u32) -> Option<Transaction<'a>>
        ensures { option_map the_transaction result ≡ slice_get (the_plan self.now).transactions number }
    {
        if self.transaction_count() <= number {
            return None;
        }
        Some(Transaction::standing(self.words, self.places[number as usize]))
    }

    // Its transactions, in order.
    pub fn transactions(&self) -> Transactions<'a>
        ensures { the_transactions result ≡ (the_plan self.now).transactions }
    {
        Transactions {
            left: self.transaction_count(),
            rest: &self.words[1..],
        }
    }

    // How many transactions.
    #[inline(always)]
    pub fn transaction_count(&self) -> u32
        ensures count { result ≡ length (the_plan self.now).transactions }
        ensures most { result ≤ 32 }
    {
        self.words[0] / fields::TRANSACTIONS % 256
    }
}

impl<'a> Iterator for Transactions<'a> {
    type Item = Transaction<'a>;

    ghost next_gives = { YieldsFirstBy the_transaction the_transactions };

    ghost remaining = { item_count the_transactions };

    #[inline(always)]
    fn next(&mut self) -> Option<Transaction<'a>> {
        if self.left == 0 {
            return None;
        }
        let word = self.rest[0];
        let end = 1 + (word / fields::STEPS % 16) as usize;
        let transaction = Transaction {
            word,
            step_words: &self.rest[1..end],
        };
        *self = Transactions {
            left: self.left - 1,
            rest: &self.rest[end..],
        };
        Some(transaction)
    }
}

impl<'a> Iterator for Steps<'a> {
    type Item = Step;

    ghost next_gives = { YieldsFirstBy step_from the_steps };

    ghost remaining = { item_count the_steps };

    #[inline(always)]
    fn next(&mut self) -> Option<Step> {
        let (word, rest) = self.rest.split_first()?;
        self.rest = rest;
        Some(Step::from(*word))
    }
}

impl<'a> Transaction<'a> {
    // The transaction that stands at this place.
    #[inline(always)]
    pub fn standing(plan: &'a [u32], at: usize) -> Self
        requires { StandsAt plan.now at }
        ensures { the_transaction result ≡ transaction_from plan.now at }
    {
        Transaction {
            word: plan[at],
            step_words: place::steps(plan, at),
        }
    }

    // Its steps, in order.
    #[inline(always)]
    pub fn steps(&self) -> Steps<'a>
        ensures { the_steps result ≡ (the_transaction self.now).steps }
    {
        Steps {
            rest: self.step_words,
        }
    }

    // How many parameters it has.
    #[inline(always)]
    pub fn parameters(&self) -> u32
        ensures parameters { result ≡ (the_transaction self.now).params }
        ensures most { result ≤ 4 }
    {
        self.word / fields::PARAMETERS % 16
    }

    // By what its operations go to their desks.
    #[inline(always)]
    pub fn partitioning(&self) -> Partitioning
        ensures { part_from result ≡ (the_transaction self.now).part }
    {
        Partitioning::from(self.word / fields::PARTITIONING % 16)
    }

    // Whether it is urgent.
    pub fn is_urgent(&self) -> bool
        ensures { result ≡ (the_transaction self.now).urgent }
    {
        self.word / fields::URGENT % 2 == 1
    }
}
