// Transactions and updates among words: each begins with a word that counts what stands behind it.
ghost use Rattle.std.specs.Prelude.{length};
ghost use Rattle.std.specs.Iterator.{at_most};

use conveyor::fields;

// A word that counts, in bits 23-20, the parts behind it, its place, and the words of these parts: a transaction with its steps, or an
// update with its cells.
#[derive(Clone, Copy)]
pub(crate) struct Group<'a> {
    pub place: usize,
    pub head: u32,
    pub parts: &'a [u32],
}

// The groups of words that are left, each part of so many words.
#[derive(Clone, Copy)]
pub(crate) struct Groups<'a> {
    place: usize,
    rest: &'a [u32],
    part_size: usize,
}

impl<'a> Groups<'a> {
    // The transactions of a plan, which stand behind its head.
    pub(crate) fn transactions(plan: &'a [u32]) -> Groups<'a> {
        Groups {
            place: 1,
            rest: plan.get(1..).unwrap_or(&[]),
            part_size: 1,
        }
    }

    // The updates of a frame.
    pub(crate) fn updates(updates: &'a [u32]) -> Groups<'a> {
        Groups {
            place: 0,
            rest: updates,
            part_size: 2,
        }
    }
}

impl<'a> Iterator for Groups<'a> {
    type Item = Group<'a>;

    ghost remaining = { λ g. at_most (length g.rest.now) };

    fn next(&mut self) -> Option<Group<'a>> {
        let (head, rest) = self.rest.split_first()?;
        let parts = (*head / fields::STEPS % 16) as usize;
        let words = parts.saturating_mul(self.part_size);
        let (parts, rest) = rest.split_at(words.min(rest.len()));
        let place = self.place;
        self.place = place.wrapping_add(1).wrapping_add(parts.len());
        self.rest = rest;
        Some(Group {
            place,
            head: *head,
            parts,
        })
    }
}
