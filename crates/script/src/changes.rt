// What a call changed of a desk, and behind the words that it wrote.
use crate::holding::{Holding, Record, State};
use crate::words;
use crate::words::Others;
use conveyor::Request;
use std::fmt;

// As many changed cells as are named.
const MOST_NAMED: usize = 24;

// The desk of a number before the call and after it, and how many other words changed in the buffers.
#[derive(Clone, Copy)]
pub(crate) struct Changes<'a> {
    pub number: u32,
    pub before: &'a Holding,
    pub after: &'a Holding,
    pub others: usize,
}

impl Changes<'_> {
    // Whether nothing changed.
    pub(crate) fn is_empty(&self) -> bool {
        let (before, after) = (self.before, self.after);
        let mut records = before.row.iter().zip(after.row.iter());
        self.others == 0
            && before.book.as_slice() == after.book.as_slice()
            && before.bulletin.as_slice() == after.bulletin.as_slice()
            && records.all(|(before, after)| before == after)
            && before.state == after.state
    }
}

// The cells that changed of a book or of a bulletin; of many their number, and the two sums of all cells. Most calls change no cell of one
// of the two, so they are compared whole before they are walked.
#[derive(Clone, Copy)]
struct ChangedCells<'a> {
    name: &'a str,
    before: &'a [u32],
    after: &'a [u32],
}

impl fmt::Display for ChangedCells<'_> {
    fn fmt<W: fmt::Write>(&self, f: &mut fmt::Formatter<W>) -> fmt::Result {
        if self.before == self.after {
            return Ok(());
        }
        let name = self.name;
        let changed = words::count_changed(self.before, self.after);
        if MOST_NAMED < changed {
            let (first, second) = words::sums(self.after);
            return write!(
                f,
                "; {changed} {name}s changed, sums {first:08X} {second:08X}"
            );
        }
        let pairs = self.before.iter().zip(self.after).enumerate();
        for (i, (_, after)) in pairs.filter(|(_, (before, after))| before != after) {
            write!(f, "; {name} {i} is now {after}")?;
        }
        Ok(())
    }
}

// The records that changed of a row.
#[derive(Clone, Copy)]
struct ChangedRecords<'a> {
    before: &'a [Request],
    after: &'a [Request],
}

impl fmt::Display for ChangedRecords<'_> {
    fn fmt<W: fmt::Write>(&self, f: &mut fmt::Formatter<W>) -> fmt::Result {
        let pairs = self.before.iter().zip(self.after).enumerate();
        for (i, (_, after)) in pairs.filter(|(_, (before, after))| before != after) {
            write!(f, "; record {i} is now {}", Record(after))?;
        }
        Ok(())
    }
}

impl fmt::Display for Changes<'_> {
    fn fmt<W: fmt::Write>(&self, f: &mut fmt::Formatter<W>) -> fmt::Result {
        let (before, after) = (self.before, self.after);
        let book = ChangedCells {
            name: "cell",
            before: &before.book,
            after: &after.book,
        };
        let bulletin = ChangedCells {
            name: "bulletin cell",
            before: &before.bulletin,
            after: &after.bulletin,
        };
        let row = ChangedRecords {
            before: &before.row,
            after: &after.row,
        };
        write!(f, "{book}{bulletin}{row}")?;
        if before.state != after.state {
            write!(f, "; {}", State(self.number, after.state))?;
        }
        write!(f, "{}", Others(self.others))
    }
}
