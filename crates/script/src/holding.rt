// What a desk holds: its state, its book and its bulletin, and its row of records.
use crate::lent::{CELLS, ROW};
use crate::operations::ClientOperation;
use conveyor::{Desk, Request};
use std::alloc::{AllocError, Global};
use std::fmt;

// A desk that is made.
#[derive(Clone, Drop)]
pub(crate) struct Holding {
    pub state: Desk,
    pub book: Vec<u32>,
    pub bulletin: Vec<u32>,
    pub row: Vec<Request>,
}

// What cells are set to: all to one number, or each to one that is drawn from the one before, the first from a seed.
#[derive(Clone, Copy)]
pub(crate) enum Drawn {
    Same(u32),
    Seed(u32),
}

// What is set by hand at a desk that is made.
#[derive(Clone, Copy)]
pub(crate) enum Setting {
    Cell {
        cell: usize,
        value: u32,
    },
    Cells(Drawn),
    Bulletin,
    Records {
        from: usize,
        to: usize,
        first: ClientOperation,
    },
}

// The record of zeros.
const BLANK: Request = Request {
    client: 0,
    transaction: 0,
    p0: 0,
    p1: 0,
    p2: 0,
    p3: 0,
};

// The record of an operation of a client.
fn record_of(asked: ClientOperation) -> Request {
    let [p0, p1, p2, p3] = asked.operation.parameters();
    Request {
        client: asked.client,
        transaction: asked.operation.transaction,
        p0,
        p1,
        p2,
        p3,
    }
}

impl Holding {
    // A desk in this state with zeros in all else.
    pub(crate) fn new(alloc: Global, state: Desk) -> Result<Holding, AllocError> {
        Ok(Holding {
            state,
            book: vec![in alloc; 0; CELLS as usize]?,
            bulletin: vec![in alloc; 0; CELLS as usize]?,
            row: vec![in alloc; BLANK; ROW as usize]?,
        })
    }

    pub(crate) fn set(&mut self, setting: Setting) -> Result<(), AllocError> {
        match setting {
            Setting::Cell { cell, value } => {
                if let Some(cell) = self.book.get_mut(cell) {
                    *cell = value;
                }
            }
            Setting::Cells(Drawn::Same(value)) => self.book.fill(value),
            Setting::Cells(Drawn::Seed(seed)) => self.draw_cells(seed),
            Setting::Bulletin => self.bulletin = self.book.clone()?,
            Setting::Records { from, to, first } => self.set_records(from, to, first),
        }
        Ok(())
    }

    // Each cell is drawn from the one before it, the first from the seed.
    fn draw_cells(&mut self, seed: u32) {
        let mut last = seed;
        for cell in self.book.iter_mut() {
            last = last.wrapping_mul(1_664_525).wrapping_add(1_013_904_223);
            *cell = last;
        }
    }

    // The records from one number up to another are the same operation, each of the next client.
    fn set_records(&mut self, from: usize, to: usize, first: ClientOperation) {
        let mut next = first;
        for record in self.row.iter_mut().take(to).skip(from) {
            *record = record_of(next);
            next.client = next.client.wrapping_add(1);
        }
    }
}

// The state of the desk of a number.
#[derive(Clone, Copy)]
pub(crate) struct State(pub u32, pub Desk);

impl fmt::Display for State {
    fn fmt<W: fmt::Write>(&self, f: &mut fmt::Formatter<W>) -> fmt::Result {
        let state = self.1;
        write!(
            f,
            "{} waiting, awaits visit {}",
            state.waiting, state.awaited
        )?;
        if state.desk != self.0 {
            write!(f, ", as desk {}", state.desk)?;
        }
        Ok(())
    }
}

// A record of a row.
#[derive(Clone, Copy)]
pub(crate) struct Record<'a>(pub &'a Request);

impl fmt::Display for Record<'_> {
    fn fmt<W: fmt::Write>(&self, f: &mut fmt::Formatter<W>) -> fmt::Result {
        let record = self.0;
        write!(f, "client {} T{}", record.client, record.transaction)?;
        write!(
            f,
            "({}, {}, {}, {})",
            record.p0, record.p1, record.p2, record.p3
        )
    }
}

// The desk of a number as it is shown: its state, the records that wait, the cells that are not zero, and those of the bulletin that are
// not as in the book.
#[derive(Clone, Copy)]
pub(crate) struct ShownDesk<'a>(pub u32, pub &'a Holding);

impl ShownDesk<'_> {
    fn write_records<W: fmt::Write>(&self, f: &mut fmt::Formatter<W>) -> fmt::Result {
        let waiting = self.1.state.waiting as usize;
        for (i, record) in self.1.row.iter().enumerate().take(waiting) {
            writeln!(f, "  record {i}: {}", Record(record))?;
        }
        Ok(())
    }

    fn write_cells<W: fmt::Write>(&self, f: &mut fmt::Formatter<W>) -> fmt::Result {
        let cells = self.1.book.iter().enumerate();
        for (i, cell) in cells.filter(|(_, cell)| **cell != 0) {
            writeln!(f, "  cell {i} is {cell}")?;
        }
        Ok(())
    }

    fn write_bulletin<W: fmt::Write>(&self, f: &mut fmt::Formatter<W>) -> fmt::Result {
        let pairs = self.1.book.iter().zip(self.1.bulletin.iter()).enumerate();
        for (i, (_, shown)) in pairs.filter(|(_, (cell, shown))| cell != shown) {
            writeln!(f, "  bulletin cell {i} is {shown}")?;
        }
        Ok(())
    }
}

impl fmt::Display for ShownDesk<'_> {
    fn fmt<W: fmt::Write>(&self, f: &mut fmt::Formatter<W>) -> fmt::Result {
        writeln!(f, "desk {}: {}", self.0, State(self.0, self.1.state))?;
        self.write_records(f)?;
        self.write_cells(f)?;
        self.write_bulletin(f)
    }
}
