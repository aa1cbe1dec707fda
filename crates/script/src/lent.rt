// How much of what is held a call is lent.
ghost use Rattle.script.specs.Line.{GivesNothingBack};

use crate::fault::{Fault, Problem};
use crate::line::Line;

// The cells of the book and of the bulletin, the records of the row, and the words of the outgoing buffer and of the replies.
#[derive(Clone, Copy, Debug, PartialEq, Eq)]
pub(crate) struct Lent {
    pub book: usize,
    pub bulletin: usize,
    pub row: usize,
    pub out: usize,
    pub replies: usize,
}

// As much as is asked for.
pub(crate) const FITTING: Lent = Lent {
    book: 1024,
    bulletin: 1024,
    row: 32,
    out: 6404,
    replies: 224,
};

// The cells of a book or a bulletin that are held, the records of a row, and the words of both buffers.
pub(crate) const CELLS: u32 = 1040;

pub(crate) const ROW: u32 = 33;

const OUT: u32 = 6420;

const REPLIES: u32 = 240;

// The next word is a size up to a bound.
fn size(line: &mut Line, most: u32) -> Result<usize, Fault>
    ensures { GivesNothingBack line.old line.new }
{
    Ok(line.number(most)? as usize)
}

impl Lent {
    // The sizes that a line names up to its end; the others are as is asked for.
    pub(crate) fn read(line: &mut Line) -> Result<Lent, Fault> {
        let mut lent = FITTING;
        while let Some(name) = line.next_word() {
            match name {
                b"book" => lent.book = size(line, CELLS)?,
                b"bulletin" => lent.bulletin = size(line, CELLS)?,
                b"row" => lent.row = size(line, ROW)?,
                b"out" => lent.out = size(line, OUT)?,
                b"replies" => lent.replies = size(line, REPLIES)?,
                _ => return Err(line.fault(Problem::NothingToLend)),
            }
        }
        Ok(lent)
    }
}
