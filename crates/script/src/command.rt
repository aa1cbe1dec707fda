// The commands. A line is read whole before anything is done, so that a bad one changes nothing.
use crate::desks::LAST_DESK;
use crate::fault::{Fault, LineError, Problem};
use crate::gathered::Frame;
use crate::held::Held;
use crate::holding::{Drawn, Setting};
use crate::lent::{CELLS, Lent, ROW};
use crate::line::Line;
use crate::operations::{ClientOperation, Operation};
use conveyor::Desk;

// What `show` shows.
#[derive(Clone, Copy)]
pub(crate) enum Shown {
    Plan,
    Desk(u32),
    Frame(u32),
}

// What a line says.
#[derive(Drop)]
pub(crate) enum Command<'a> {
    Plan(Frame),
    Choose,
    Class(Operation),
    Desk(u32),
    Start,
    Request(u32, ClientOperation),
    Visit(u32, Frame),
    Pass(u32),
    Read(Frame),
    Show(Shown),
    State(u32, Desk),
    Set(u32, Setting),
    Lend(Lent),
    Reset,
    Say(&'a [u8]),
}

// As many visits as `pass` makes.
const MOST_VISITS: u32 = 1_000_000;

// The number of visits. The desk that the latest frame is addressed to is looked at first.
fn read_pass(line: &mut Line, held: &Held) -> Result<u32, Fault> {
    let desk = held.frames.addressed();
    line.demand(held.desks.is_made(desk), Problem::NotMade)?;
    line.number(MOST_VISITS)
}

// `plan`, `desk 0` or `frame 3`.
fn read_shown(line: &mut Line, held: &Held) -> Result<Shown, Fault> {
    match line.word_or_empty() {
        b"plan" => Ok(Shown::Plan),
        b"desk" => Ok(Shown::Desk(held.read_made(line)?)),
        b"frame" => Ok(Shown::Frame(held.read_kept(line)?)),
        _ => Err(line.fault(Problem::NothingToShow)),
    }
}

// `desk 0 waiting 31 awaits 64`.
fn read_state(line: &mut Line) -> Result<Desk, Fault> {
    line.expect(b"desk", Problem::NoDesk)?;
    let desk = line.number(u32::MAX)?;
    line.expect(b"waiting", Problem::NoWaiting)?;
    let waiting = line.number(u32::MAX)?;
    line.expect(b"awaits", Problem::NoAwaits)?;
    let awaited = line.long_number()?;
    Ok(Desk {
        desk,
        waiting,
        awaited,
    })
}

// `128 7`.
fn read_cell(line: &mut Line) -> Result<Setting, Fault> {
    Ok(Setting::Cell {
        cell: line.number(CELLS - 1)? as usize,
        value: line.number(u32::MAX)?,
    })
}

// `7` or `seed 7`.
fn read_cells(line: &mut Line) -> Result<Setting, Fault> {
    let mut behind = *line;
    if let Some(b"seed") = behind.next_word() {
        *line = behind;
        return Ok(Setting::Cells(Drawn::Seed(line.number(u32::MAX)?)));
    }
    Ok(Setting::Cells(Drawn::Same(line.number(u32::MAX)?)))
}

// `5 31 client 100 T1 0 3`.
fn read_records(line: &mut Line) -> Result<Setting, Fault> {
    Ok(Setting::Records {
        from: line.number(ROW)? as usize,
        to: line.number(ROW)? as usize,
        first: ClientOperation::read(line)?,
    })
}

// The rest of a command whose next word is a desk that is made.
fn read_at_desk<'a>(
    name: &[u8],
    line: &mut Line<'a>,
    held: &Held,
) -> Result<Command<'a>, LineError> {
    match name {
        b"request" => Ok(Command::Request(held.read_made(line)?, ClientOperation::read(line)?)),
        b"visit" => Ok(Command::Visit(held.read_made(line)?, Frame::read(line, held)?)),
        b"cell" => Ok(Command::Set(held.read_made(line)?, read_cell(line)?)),
        b"cells" => Ok(Command::Set(held.read_made(line)?, read_cells(line)?)),
        b"bulletin" => Ok(Command::Set(held.read_made(line)?, Setting::Bulletin)),
        b"records" => Ok(Command::Set(held.read_made(line)?, read_records(line)?)),
        _ => Err(LineError::Fault(line.fault(Problem::NoCommand))),
    }
}

impl<'a> Command<'a> {
    // The command of a line that has words.
    pub(crate) fn read(line: &mut Line<'a>, held: &Held) -> Result<Command<'a>, LineError> {
        let command = match line.word_or_empty() {
            b"plan" => Command::Plan(Frame::read_words(line, held)?),
            b"choose" => Command::Choose,
            b"class" => Command::Class(Operation::read(line)?),
            b"desk" => Command::Desk(line.number(u32::MAX)?),
            b"start" => Command::Start,
            b"pass" => Command::Pass(read_pass(line, held)?),
            b"read" => Command::Read(Frame::read(line, held)?),
            b"show" => Command::Show(read_shown(line, held)?),
            b"state" => Command::State(line.number(LAST_DESK)?, read_state(line)?),
            b"lend" => Command::Lend(Lent::read(line)?),
            b"reset" => Command::Reset,
            b"say" => return Ok(Command::Say(line.text_behind())),
            name => read_at_desk(name, line, held)?,
        };
        line.close()?;
        Ok(command)
    }
}
