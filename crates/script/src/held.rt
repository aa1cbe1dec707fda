// What the interpreter holds, but for the counts.
ghost use Rattle.script.specs.Line.{GivesNothingBack};

use crate::desks::{Desks, LAST_DESK};
use crate::fault::{Fault, Problem};
use crate::frames::Frames;
use crate::lent;
use crate::lent::Lent;
use crate::line::Line;
use std::alloc::{AllocError, Global};

// The plan, the desks, the frames that were sent, and how much is lent.
#[derive(Drop)]
pub(crate) struct Held {
    pub alloc: Global,
    pub plan: Vec<u32>,
    pub desks: Desks,
    pub frames: Frames,
    pub lent: Lent,
}

impl Held {
    // No words, no desks and no frames.
    pub(crate) fn new(alloc: Global) -> Result<Held, AllocError> {
        Ok(Held {
            alloc,
            plan: Vec::new(alloc),
            desks: Desks::new(alloc)?,
            frames: Frames::new(alloc),
            lent: lent::FITTING,
        })
    }

    // The words of a frame, none if it is not kept.
    pub(crate) fn frame(&self, number: u32) -> &[u32] {
        self.frames.get(number).unwrap_or(&[])
    }

    // The next word of a line is the number of a desk that is made.
    pub(crate) fn read_made(&self, line: &mut Line) -> Result<u32, Fault> {
        let number = line.number(LAST_DESK)?;
        line.demand(self.desks.is_made(number), Problem::NotMade)?;
        Ok(number)
    }

    // The next word of a line is the number of a frame that is kept.
    pub(crate) fn read_kept(&self, line: &mut Line) -> Result<u32, Fault>
        ensures { GivesNothingBack line.old line.new }
    {
        let number = line.number(u32::MAX)?;
        line.demand(self.frames.get(number).is_some(), Problem::NotKept)?;
        Ok(number)
    }
}
