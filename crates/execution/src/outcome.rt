// What a run answers: its reply, and its update.
ghost use Rattle.std.specs.Prelude.{◌≡◌, get_or};
ghost use Rattle.execution.specs.Run.{reply_with};

use crate::update::Update;
use arrayvec::ArrayVec;
use plan::MOST_TELLS;

// Done or declined, with the accumulator at the end or stop; and the told numbers in order, zero where untold.
// `done` stays a flag beside the number: done and declined both have it, and the definitions and the public answer hold this record.
#[derive(Clone, Copy, Debug, PartialEq, Eq)]
pub struct Reply {
    pub done: bool,
    pub number: u32,
    pub told0: u32,
    pub told1: u32,
    pub told2: u32,
    pub told3: u32,
}

#[derive(Clone, Copy)]
pub struct Outcome {
    pub reply: Reply,
    pub update: Update,
}

// The numbers that a run has told so far, in order.
pub(crate) type Told = ArrayVec<u32, MOST_TELLS>;

// The told number at this place, zero where untold.
fn told_at(told: &Told, place: usize) -> u32
    ensures { result ≡ get_or told.now.items place 0 }
{
    told.get(place).copied().unwrap_or(0)
}

// The reply of a run that told these numbers.
pub(crate) fn reply_with(done: bool, number: u32, told: &Told) -> Reply
    ensures { result ≡ reply_with done number told.now.items }
{
    Reply {
        done,
        number,
        told0: told_at(told, 0),
        told1: told_at(told, 1),
        told2: told_at(told, 2),
        told3: told_at(told, 3),
    }
}
