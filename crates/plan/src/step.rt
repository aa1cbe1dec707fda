// A step of a transaction, decoded from its word.
//     Access, Action     what a step does to a cell, and by its operand
//     Source             where a row or an operand comes from
//     Step               the step
// `#[inline(always)]`: these are small and run in inner loops.
ghost use Rattle.std.specs.Prelude.{◌≡◌};
ghost use Rattle.word.specs.Field.{table_field, column_field};
ghost use Rattle.plan.specs.Plan.{cell, operand};
ghost use Rattle.plan.specs.Decode.{step_of, source_by, row_of, operand_of};
ghost use Rattle.plan.specs.Step.{access_from, action_from, source_from, step_from};

use word::fields;

// Kinds 3 and 4.
#[derive(Clone, Copy, Debug, PartialEq, Eq)]
pub enum Access {
    Read,
    Write,
}

// Kinds 5 to 8.
#[derive(Clone, Copy, Debug, PartialEq, Eq)]
pub enum Action {
    Set,
    Add,
    Need,
    Take,
}

// That parameter, or a fixed number.
#[derive(Clone, Copy, Debug, PartialEq, Eq)]
pub enum Source {
    Parameter(u32),
    Fixed(u32),
}

impl Source {
    // The source with this number, beside which this fixed number stands.
    #[inline(always)]
    pub fn beside(number: u32, fixed: u32) -> Self
        ensures { source_from result ≡ source_by number fixed }
    {
        if number == 7 {
            Source::Fixed(fixed)
        } else {
            Source::Parameter(number)
        }
    }
}

// A step names a cell by its table, its column and the source of its row, or an operand by its source; or it tells, and names nothing.
#[derive(Clone, Copy, Debug, PartialEq, Eq)]
pub enum Step {
    Cell(Access, u32, u32, Source),
    Operand(Action, Source),
    Tell,
}

impl Step {
    // The step that reads or writes the cell in this word.
    #[inline(always)]
    fn cell(access: Access, word: u32) -> Self
        ensures { step_from result ≡ cell (access_from access) (table_field word) (column_field word) (row_of word) }
    {
        let row = Source::beside(word / fields::ROW_SOURCE % 8, word % 32);
        Step::Cell(
            access,
            word / fields::TABLE % 8,
            word / fields::COLUMN % 4,
            row,
        )
    }

    // The step that sets, adds, needs or takes the operand in this word.
    #[inline(always)]
    fn operand(action: Action, word: u32) -> Self
        ensures { step_from result ≡ operand (action_from action) (operand_of word) }
    {
        Step::Operand(
            action,
            Source::beside(word / fields::OPERAND_SOURCE % 8, word % 0x200_0000),
        )
    }
}

impl From<u32> for Step {
    ghost from_gives = { λ word step. step_from step ≡ step_of word };

    #[tactic(auto, unfolding(crate::specs::Decode::step_of, crate::specs::Decode::access_by, crate::specs::Decode::action_by))]
    #[inline(always)]
    fn from(word: u32) -> Step {
        match word / fields::KIND {
            3 => Step::cell(Access::Read, word),
            0..=4 => Step::cell(Access::Write, word),
            5 => Step::operand(Action::Set, word),
            6 => Step::operand(Action::Add, word),
            7 => Step::operand(Action::Need, word),
            13 => Step::Tell,
            _ => Step::operand(Action::Take, word),
        }
    }
}
