// By what the operations of a transaction go to their desks.
ghost use Rattle.std.specs.Prelude.{◌≡◌};
ghost use Rattle.plan.specs.Decode.{part_by};
ghost use Rattle.plan.specs.Step.{part_from};

use crate::form::{OPEN, UNPARTITIONED};

// By that parameter; or by none; or this is still to be chosen.
#[derive(Clone, Copy, Debug, PartialEq, Eq)]
pub enum Partitioning {
    Parameter(u32),
    Unpartitioned,
    Open,
}

impl From<u32> for Partitioning {
    ghost from_gives = { λ field part. part_from part ≡ part_by field };

    #[tactic(auto, unfolding(crate::specs::Decode::part_by))]
    fn from(field: u32) -> Partitioning {
        match field {
            OPEN => Partitioning::Open,
            UNPARTITIONED => Partitioning::Unpartitioned,
            _ => Partitioning::Parameter(field),
        }
    }
}
