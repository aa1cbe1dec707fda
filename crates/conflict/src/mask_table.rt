// The mask table of a plan: for each cell the mask of the desks whose operations may touch it.
ghost use Rattle.std.specs.Prelude.{◌≡◌};
ghost use Rattle.plan.specs.Accepted.{the_plan};
ghost use Rattle.conflict.specs.Touch.{mask_table};

use operation::STORE_SIZE;
use plan::Plan;

#[derive(Clone, Copy)]
pub struct MaskTable<'a> {
    pub plan: Plan<'a>,
    pub masks: [u8; STORE_SIZE],
    ghost filled: { masks ≡ mask_table (the_plan plan) },
}
