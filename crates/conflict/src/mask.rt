// The mask table: which desks may touch each cell.
//     mark               joins the desks of one step
//     fill_table         fills a table of zeros from the plan
//     fill_masks         the same from the words of the plan
//     mask_at            the mask of a cell, by the table
//     in_mask            whether a desk is in a mask
//     MaskTable::fill    the table of a plan
//     MaskTable::mask    the mask of a cell
// `#[inline(always)]`: these are small and run in inner loops.
ghost use Rattle.std.specs.Prelude.{◌≡◌, ◌≤◌, ◌<◌, length, replicate, get_or};
ghost use Rattle.verdict.specs.Verdict.{accepted};
ghost use Rattle.plan.specs.Decode.{plan_of};
ghost use Rattle.plan.specs.Admission.{plan_verdict};
ghost use Rattle.plan.specs.Accepted.{the_plan};
ghost use Rattle.plan.specs.Step.{part_from, step_from};
ghost use Rattle.conflict.specs.Mask.{mask_of, in_mask};
ghost use Rattle.conflict.specs.Touch.{step_touches, Joined, InBits, mask_table};
ghost use Rattle.operation.specs.Store.{store_size};

use crate::mask_table::MaskTable;
use crate::row;
use operation::STORE_SIZE;
use plan::{Partitioning, Plan, Step};

// Joins the desks of this step to the masks of the cells that it names.
fn mark(masks: &mut [u8], step: Step, partitioning: Partitioning, desks: u32)
    requires { (1 ≤ desks) × (desks ≤ 8) × (length masks.old ≡ store_size) × InBits (step_from step) }
    ensures { Joined masks.old masks.new
        (λ c. mask_of desks (step_touches desks (part_from partitioning) (step_from step) c)) }
{
    if let Step::Cell(_, table, column, source) = step {
        for row in 0..32 {
            let cell = (table * 128 + row * 4 + column) as usize;
            masks[cell] |= row::row_mask(source, row, partitioning, desks);
        }
    }
}

// Fills a table of zeros with the mask of each cell.
fn fill_table(plan: &Plan, masks: &mut [u8])
    requires { masks.old ≡ replicate store_size 0 }
    ensures { masks.new ≡ mask_table (the_plan plan.now) }
{
    let desks = plan.desks();
    for transaction in plan.transactions() {
        let partitioning = transaction.partitioning();
        for step in transaction.steps() {
            mark(masks, step, partitioning, desks);
        }
    }
}

// Fills a table of zeros with the mask of each cell, of a plan that the plan reader accepts.
pub fn fill_masks(plan: &[u32], masks: &mut [u8])
    requires { (plan_verdict plan.now ≡ accepted) × (masks.old ≡ replicate store_size 0) }
    ensures { masks.new ≡ mask_table (plan_of plan.now) }
{
    if let Ok(plan) = Plan::read(plan) {
        fill_table(&plan, masks);
    }
}

// The mask of this cell in a table of masks, 0 past the last.
#[inline(always)]
pub(crate) fn mask_at(masks: &[u8], cell: u32) -> u8
    ensures { result ≡ get_or masks.now cell 0 }
{
    masks.get(cell as usize).copied().unwrap_or(0)
}

// Whether this desk is in this mask.
#[tactic(auto, unfolding(crate::specs::Mask::in_mask))]
pub(crate) fn in_mask(mask: u8, desk: u32) -> bool
    requires { desk < 8 }
    ensures { result ≡ in_mask mask desk }
{
    (mask >> desk) % 2 == 1
}

impl<'a> MaskTable<'a> {
    // The table of this plan.
    pub fn fill(plan: Plan<'a>) -> Self
        ensures { result.plan.words.now ≡ plan.entry.words.now }
    {
        let mut masks = [0; STORE_SIZE];
        fill_table(&plan, &mut masks);
        MaskTable { plan, masks }
    }

    // The mask of this cell, 0 past the last.
    #[inline(always)]
    pub fn mask(&self, cell: u32) -> u8
        ensures { result ≡ get_or self.now.masks cell 0 }
    {
        mask_at(&self.masks, cell)
    }
}
