// The cause of a wait: what makes an operation global.
//     cause_of             the cell, the desk and the transaction
//     cause_cell           the lowest cell that an operation may write and another desk may touch
//     cause_desk           the lowest desk in a mask but one
//     cause_transaction    the lowest transaction with an operation of a desk that may touch a cell
// The cells are looked up in the table of masks; only for the transaction the plan is walked again.
ghost use Rattle.std.specs.Prelude.{◌≡◌, ◌≤◌, ◌<◌, length};
ghost use Rattle.plan.specs.Plan.{writes};
ghost use Rattle.plan.specs.Accepted.{the_plan};
ghost use Rattle.plan.specs.Step.{part_from, step_from};
ghost use Rattle.plan.specs.Transaction.{the_transaction};
ghost use Rattle.operation.specs.Operation.{cells_named};
ghost use Rattle.operation.specs.Store.{store_size};
ghost use Rattle.conflict.specs.Touch.{step_touches, steps_touch};
ghost use Rattle.conflict.specs.Cause.{if_below, is_other, cause_desk, has_other, cause_cell, cause_transaction};
ghost use Rattle.conflict.specs.Cause.{cause_found};

use crate::mask_table::MaskTable;
use crate::{mask, row, written};
use operation::Operation;
use plan::{Access, Partitioning, Plan, Step, Transaction};
use std::fmt;

// What makes an operation global: the lowest cell that it may write and another desk may touch, the lowest such desk, and the lowest
// transaction with an operation of that desk that may touch the cell.
#[derive(Clone, Copy, Debug, PartialEq, Eq)]
pub struct Cause {
    pub cell: u32,
    pub desk: u32,
    pub transaction: u32,
}

impl fmt::Display for Cause {
    fn fmt<W: fmt::Write>(&self, f: &mut fmt::Formatter<W>) -> fmt::Result {
        write!(
            f,
            "it may write cell {}, which T{} of desk {} may touch",
            self.cell, self.transaction, self.desk
        )
    }
}

// Whether the desk `other` is in this mask and is not `desk`.
#[tactic(auto, unfolding(crate::specs::Cause::is_other))]
fn is_other(mask: u8, desk: u32, other: u32) -> bool
    requires { other < 8 }
    ensures { result ≡ is_other mask desk other }
{
    other != desk && mask::in_mask(mask, other)
}

// The lowest desk in this mask but this one.
fn cause_desk(mask: u8, desk: u32) -> Option<u32>
    ensures { result ≡ if_below 8 (cause_desk mask desk) }
{
    (0..8).find(|other| is_other(mask, desk, *other))
}

// Whether a desk other than this one is in this mask.
#[tactic(auto, unfolding(crate::specs::Cause::has_other))]
fn has_other(mask: u8, desk: u32) -> bool
    ensures { result ≡ has_other mask desk }
{
    cause_desk(mask, desk).is_some()
}

// The lowest cell that the operation may write and that a desk other than this one may touch.
fn cause_cell(masks: &MaskTable, operation: &Operation, desk: u32) -> Option<u32>
    ensures { result ≡ if_below store_size (cause_cell (the_plan masks.now.plan) desk
        (cells_named writes operation.now.params (the_transaction operation.now.transaction).steps)) }
{
    operation
        .cells(Access::Write)
        .filter(|cell| has_other(masks.mask(*cell), desk))
        .min()
}

// Whether some operation of this desk makes this cell the one of the step.
#[tactic(auto, using(crate::proofs::GivenCells::touches))]
fn step_touches(step: Step, cell: u32, desk: u32, partitioning: Partitioning, desks: u32) -> bool
    requires { (desk < desks) × (desks ≤ 8) }
    ensures { result ≡ step_touches desks (part_from partitioning) (step_from step) cell desk }
{
    match step {
        Step::Cell(_, table, column, source) => {
            written::cell_given(table, column, source, cell)
                && mask::in_mask(
                    row::row_mask(source, cell / 4 % 32, partitioning, desks),
                    desk,
                )
        }
        _ => false,
    }
}

// Whether some operation of this desk, of this transaction, may touch this cell.
fn transaction_touches(transaction: &Transaction, cell: u32, desk: u32, desks: u32) -> bool
    requires { (desk < desks) × (desks ≤ 8) }
    ensures { result ≡ steps_touch desks (the_transaction transaction.now).part
        (the_transaction transaction.now).steps cell desk }
{
    let partitioning = transaction.partitioning();
    transaction
        .steps()
        .any(|step| step_touches(step, cell, desk, partitioning, desks))
}

// The lowest transaction with an operation of this desk that may touch this cell.
fn cause_transaction(plan: &Plan, cell: u32, desk: u32) -> Option<usize>
    requires { desk < (the_plan plan.now).desks }
    ensures { result ≡ if_below (length (the_plan plan.now).transactions) (cause_transaction (the_plan plan.now) cell desk) }
{
    let desks = plan.desks();
    plan.transactions().position(|transaction| transaction_touches(&transaction, cell, desk, desks))
}

// The cause of an operation of this desk, if it has one.
#[tactic(auto, using(crate::proofs::Found::parts))]
pub(crate) fn cause_of(masks: &MaskTable, operation: &Operation, desk: u32) -> Option<Cause>
    ensures { result ≡ cause_found (the_plan masks.now.plan) desk
        (cells_named writes operation.now.params (the_transaction operation.now.transaction).steps) }
{
    let cell = cause_cell(masks, operation, desk)?;
    let other = cause_desk(masks.mask(cell), desk)?;
    let transaction = cause_transaction(&masks.plan, cell, other)?;
    Some(Cause {
        cell,
        desk: other,
        transaction: transaction as u32,
    })
}
