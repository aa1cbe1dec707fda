// The class of an operation, and the classifier.
//     has_write, one_desk_each    of the steps of a transaction, and of the cells that an operation may write
//     is_free                     whether an operation is free
//     MaskTable::is_global        whether an operation is global, by the table of a plan
//     is_global                   the same by a table that is lent, of the transaction at a place among the words of its plan
//     writer_class, class_of      its class, with its desk and its cause
//     classify                    the classifier
// `#[inline(always)]`: these are small and run in inner loops.
ghost use Rattle.std.specs.Prelude.{◌≡◌, true, get_or};
ghost use mathlib.Core.List.{Memᴰ};
ghost use Rattle.std.specs.List.{list_any};
ghost use Rattle.plan.specs.Plan.{writes};
ghost use Rattle.plan.specs.Decode.{plan_of};
ghost use Rattle.plan.specs.Place.{StandsAt, transaction_from};
ghost use Rattle.plan.specs.Accepted.{the_plan};
ghost use Rattle.plan.specs.Transaction.{the_transaction};
ghost use Rattle.operation.specs.Operation.{desk_by, cells_named};
ghost use Rattle.operation.specs.Admission.{parameters_pass};
ghost use Rattle.conflict.specs.Touch.{mask_table};
ghost use Rattle.conflict.specs.Class.{class_by, is_write, one_desk_each, is_free, is_global};
ghost use Rattle.conflict.specs.Answer.{classified, classified_of, classified_by, classify_result};

use crate::cause::Cause;
use crate::mask_table::MaskTable;
use crate::{cause, mask, written};
use operation::Operation;
use plan::{Access, Plan, Step, Transaction};
use std::fmt;
use verdict::Refusal;

// The class, with the operation's desk where it has one and, if it is global, its cause.
#[derive(Clone, Copy, Debug, PartialEq, Eq)]
pub enum Class {
    Free,
    Local(u32),
    Global(u32, Cause),
}

// Whether the transaction has a write step.
#[inline(always)]
pub fn has_write(transaction: &Transaction) -> bool
    ensures { result ≡ list_any is_write (the_transaction transaction.now).steps }
{
    transaction
        .steps()
        .any(|step| matches!(step, Step::Cell(Access::Write, _, _, _)))
}

impl fmt::Display for Class {
    fn fmt<W: fmt::Write>(&self, f: &mut fmt::Formatter<W>) -> fmt::Result {
        match self {
            Self::Free => f.write_str("free"),
            Self::Local(desk) => write!(f, "local at desk {desk}"),
            Self::Global(desk, cause) => write!(f, "global at desk {desk}: {cause}"),
        }
    }
}

// Whether each cell that the operation may write has one desk in its mask: the number of desks is the count of ones in it.
#[inline(always)]
fn one_desk_each(masks: &[u8], operation: &Operation) -> bool
    ensures { result ≡ one_desk_each (λ c. get_or masks.now c 0)
        (cells_named writes operation.now.params (the_transaction operation.now.transaction).steps) }
{
    operation
        .cells(Access::Write)
        .all(|cell| mask::mask_at(masks, cell).count_ones() == 1)
}

impl<'a> MaskTable<'a> {
    // Whether an operation is global: some cell that it may write does not have just one desk.
    #[inline(always)]
    pub fn is_global(&self, operation: &Operation) -> bool
        ensures { result ≡ is_global (class_by (the_plan self.now.plan)
            (the_transaction operation.now.transaction) operation.now.params) }
    {
        !one_desk_each(&self.masks, operation)
    }
}

// Whether an operation of the transaction at this place is global, by the table of masks: some cell that it may write does not have just
// one desk.
pub fn is_global(plan: &[u32], at: usize, params: [u32; 4], masks: &[u8]) -> bool
    requires { StandsAt plan.now at × (parameters_pass (transaction_from plan.now at) params ≡ true)
        × (masks.now ≡ mask_table (plan_of plan.now)) }
    ensures { result ≡ is_global (class_by (plan_of plan.now) (transaction_from plan.now at) params) }
{
    let transaction = Transaction::standing(plan, at);
    let operation = Operation {
        transaction,
        params,
    };
    !one_desk_each(masks, &operation)
}

// Whether an operation is free: it may write no cell, and no operation may write a cell that it may read. No table is filled.
#[tactic(auto, using(crate::proofs::Tabled::writing_not_free, crate::proofs::Tabled::reading_free))]
pub fn is_free(plan: &Plan, operation: &Operation) -> bool
    ensures { result ≡ is_free (class_by (the_plan plan.now)
        (the_transaction operation.now.transaction) operation.now.params) }
{
    !has_write(&operation.transaction) && !written::reads_written(plan, operation)
}

// The class of an operation that writes, of one of the plan's transactions and of this desk. One that is global has a cause.
#[tactic(auto, using(crate::proofs::Answers::answered_one_desk, crate::proofs::Answers::answered_global))]
fn writer_class(plan: &Plan, operation: &Operation, desk: u32) -> Class
    requires { Memᴰ (the_transaction operation.now.transaction) (the_plan plan.now).transactions
        × (list_any is_write (the_transaction operation.now.transaction).steps ≡ true)
        × (desk ≡ desk_by (the_plan plan.now).desks (the_transaction operation.now.transaction).part operation.now.params) }
    ensures { classified result ≡ classified_by (the_plan plan.now)
        (the_transaction operation.now.transaction) operation.now.params }
{
    let masks = MaskTable::fill(*plan);
    if !masks.is_global(operation) {
        return Class::Local(desk);
    }
    let cause = cause::cause_of(&masks, operation, desk).unwrap();
    Class::Global(desk, cause)
}

// The class of an operation of one of the plan's transactions. The table of masks is filled if it writes.
fn class_of(plan: &Plan, operation: &Operation) -> Class
    requires { Memᴰ (the_transaction operation.now.transaction) (the_plan plan.now).transactions }
    ensures { classified result ≡ classified_by (the_plan plan.now)
        (the_transaction operation.now.transaction) operation.now.params }
{
    if is_free(plan, operation) {
        return Class::Free;
    }
    let desk = operation.desk(plan);
    if has_write(&operation.transaction) {
        return writer_class(plan, operation, desk);
    }
    Class::Local(desk)
}

// The classifier: the verdict on the plan, questions 7 and 8, then the class, the desk and the cause.
#[tactic(auto, using(crate::proofs::Answers::questions))]
pub fn classify(words: &[u32], transaction: u32, params: [u32; 4]) -> Result<Class, Refusal>
    ensures { classified_of result ≡ classify_result words.now transaction params }
{
    let plan = Plan::read(words)?;
    let operation = Operation::admit(&plan, transaction, params)?;
    Ok(class_of(&plan, &operation))
}
