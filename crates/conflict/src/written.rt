// Whether some operation of the plan may write a cell that one operation may read.
//     cell_given                              whether some operation makes a cell the one of a step
//     ReadCells, read_cells                   the cells that an operation may read, and how they are collected
//     writes_read, transaction_writes_read    whether a step, or one of a transaction, may write one of these cells
//     reads_written                           whether some operation may write a cell that an operation may read
// `#[inline(always)]`: these are small and run in inner loops.
ghost use Rattle.std.specs.Prelude.{◌≡◌};
ghost use Rattle.std.specs.List.{list_any};
ghost use Rattle.plan.specs.Plan.{reads};
ghost use Rattle.plan.specs.Accepted.{the_plan};
ghost use Rattle.plan.specs.Step.{source_from, step_from};
ghost use Rattle.plan.specs.Transaction.{the_transaction};
ghost use Rattle.operation.specs.Operation.{cells_named};
ghost use Rattle.conflict.specs.Written.{cell_given, step_writes, written};

use crate::row;
use arrayvec::ArrayVec;
use operation::Operation;
use plan::{Access, Plan, Source, Step, Transaction};

// The cells that an operation may read: at most as many as a transaction has steps.
type ReadCells = ArrayVec<u32, 12>;

// Whether some operation makes this cell the one of a step with this table, column and row.
#[tactic(auto, unfolding(crate::specs::Written::cell_given))]
#[inline(always)]
pub(crate) fn cell_given(table: u32, column: u32, source: Source, cell: u32) -> bool
    ensures { result ≡ cell_given table column (source_from source) cell }
{
    cell / 128 == table && cell % 4 == column && row::row_given(source, cell / 4 % 32)
}

// The cells that the operation may read, in step order.
fn read_cells(operation: &Operation) -> ReadCells
    ensures { result.items ≡ cells_named reads operation.now.params (the_transaction operation.now.transaction).steps }
{
    let mut cells = ReadCells::new();
    for cell in operation.cells(Access::Read) {
        cells.push(cell);
    }
    cells
}

// Whether this step may write one of these cells.
#[inline(always)]
fn writes_read(step: Step, cells: &[u32]) -> bool
    ensures { result ≡ list_any (step_writes (step_from step)) cells.now }
{
    match step {
        Step::Cell(access, table, column, source) => {
            access == Access::Write
                && cells
                    .iter()
                    .any(|cell| cell_given(table, column, source, *cell))
        }
        Step::Operand(_, _) => false,
        Step::Tell => false,
    }
}

// Whether a step of this transaction may write one of these cells.
fn transaction_writes_read(transaction: &Transaction, cells: &[u32]) -> bool
    ensures { result ≡ list_any (λ s. list_any (step_writes s) cells.now) (the_transaction transaction.now).steps }
{
    transaction.steps().any(|step| writes_read(step, cells))
}

// Whether some operation may write a cell that this operation may read. Its cells are collected once, and the plan is walked once.
pub(crate) fn reads_written(plan: &Plan, operation: &Operation) -> bool
    ensures { result ≡ list_any (written (the_plan plan.now))
        (cells_named reads operation.now.params (the_transaction operation.now.transaction).steps) }
{
    let cells = read_cells(operation);
    plan.transactions().any(|transaction| transaction_writes_read(&transaction, cells.as_slice()))
}
