// What an operation names: its desk, the cells that its steps read or write, and how many cells a store has.
//     STORE_SIZE                        the cells of a store
//     desk_with, desk                   the desk by a partitioning, and by the word of a transaction
//     cell_named                        the cell that the step in a word names
//     cell_of                           the cell that a step reads or writes
//     Cells::next                       the next of the cells that the steps of an operation read, or of those that they write
//     Operation::desk, cells            of an operation
// `#[inline(always)]`: these are small and run in inner loops.
ghost use Rattle.std.specs.Prelude.{◌≡◌, ◌<◌, ◌≤◌, IfSome};
ghost use Rattle.std.specs.Iterator.{YieldsFirst, item_count};
ghost use Rattle.word.specs.Field.{partitioning_field, table_field, column_field};
ghost use Rattle.plan.specs.Decode.{part_by, row_of};
ghost use Rattle.plan.specs.Accepted.{the_plan};
ghost use Rattle.plan.specs.Step.{access_from, part_from, step_from};
ghost use Rattle.plan.specs.Transaction.{the_transaction};
ghost use Rattle.operation.specs.Operation.{value_of, desk_by, cell_number, cells_named};
ghost use Rattle.operation.specs.Store.{store_size};
ghost use Rattle.operation.specs.Named.{cell_of};
ghost use Rattle.operation.specs.Cells.{the_cells};

use crate::named::Cells;
use crate::operation::Operation;
use crate::value;
use plan::{Access, Partitioning, Plan, Source, Step};
use word::fields;

// The cells of a store.
pub const STORE_SIZE: usize = 1024;

// The desk by this partitioning.
fn desk_with(part: Partitioning, desks: u32, params: &[u32; 4]) -> u32
    requires { 1 ≤ desks }
    ensures { result ≡ desk_by desks (part_from part) params.now }
{
    match part {
        Partitioning::Parameter(i) => value::parameter(params, i) % desks,
        Partitioning::Unpartitioned => 0,
        Partitioning::Open => 0,
    }
}

// The desk of an operation of the transaction in this word.
pub fn desk(word: u32, desks: u32, params: [u32; 4]) -> u32
    requires { 1 ≤ desks }
    ensures { result ≡ desk_by desks (part_by (partitioning_field word)) params }
{
    desk_with(
        Partitioning::from(word / fields::PARTITIONING % 16),
        desks,
        &params,
    )
}

// The cell that the read or write step in this word names, whose row is at most 31.
pub fn cell_named(word: u32, params: [u32; 4]) -> u32
    requires { value_of params (row_of word) ≤ 31 }
    ensures { result ≡ cell_number (table_field word) (value_of params (row_of word)) (column_field word) }
{
    let source = Source::beside(word / fields::ROW_SOURCE % 8, word % 32);
    let row = value::source_value(source, &params);
    word / fields::TABLE % 8 * 128 + row * 4 + word / fields::COLUMN % 4
}

// The cell that this step accesses in this way, if it does.
#[inline(always)]
fn cell_of(access: Access, step: Step, params: &[u32; 4]) -> Option<u32>
    requires { IfSome (cell_of (access_from access) params.now (step_from step)) (λ c. c < store_size) }
    ensures { result ≡ cell_of (access_from access) params.now (step_from step) }
{
    match step {
        Step::Cell(other, table, column, row) if access == other => {
            Some(table * 128 + value::source_value(row, params) * 4 + column)
        }
        _ => None,
    }
}

impl<'a> Iterator for Cells<'a> {
    type Item = u32;

    ghost next_gives = { YieldsFirst the_cells };

    ghost remaining = { item_count the_cells };

    #[inline(always)]
    fn next(&mut self) -> Option<u32> {
        let access = self.access;
        let params = self.params;
        let mut steps = self.steps;
        while let Some(step) = steps.next() {
            if let Some(cell) = cell_of(access, step, &params) {
                *self = Cells {
                    access,
                    params,
                    steps,
                };
                return Some(cell);
            }
        }
        *self = Cells {
            access,
            params,
            steps,
        };
        None
    }
}

impl<'a> Operation<'a> {
    // The desk of the operation.
    pub fn desk(&self, plan: &Plan) -> u32
        ensures { result ≡ desk_by (the_plan plan.now).desks (the_transaction self.now.transaction).part self.now.params }
    {
        desk_with(self.transaction.partitioning(), plan.desks(), &self.params)
    }

    // The cells that its steps read, or those that they write, in step order.
    #[inline(always)]
    pub fn cells(&self, access: Access) -> Cells<'a>
        ensures { the_cells result ≡ cells_named (access_from access) self.now.params (the_transaction self.now.transaction).steps }
    {
        Cells {
            access,
            params: self.params,
            steps: self.transaction.steps(),
        }
    }
}
