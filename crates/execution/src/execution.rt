// Running an operation on a store, and applying the update of a run.
//     act            what set, add, need and take make of the accumulator
//     cell_number    the cell that a read or write step names
//     seen           a cell of the store as a run sees it
//     apply          writes an update into the store
//     run            the run
ghost use Rattle.std.specs.Prelude.{◌≡◌, ◌<◌, get_or};
ghost use Rattle.plan.specs.Step.{action_from, source_from};
ghost use Rattle.plan.specs.Transaction.{the_transaction};
ghost use Rattle.operation.specs.Operation.{value_of, cell_number};
ghost use Rattle.operation.specs.Store.{store_size, apply_update};
ghost use Rattle.execution.specs.Run.{act as act_on, run_transaction};
ghost use Rattle.execution.specs.Answer.{next_of, update_of, outcome_of};

use crate::outcome;
use crate::outcome::{Outcome, Told};
use crate::update::Update;
use operation::Operation;
use plan::{Access, Action, Source, Step};

// The accumulator behind the step, or nothing where it stops the run: at an add past the largest word, a take below zero, and a need that
// is not met.
#[tactic(auto, unfolding(crate::specs::Run::act))]
fn act(action: Action, number: u32, operand: u32) -> Option<u32>
    ensures { next_of result ≡ act_on (action_from action) number operand }
{
    match action {
        Action::Set => Some(operand),
        Action::Add => number.checked_add(operand),
        Action::Need => (operand <= number).then_some(number),
        Action::Take => number.checked_sub(operand),
    }
}

// The cell that a read or write step names.
fn cell_number(table: u32, column: u32, row: Source, params: &[u32; 4]) -> u32
    requires { cell_number table (value_of params.now (source_from row)) column < store_size }
    ensures { result ≡ cell_number table (value_of params.now (source_from row)) column }
{
    table * 128 + operation::source_value(row, params) * 4 + column
}

// A cell of the store as a run sees it that has written this update: its last value for this cell, else the store's.
fn seen(store: &[u32], update: &Update, cell: u32) -> u32
    ensures { result ≡ get_or (apply_update (update_of update.now) store.now) cell 0 }
{
    let Some(stored) = store.get(cell as usize) else {
        return 0;
    };
    match update.as_slice().iter().rev().find(|pair| pair.0 == cell) {
        Some((_, latest)) => *latest,
        None => *stored,
    }
}

// Writes the update into the store. A cell past the store's end is passed over.
pub fn apply(store: &mut [u32], update: &Update)
    ensures { store.new ≡ apply_update (update_of update.now) store.old }
{
    for (cell, value) in update.as_slice() {
        // By index: tried with get_mut, of which a proof learns the slice's length and no element.
        let at = *cell as usize;
        if at < store.len() {
            store[at] = *value;
        }
    }
}

// Runs the operation. The writes are kept until the run is done.
pub fn run(operation: &Operation, store: &[u32]) -> Outcome
    ensures { outcome_of result ≡ run_transaction (the_transaction operation.now.transaction) operation.now.params store.now }
{
    let params = operation.params;
    let mut number: u32 = 0;
    let mut told = Told::new();
    let mut update = Update::new();
    for step in operation.transaction.steps() {
        match step {
            Step::Cell(access, table, column, row) => {
                let cell = cell_number(table, column, row, &params);
                match access {
                    Access::Read => number = seen(store, &update, cell),
                    Access::Write => update.push((cell, number)),
                }
            }
            Step::Operand(action, source) => {
                let operand = operation::source_value(source, &params);
                let Some(after) = act(action, number, operand) else {
                    return Outcome {
                        reply: outcome::reply_with(false, number, &told),
                        update: Update::new(),
                    };
                };
                number = after;
            }
            Step::Tell => told.push(number),
        }
    }
    Outcome {
        reply: outcome::reply_with(true, number, &told),
        update,
    }
}
