// Where a request's operation goes, by its class and its desk. A table of masks is filled only where the answer hangs on it: for an own
// operation that writes, unless question 6 has filled one.
//     is_global    whether the operation is global
//     route_of     where it goes
ghost use Rattle.std.specs.Prelude.{◌≡◌, IfSome, is_some, ltb};
ghost use Rattle.plan.specs.Accepted.{the_plan};
ghost use Rattle.plan.specs.Transaction.{the_transaction};
ghost use Rattle.conflict.specs.Class.{is_global, class_by};
ghost use Rattle.requests.specs.Route.{way_of, way_by};

use conflict::MaskTable;
use operation::Operation;
use plan::Plan;

// It runs at once, waits at this desk, or is another desk's.
#[derive(Clone, Copy, Debug, PartialEq, Eq)]
pub enum Route {
    Runs,
    Waits,
    Elsewhere,
}

// Whether the operation is global, by the plan's table of masks: there is one where requests wait. Where none wait, one is filled here if
// the operation writes.
#[tactic(auto, using(conflict::proofs::Tabled::reading_not_global))]
fn is_global(plan: &Plan, operation: &Operation, waiting: u32, masks: Option<&MaskTable>) -> bool
    requires masks { IfSome masks (λ t. t.now.plan.words.now ≡ plan.now.words.now) }
    requires filled { is_some masks ≡ ltb 0 waiting }
    ensures { result ≡ is_global (class_by (the_plan plan.now) (the_transaction operation.now.transaction) operation.now.params) }
{
    match masks {
        Some(table) => table.is_global(operation),
        None => conflict::has_write(&operation.transaction)
            && MaskTable::fill(*plan).is_global(operation),
    }
}

// Where the operation goes. `own` says whether this desk is its own, `waiting` how many requests wait here.
pub(crate) fn route_of(
    plan: &Plan,
    operation: &Operation,
    own: bool,
    waiting: u32,
    masks: Option<&MaskTable>,
) -> Route
    requires masks { IfSome masks (λ t. t.now.plan.words.now ≡ plan.now.words.now) }
    requires filled { is_some masks ≡ ltb 0 waiting }
    ensures { way_of result
        ≡ way_by (class_by (the_plan plan.now) (the_transaction operation.now.transaction) operation.now.params) own }
{
    if own {
        if is_global(plan, operation, waiting, masks) {
            return Route::Waits;
        }
        return Route::Runs;
    }
    if conflict::is_free(plan, operation) {
        return Route::Runs;
    }
    Route::Elsewhere
}
