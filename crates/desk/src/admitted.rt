// The operation that a request asks for: questions 7 and 8, and its run.
// `#[inline(always)]`: these are small and run in inner loops.
ghost use Rattle.std.specs.Prelude.{◌≡◌, IfOk};
ghost use Rattle.verdict.specs.Verdict.{accepted, verdict_of};
ghost use Rattle.plan.specs.Accepted.{the_plan};
ghost use Rattle.plan.specs.Transaction.{the_transaction};
ghost use Rattle.operation.specs.Admission.{operation_verdict};
ghost use Rattle.operation.specs.Store.{apply_update};
ghost use Rattle.execution.specs.Run.{run_transaction};
ghost use Rattle.desk.specs.Queueing.{operation_of};
ghost use Rattle.desk.specs.Asked.{IsAsked};

use execution::Reply;
use operation::Operation;
use plan::Plan;
use queue::Request;
use verdict::Refusal;

// Questions 7 and 8.
#[inline(always)]
pub fn admit<'a>(plan: &Plan<'a>, request: Request) -> Result<Operation<'a>, Refusal>
    ensures verdict { verdict_of result ≡ operation_verdict (the_plan plan.now) (operation_of request) }
    ensures asked { IfOk result (IsAsked (the_plan plan.now) request) }
{
    Operation::admit(plan, request.transaction, queue::params(request))
}

// Runs the operation, and applies its update.
pub fn run_operation(operation: &Operation, cells: &mut [u32]) -> Reply
    ensures replied { result
        ≡ (run_transaction (the_transaction operation.now.transaction) operation.now.params cells.old).reply }
    ensures applied { cells.new ≡ apply_update
        (run_transaction (the_transaction operation.now.transaction) operation.now.params cells.old).update cells.old }
{
    let outcome = execution::run(operation, cells);
    execution::apply(cells, &outcome.update);
    outcome.reply
}

// The operation of a request that passes questions 7 and 8.
#[inline(always)]
pub fn admitted_operation<'a>(plan: &Plan<'a>, request: Request) -> Operation<'a>
    requires { operation_verdict (the_plan plan.now) (operation_of request) ≡ accepted }
    ensures { IsAsked (the_plan plan.now) request result }
{
    let transaction = plan.transaction(request.transaction).unwrap();
    Operation {
        transaction,
        params: queue::params(request),
    }
}
