// The order of those that wait: urgent ones before the others.
//     is_urgent                     whether a record is urgent
//     urgent_lead                   question 6 of the order: no urgent one follows one that is not
//     urgent_waiting, join_place    how many urgent ones wait; the place at which a request joins those that wait
// `#[inline(always)]`: it is small and runs in an inner loop.
ghost use Rattle.std.specs.Prelude.{◌≡◌, ◌≤◌, length};
ghost use Rattle.std.specs.List.{filter};
ghost use Rattle.plan.specs.Accepted.{the_plan};
ghost use Rattle.queue.specs.Queue.{queue_size};
ghost use Rattle.queue.specs.Words.{records_in};
ghost use Rattle.desk.specs.Queueing.{is_urgent, waiting_in};
ghost use Rattle.desk.specs.Priority.{urgent_lead, join_place};

use plan::Plan;
use queue::Request;

// Whether the record's transaction is urgent: one that does not exist is not.
#[inline(always)]
fn is_urgent(plan: &Plan, request: &Request) -> bool
    ensures { result ≡ is_urgent (the_plan plan.now) request.now }
{
    match plan.transaction(request.transaction) {
        Some(transaction) => transaction.is_urgent(),
        None => false,
    }
}

// Whether no urgent one of the first `waiting` records follows one that is not: behind those that are urgent none is.
pub(crate) fn urgent_lead(plan: &Plan, waiting: usize, row: &[u32]) -> bool
    requires { waiting ≤ queue_size }
    ensures { result ≡ urgent_lead (is_urgent (the_plan plan.now)) (waiting_in waiting (records_in row.now)) }
{
    !queue::waiting_records(row, waiting)
        .skip_while(|request| is_urgent(plan, request))
        .any(|request| is_urgent(plan, &request))
}

// How many of the first `waiting` records are urgent.
fn urgent_waiting(plan: &Plan, waiting: usize, row: &[u32]) -> usize
    requires { waiting ≤ queue_size }
    ensures { result ≡ length (filter (is_urgent (the_plan plan.now)) (waiting_in waiting (records_in row.now))) }
{
    queue::waiting_records(row, waiting)
        .filter(|request| is_urgent(plan, request))
        .count()
}

// The place at which a request joins the first `waiting` records: behind the urgent ones if it is urgent, else behind all.
pub fn join_place(plan: &Plan, waiting: usize, row: &[u32], request: &Request) -> usize
    requires { waiting ≤ queue_size }
    ensures { result ≡ join_place (is_urgent (the_plan plan.now)) (waiting_in waiting (records_in row.now)) request.now }
{
    if is_urgent(plan, request) {
        urgent_waiting(plan, waiting, row)
    } else {
        waiting
    }
}
