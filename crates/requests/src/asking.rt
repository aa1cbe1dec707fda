// The core of a request at a desk, of a queue of words.
//     buffers_fit                question 5
//     joined, serve              a request that is to wait; questions 7 and 8, and the request by its route
//     with_state                 the answer with the state after the call
//     join, enqueue              the record put in at its place; the same if the request waits
//     record_of                  the record of a request
//     opened_step                the request behind questions 1 to 6 and 17
//     planned_step               questions 5 and 6, and the request: without a table of masks where none waits
//     request_step               the request
ghost use Rattle.std.specs.Prelude.{◌≡◌, true, cond, IfSome, IfOk, is_some, List, [], ℕ, ◌<◌, ltb, length, ◌≤◌};
ghost use Rattle.verdict.specs.Verdict.{ask, ◌then◌, verdict_of};
ghost use Rattle.std.specs.List.{insert};
ghost use Rattle.lists.specs.Lists.{overwritten};
ghost use Rattle.plan.specs.Plan.{Plan as Decoded};
ghost use Rattle.plan.specs.Decode.{plan_of};
ghost use Rattle.plan.specs.Accepted.{the_plan};
ghost use Rattle.operation.specs.Admission.{operation_verdict};
ghost use Rattle.queue.specs.Queue.{queue_size};
ghost use Rattle.queue.specs.Words.{records_in, queue_in, queue_words, row_left};
ghost use Rattle.queue.specs.declared.record.Request.{Request as Queued};
ghost use Rattle.desk.specs.Admission.{desk_buffers_fit, desk_fits};
ghost use Rattle.desk.specs.Holding.{holding};
ghost use Rattle.desk.specs.Queueing.{operation_of, waiting_in};
ghost use Rattle.requests.specs.Request.{is_waits, request_refused, unchanged, enqueued, served, record_of, request_result};
ghost use Rattle.requests.specs.Answer.{response_of, requested_of, result_of};
ghost use Rattle.requests.specs.Step.{place_in, queue_after, store_from, without_queue, opening_verdict};

use crate::answer::{RequestAnswer, RequestResult, RequestStep};
use crate::route;
use crate::route::Route;
use conflict::MaskTable;
use desk::Desk;
use operation::STORE_SIZE;
use plan::Plan;
use queue::{MOST_WAITING, QUEUE_WORDS, Request};
use verdict::Refusal;

// Question 5.
#[tactic(auto, using(crate::proofs::Handed::by_store, crate::proofs::Handed::by_row))]
fn buffers_fit(cells: &[u32], row: &[u32]) -> bool
    ensures { result ≡ desk_buffers_fit cells.now (queue_in row.now) }
{
    cells.len() == STORE_SIZE && row.len() == QUEUE_WORDS
}

// Question 9; then the request joins those that wait.
fn joined(state: Desk) -> Result<(RequestAnswer, Desk), Refusal>
    ensures { (cells : List ℕ) (p : Decoded) (request : Queued) → requested_of (result_of result state) cells []
        ≡ without_queue (cond (ltb state.waiting queue_size) (enqueued (holding state cells []) p request)
        (unchanged (holding state cells []) (request_refused 9))) }
{
    if MOST_WAITING <= state.waiting {
        return Err(Refusal::QueueFull);
    }
    let after = Desk {
        waiting: state.waiting + 1,
        ..state
    };
    Ok((RequestAnswer::Waits, after))
}

// Questions 7 and 8; then by its class and its desk the operation runs, waits, or is another desk's.
fn serve(
    plan: &Plan,
    state: Desk,
    cells: &mut [u32],
    request: Request,
    masks: Option<&MaskTable>,
) -> Result<(RequestAnswer, Desk), Refusal>
    requires masks { IfSome masks (λ t. t.now.plan.words.now ≡ plan.now.words.now) }
    requires filled { is_some masks ≡ ltb 0 state.waiting }
    ensures { requested_of (result_of result state) cells.new [] ≡ without_queue (served (holding state cells.old [])
        (operation_verdict (the_plan plan.now) (operation_of request)) (the_plan plan.now) request) }
{
    let operation = desk::admit(plan, request)?;
    let own = operation.desk(plan);
    match route::route_of(plan, &operation, own == state.desk, state.waiting, masks) {
        Route::Runs => Ok((
            RequestAnswer::Replied(desk::run_operation(&operation, cells)),
            state,
        )),
        Route::Waits => joined(state),
        Route::Elsewhere => Ok((RequestAnswer::Elsewhere(own), state)),
    }
}

// The answer with the state after the call: with a refusal it stays.
fn with_state(served: Result<(RequestAnswer, Desk), Refusal>, state: Desk) -> RequestResult
    ensures { result ≡ result_of served state }
{
    match served {
        Ok((answer, after)) => RequestResult {
            answer: Ok(answer),
            state: after,
        },
        Err(refusal) => RequestResult {
            answer: Err(refusal),
            state,
        },
    }
}

// Puts the record of a request in at its place among those that wait, and gives the place.
fn join(plan: &Plan, waiting: usize, row: &mut [u32], request: Request) -> usize
    requires { (waiting < queue_size) × (length row.old ≡ queue_words) }
    ensures { (result ≡ place_in (the_plan plan.now) waiting (records_in row.old) request)
        × (records_in row.new ≡ overwritten (insert (waiting_in waiting (records_in row.old)) result request)
        (records_in row.old)) }
{
    let place = desk::join_place(plan, waiting, row, &request);
    queue::insert_in(row, place, waiting, request);
    place
}

// Puts the record in if the request waits, and gives the place from which on the records have changed.
fn enqueue(
    plan: &Plan,
    waiting: usize,
    row: &mut [u32],
    request: Request,
    answer: Result<RequestAnswer, Refusal>,
) -> usize
    requires room { is_waits (response_of answer) ≡ true → waiting < queue_size }
    requires row { length row.old ≡ queue_words }
    ensures from { result ≡ store_from (response_of answer) (the_plan plan.now) waiting (records_in row.old) request }
    ensures queue { records_in row.new ≡ queue_after (response_of answer) (the_plan plan.now) waiting (records_in row.old) request }
{
    match answer {
        Ok(RequestAnswer::Waits) => join(plan, waiting, row, request),
        Ok(RequestAnswer::Replied(_) | RequestAnswer::Elsewhere(_)) | Err(_) => waiting,
    }
}

// The record of a request.
pub fn record_of(client: u32, transaction: u32, params: [u32; 4]) -> Request
    ensures { result ≡ record_of client transaction params }
{
    let [p0, p1, p2, p3] = params;
    Request {
        client,
        transaction,
        p0,
        p1,
        p2,
        p3,
    }
}

// The request behind questions 1 to 6 and 17. Just where requests wait it is handed the table of masks by which 6 is answered.
fn opened_step(
    plan: &Plan,
    opened: Result<Option<&MaskTable>, Refusal>,
    state: Desk,
    cells: &mut [u32],
    row: &mut [u32],
    request: Request,
) -> RequestStep
    requires verdict { verdict_of opened ≡ (opening_verdict plan.now.words.now cells.old row.old
        then ask 6 (desk_fits (the_plan plan.now) state (records_in row.old))) }
    requires masks { IfOk opened (λ m. IfSome m (λ t. t.now.plan.words.now ≡ plan.now.words.now)) }
    requires filled { IfOk opened (λ m. is_some m ≡ ltb 0 state.waiting) }
    requires row { IfOk opened (λ m. length row.old ≡ queue_words) }
    ensures left { requested_of result.result cells.new (queue_in row.new)
        ≡ request_result plan.now.words.now (holding state cells.old (queue_in row.old)) request }
    ensures row_left { row.new ≡ row_left row.old (queue_in row.new) }
    ensures changed { result.from ≡ store_from (response_of result.result.answer) (the_plan plan.now) state.waiting
        (queue_in row.old) request }
{
    let waiting = state.waiting as usize;
    let masks = match opened {
        Ok(masks) => masks,
        Err(refusal) => {
            return RequestStep {
                result: with_state(Err(refusal), state),
                from: waiting,
            };
        }
    };
    let served = serve(plan, state, cells, request, masks);
    let result = with_state(served, state);
    let from = enqueue(plan, waiting, row, request, result.answer);
    RequestStep { result, from }
}

// The request behind questions 1 to 4 and 17. Where none waits question 6 is of the state alone, and no table of masks is handed on.
#[tactic(auto, using(crate::proofs::Handed::row_long, desk::proofs::QuestionSix::state_alone), unfolding(crate::specs::Step::opening_verdict))]
fn planned_step(
    plan: &Plan,
    state: Desk,
    cells: &mut [u32],
    row: &mut [u32],
    request: Request,
) -> RequestStep
    ensures left { requested_of result.result cells.new (queue_in row.new)
        ≡ request_result plan.now.words.now (holding state cells.old (queue_in row.old)) request }
    ensures row_left { row.new ≡ row_left row.old (queue_in row.new) }
    ensures changed { result.from ≡ store_from (response_of result.result.answer) (the_plan plan.now) state.waiting
        (queue_in row.old) request }
{
    if !buffers_fit(cells, row) {
        return opened_step(plan, Err(Refusal::WrongSize), state, cells, row, request);
    }
    if state.waiting == 0 {
        return match desk::state_fits(plan, state) {
            Ok(()) => opened_step(plan, Ok(None), state, cells, row, request),
            Err(refusal) => opened_step(plan, Err(refusal), state, cells, row, request),
        };
    }
    match desk::desk_fits(plan, state, row) {
        Ok(masks) => opened_step(plan, Ok(masks.as_ref()), state, cells, row, request),
        Err(refusal) => opened_step(plan, Err(refusal), state, cells, row, request),
    }
}

// The request. Nothing is written before the last question.
pub fn request_step(
    words: &[u32],
    state: Desk,
    cells: &mut [u32],
    row: &mut [u32],
    request: Request,
) -> RequestStep
    ensures left { requested_of result.result cells.new (queue_in row.new)
        ≡ request_result words.now (holding state cells.old (queue_in row.old)) request }
    ensures row_left { row.new ≡ row_left row.old (queue_in row.new) }
    ensures changed { result.from ≡ store_from (response_of result.result.answer) (plan_of words.now) state.waiting
        (queue_in row.old) request }
{
    match Plan::read(words) {
        Ok(plan) => planned_step(&plan, state, cells, row, request),
        Err(refusal) => RequestStep {
            result: with_state(Err(refusal), state),
            from: state.waiting as usize,
        },
    }
}
