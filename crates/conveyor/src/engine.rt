// The two calls that take the lent queue. Its length is read and the records that wait; all else is reckoned on their words, and a request
// then stores the records that have changed.
ghost use Rattle.std.specs.Prelude.{◌≡◌};
ghost use Rattle.desk.specs.Holding.{holding};
ghost use Rattle.requests.specs.Request.{record_of, request_result};
ghost use Rattle.visits.specs.Visit.{visit_result};
ghost use Rattle.requests.specs.Answer.{requested_of};
ghost use Rattle.visits.specs.Answer.{visited_of};

use desk::Desk;
use queue::Request;
use requests::RequestResult;
use visits::VisitResult;

#[cfg(test)]
mod tests;

// A request at a desk.
pub fn request(
    plan: &[u32],
    state: Desk,
    cells: &mut [u32],
    queue: &mut [Request],
    client: u32,
    transaction: u32,
    params: [u32; 4],
) -> RequestResult
    ensures { requested_of result cells.new queue.new
        ≡ request_result plan.now (holding state cells.old queue.old)
        (record_of client transaction params) }
{
    let mut row = queue::copied(queue, state.waiting);
    let own = queue::words_of(queue.len());
    let request = requests::record_of(client, transaction, params);
    let step = requests::request_step(plan, state, cells, &mut row[..own], request);
    queue::store_back(queue, row, step.from, step.result.state.waiting);
    step.result
}

// A visit of the token at a desk, which is lent its snapshot besides (the paper's bulletin). The queue is only read.
pub fn visit(
    plan: &[u32],
    state: Desk,
    cells: &mut [u32],
    snapshot: &mut [u32],
    queue: &[Request],
    frame: &[u32],
    out: &mut [u32],
    replies: &mut [u32],
) -> VisitResult
    ensures { visited_of result cells.new snapshot.new out.new replies.new
        ≡ visit_result plan.now (holding state cells.old queue.now) snapshot.old
        frame.now out.old replies.old }
{
    let row = queue::copied(queue, state.waiting);
    let own = queue::words_of(queue.len());
    visits::visit_on_words(
        plan,
        state,
        cells,
        snapshot,
        &row[..own],
        frame,
        out,
        replies,
    )
}
