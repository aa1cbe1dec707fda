// A request at a desk, of a queue of lent words: 192, six a record. Words of any other number are no queue of 32 records, and are refused
// with 5 in its turn.
ghost use Rattle.std.specs.Prelude.{◌≡◌};
ghost use Rattle.queue.specs.Words.{queue_in, row_left};
ghost use Rattle.desk.specs.Holding.{holding};
ghost use Rattle.requests.specs.Request.{record_of, request_result};
ghost use Rattle.requests.specs.Answer.{requested_of};

use crate::answer::RequestResult;
use crate::asking;
use desk::Desk;

// The request. If it waits its record is put in at its place, and those behind it move up.
pub fn request_on_words(
    plan: &[u32],
    state: Desk,
    cells: &mut [u32],
    row: &mut [u32],
    client: u32,
    transaction: u32,
    params: [u32; 4],
) -> RequestResult
    ensures { (requested_of result cells.new (queue_in row.new)
        ≡ request_result plan.now (holding state cells.old (queue_in row.old))
        (record_of client transaction params))
        × (row.new ≡ row_left row.old (request_result plan.now
        (holding state cells.old (queue_in row.old)) (record_of client transaction params)).queue) }
{
    let request = asking::record_of(client, transaction, params);
    let step = asking::request_step(plan, state, cells, row, request);
    step.result
}
