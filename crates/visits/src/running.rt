// Running the waiting requests: each on the store as the one before left it, its update behind the words of those before, its reply behind
// theirs.
//     reply_head, write_reply      the words of a reply
//     run_one, run_waiting         one request; the first of a row, which is lent as plain words
ghost use Rattle.std.specs.Prelude.{◌≡◌, ◌≤◌, length, take};
ghost use Rattle.lists.specs.Lists.{overwritten};
ghost use Rattle.plan.specs.Accepted.{the_plan};
ghost use Rattle.visits.specs.Waiting.{reply_head, reply_size, answered, reply_words};
ghost use Rattle.visits.specs.Running.{Runs, Ran, AllRun, AllRan};
ghost use Rattle.queue.specs.Queue.{queue_size};
ghost use Rattle.queue.specs.Words.{records_in};

use execution::Reply;
use operation::Operation;
use plan::Plan;
use queue::QUEUE_SIZE;

// The words of a reply, and of the replies to as many requests as may wait.
const REPLY_SIZE: usize = 7;

pub(crate) const REPLIES_SIZE: usize = REPLY_SIZE * QUEUE_SIZE;

// The first word of a reply: kind 12, with bit 0 set if done.
fn reply_head(done: bool) -> u32
    ensures { result ≡ reply_head done }
{
    if done { 0xc000_0001 } else { 0xc000_0000 }
}

// Writes a reply with its client's word at the front of what is left of the reply words.
fn write_reply(replies: &mut [u32], client: u32, reply: Reply)
    requires { reply_size ≤ length replies.old }
    ensures { replies.new ≡ overwritten (reply_words (answered client reply)) replies.old }
{
    replies[0] = reply_head(reply.done);
    replies[1] = client;
    replies[2] = reply.number;
    replies[3] = reply.told0;
    replies[4] = reply.told1;
    replies[5] = reply.told2;
    replies[6] = reply.told3;
}

// Runs one request's operation: its update goes to the front of what is left of the outgoing words, its reply to the front of what is left
// of the reply words. Answers how many outgoing words it wrote.
fn run_one(
    operation: &Operation,
    client: u32,
    desk: u32,
    cells: &mut [u32],
    out: &mut [u32],
    replies: &mut [u32],
) -> usize
    requires { Runs operation.now desk cells.old out.old replies.old }
    ensures { Ran operation.now client desk cells.old out.old replies.old result cells.new out.new replies.new }
{
    let outcome = execution::run(operation, cells);
    write_reply(replies, client, outcome.reply);
    execution::apply(cells, &outcome.update);
    token::write_update(out, desk, &outcome.update)
}

// Runs the first `waiting` requests of the row in order, and answers how many outgoing words their updates have.
pub(crate) fn run_waiting(
    plan: &Plan,
    waiting: usize,
    row: &[u32],
    desk: u32,
    cells: &mut [u32],
    out: &mut [u32],
    replies: &mut [u32],
) -> usize
    requires { (waiting ≤ queue_size)
        × AllRun (the_plan plan.now) (take waiting (records_in row.now)) desk cells.old out.old replies.old }
    ensures { AllRan (the_plan plan.now) (take waiting (records_in row.now)) desk cells.old
        out.old replies.old result cells.new out.new replies.new }
{
    let mut end: usize = 0;
    for (at, request) in queue::waiting_records(row, waiting).enumerate() {
        let operation = desk::admitted_operation(plan, request);
        let answered = at * REPLY_SIZE;
        end += run_one(
            &operation,
            request.client,
            desk,
            cells,
            &mut out[end..],
            &mut replies[answered..],
        );
    }
    end
}
