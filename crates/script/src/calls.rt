// The engine's calls. Each is refused by a question, or else answers a value.
use crate::answers::{Case, Reply, Response, Written};
use crate::buffers::Buffers;
use crate::holding::Holding;
use crate::lent::Lent;
use crate::operations::{ClientOperation, Operation};
use conveyor::{Class, Refusal, RequestAnswer};

// The words of the starting frame.
const LEAST_FRAME: usize = 4;

// The classifier.
pub(crate) fn classify(plan: &[u32], operation: &Operation) -> Result<Class, Refusal> {
    conveyor::classify(plan, operation.transaction, operation.parameters())
}

// The starting frame.
pub(crate) fn starting_frame(out: &mut [u32]) -> Result<Written, Refusal> {
    conveyor::starting_frame(out)?;
    Ok(Written {
        sent: LEAST_FRAME,
        replies: 0,
    })
}

// The first items, as many as are lent, or all where there are fewer.
fn lend<T>(items: &mut [T], lent: usize) -> &mut [T] {
    let count = lent.min(items.len());
    &mut items[..count]
}

// A reply to a request.
fn replied(reply: conveyor::Reply) -> Reply {
    Reply {
        case: if reply.done {
            Case::Done
        } else {
            Case::Declined
        },
        number: reply.number,
        told: [reply.told0, reply.told1, reply.told2, reply.told3],
    }
}

// A request at a desk.
pub(crate) fn request(
    plan: &[u32],
    desk: &mut Holding,
    lent: Lent,
    asked: ClientOperation,
) -> Result<Response, Refusal> {
    let result = conveyor::request(
        plan,
        desk.state,
        lend(&mut desk.book, lent.book),
        lend(&mut desk.row, lent.row),
        asked.client,
        asked.operation.transaction,
        asked.operation.parameters(),
    );
    desk.state = result.state;
    Ok(match result.answer? {
        RequestAnswer::Replied(reply) => Response::Replied(replied(reply)),
        RequestAnswer::Waits => Response::Waits,
        RequestAnswer::Elsewhere(desk) => Response::Elsewhere(desk),
    })
}

// A visit at a desk by the words of a frame.
pub(crate) fn visit(
    plan: &[u32],
    desk: &mut Holding,
    lent: Lent,
    frame: &[u32],
    buffers: &mut Buffers,
) -> Result<Written, Refusal> {
    let result = conveyor::visit(
        plan,
        desk.state,
        lend(&mut desk.book, lent.book),
        lend(&mut desk.bulletin, lent.bulletin),
        lend(&mut desk.row, lent.row),
        frame,
        &mut buffers.out,
        &mut buffers.replies,
    );
    desk.state = result.state;
    let forwarded = result.answer?;
    Ok(Written {
        sent: forwarded.words,
        replies: forwarded.replies,
    })
}
