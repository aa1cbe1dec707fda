// What a visit does once all its questions are answered with yes.
ghost use Rattle.std.specs.Prelude.{◌≡◌};
ghost use Rattle.plan.specs.Accepted.{the_plan};
ghost use Rattle.queue.specs.Words.{records_in};
ghost use Rattle.desk.specs.Holding.{holding};
ghost use Rattle.visits.specs.Core.{Passable};
ghost use Rattle.visits.specs.Answer.{LeavesAccepted};

use crate::answer::{Forwarded, VisitResult};
use crate::running;
use desk::Desk;
use frame::Frame;
use plan::Plan;

// Drops the desk's own updates, applies the others and sends them on, runs the waiting requests, and seals the frame for the next visit.
// The snapshot is taken before, and is no matter here.
pub(crate) fn accepted_visit(
    plan: &Plan,
    frame: &Frame,
    state: Desk,
    cells: &mut [u32],
    row: &[u32],
    out: &mut [u32],
    replies: &mut [u32],
) -> VisitResult
    requires { Passable plan.now.words.now (holding state cells.old (records_in row.now)) frame.now.words.now out.old replies.old }
    ensures { LeavesAccepted (the_plan plan.now) (holding state cells.old (records_in row.now))
        frame.now.words.now out.old replies.old result cells.new out.new replies.new }
{
    let desk = state.desk;
    let waiting = state.waiting as usize;
    let copied = 2 + token::forward_foreign(frame.updates(), desk, cells, &mut out[2..]);
    let end = copied
        + running::run_waiting(plan, waiting, row, desk, cells, &mut out[copied..], replies);
    let desks = plan.desks();
    let visit = frame.visit();
    token::seal(out, (visit + 1) % desks, visit + 1, end);
    let after = Desk {
        desk,
        waiting: 0,
        awaited: visit as u64 + desks as u64,
    };
    VisitResult {
        answer: Ok(Forwarded {
            words: end + 2,
            replies: waiting,
        }),
        state: after,
    }
}
