// The questions of a visit that no other call asks, on the queue as plain words.
//     buffers_fit           question 5
//     turn, ask_frame       questions 13 to 15; questions 10 to 15, and the frame
ghost use Rattle.std.specs.Prelude.{◌≡◌, ◌&&◌, IfOk};
ghost use Rattle.verdict.specs.Verdict.{◌then◌, verdict_of};
ghost use Rattle.plan.specs.Accepted.{the_plan};
ghost use Rattle.frame.specs.Admission.{frame_verdict};
ghost use Rattle.queue.specs.Words.{queue_in};
ghost use Rattle.desk.specs.Admission.{desk_buffers_fit};
ghost use Rattle.visits.specs.Admission.{visit_buffers_fit, turn_verdict};

use crate::running;
use desk::Desk;
use frame::{Frame, LONGEST_FRAME};
use operation::STORE_SIZE;
use plan::Plan;
use queue::QUEUE_WORDS;
use verdict::Refusal;

// Question 5.
#[tactic(auto, using(crate::proofs::Rows::question_five))]
pub(crate) fn buffers_fit(
    cells: &[u32],
    snapshot: &[u32],
    row: &[u32],
    out: &[u32],
    replies: &[u32],
) -> bool
    ensures { result ≡ (desk_buffers_fit cells.now (queue_in row.now)
        && visit_buffers_fit snapshot.now out.now replies.now) }
{
    cells.len() == STORE_SIZE
        && row.len() == QUEUE_WORDS
        && snapshot.len() == STORE_SIZE
        && LONGEST_FRAME <= out.len()
        && running::REPLIES_SIZE <= replies.len()
}

// Questions 13 to 15. The visit and the awaited number are compared in 64 bits.
#[tactic(auto, unfolding(crate::specs::Admission::turn_verdict))]
fn turn(state: Desk, frame: &Frame) -> Result<(), Refusal>
    ensures { verdict_of result ≡ turn_verdict state frame.now.words.now }
{
    if frame.addressed() != state.desk {
        return Err(Refusal::OtherDesk);
    }
    let visit = frame.visit();
    if visit as u64 != state.awaited {
        return Err(Refusal::OtherVisit);
    }
    if visit < 4294967295 {
        Ok(())
    } else {
        Err(Refusal::LastVisit)
    }
}

// Questions 10 to 15 of a frame, each before the next.
pub(crate) fn ask_frame<'a>(
    plan: &Plan,
    state: Desk,
    frame: &'a [u32],
) -> Result<Frame<'a>, Refusal>
    ensures verdict { verdict_of result ≡ (frame_verdict (the_plan plan.now).desks frame.now then turn_verdict state frame.now) }
    ensures frame { IfOk result (λ x. x.words.now ≡ frame.now) }
{
    let frame = Frame::read(plan, frame)?;
    turn(state, &frame)?;
    Ok(frame)
}
