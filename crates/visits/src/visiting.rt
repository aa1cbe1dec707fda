// A visit of the token at a desk, on the queue as plain words.
//     opened_visit       the visit behind questions 1 to 6 and 17
//     planned_visit      questions 5 and 6, and the visit: without a table of masks where none waits
//     visit_on_words     the visit
ghost use Rattle.std.specs.Prelude.{◌≡◌, ◌&&◌, IfOk, IfSome, is_some, ltb};
ghost use Rattle.verdict.specs.Verdict.{ask, ◌then◌, verdict_of};
ghost use Rattle.plan.specs.Accepted.{the_plan};
ghost use Rattle.plan.specs.Admission.{plan_verdict};
ghost use Rattle.queue.specs.Words.{queue_in};
ghost use Rattle.desk.specs.Admission.{desk_buffers_fit, desk_fits};
ghost use Rattle.desk.specs.Holding.{holding};
ghost use Rattle.visits.specs.Admission.{visit_buffers_fit};
ghost use Rattle.visits.specs.Visit.{visit_result};
ghost use Rattle.visits.specs.Answer.{visited_of};

use crate::answer::VisitResult;
use crate::{accepted, asking, snapshot};
use conflict::MaskTable;
use desk::Desk;
use plan::Plan;
use verdict::Refusal;

// The visit behind questions 1 to 6 and 17. Just where requests wait it is handed the table of masks by which 6 is answered.
fn opened_visit(
    plan: &Plan,
    opened: Result<Option<&MaskTable>, Refusal>,
    state: Desk,
    cells: &mut [u32],
    snapshot: &mut [u32],
    row: &[u32],
    frame: &[u32],
    out: &mut [u32],
    replies: &mut [u32],
) -> VisitResult
    requires verdict { verdict_of opened ≡ (plan_verdict plan.now.words.now
        then ask 5 (desk_buffers_fit cells.old (queue_in row.now) && visit_buffers_fit snapshot.old out.old replies.old)
        then ask 6 (desk_fits (the_plan plan.now) state (queue_in row.now))) }
    requires masks { IfOk opened (λ m. IfSome m (λ t. t.now.plan.words.now ≡ plan.now.words.now)) }
    requires filled { IfOk opened (λ m. is_some m ≡ ltb 0 state.waiting) }
    ensures { visited_of result cells.new snapshot.new out.new replies.new
        ≡ visit_result plan.now.words.now (holding state cells.old (queue_in row.now)) snapshot.old
        frame.now out.old replies.old }
{
    match opened {
        Ok(masks) => match asking::ask_frame(plan, state, frame) {
            Ok(read) => {
                snapshot::take_snapshot(plan, state.waiting, masks, cells, snapshot);
                accepted::accepted_visit(plan, &read, state, cells, row, out, replies)
            }
            Err(refusal) => VisitResult {
                answer: Err(refusal),
                state,
            },
        },
        Err(refusal) => VisitResult {
            answer: Err(refusal),
            state,
        },
    }
}

// The visit behind questions 1 to 4 and 17. Where none waits question 6 is of the state alone, and no table of masks is handed on.
#[tactic(auto, using(crate::proofs::Rows::row_fits, desk::proofs::QuestionSix::state_alone))]
fn planned_visit(
    plan: &Plan,
    state: Desk,
    cells: &mut [u32],
    snapshot: &mut [u32],
    row: &[u32],
    frame: &[u32],
    out: &mut [u32],
    replies: &mut [u32],
) -> VisitResult
    ensures { visited_of result cells.new snapshot.new out.new replies.new
        ≡ visit_result plan.now.words.now (holding state cells.old (queue_in row.now)) snapshot.old
        frame.now out.old replies.old }
{
    if !asking::buffers_fit(cells, snapshot, row, out, replies) {
        let no = Err(Refusal::WrongSize);
        return opened_visit(plan, no, state, cells, snapshot, row, frame, out, replies);
    }
    if state.waiting == 0 {
        if let Err(refusal) = desk::state_fits(plan, state) {
            let no = Err(refusal);
            return opened_visit(plan, no, state, cells, snapshot, row, frame, out, replies);
        }
        let none = Ok(None);
        return opened_visit(plan, none, state, cells, snapshot, row, frame, out, replies);
    }
    match desk::desk_fits(plan, state, row) {
        Ok(masks) => {
            let with = Ok(masks.as_ref());
            opened_visit(plan, with, state, cells, snapshot, row, frame, out, replies)
        }
        Err(refusal) => {
            let no = Err(refusal);
            opened_visit(plan, no, state, cells, snapshot, row, frame, out, replies)
        }
    }
}

// The visit. Words of any other number than 192 are no queue of 32 records, and are refused with 5 in its turn. Nothing is written before
// the last question, and the queue is only read.
pub fn visit_on_words(
    words: &[u32],
    state: Desk,
    cells: &mut [u32],
    snapshot: &mut [u32],
    row: &[u32],
    frame: &[u32],
    out: &mut [u32],
    replies: &mut [u32],
) -> VisitResult
    ensures { visited_of result cells.new snapshot.new out.new replies.new
        ≡ visit_result words.now (holding state cells.old (queue_in row.now)) snapshot.old
        frame.now out.old replies.old }
{
    match Plan::read(words) {
        Ok(plan) => planned_visit(&plan, state, cells, snapshot, row, frame, out, replies),
        Err(refusal) => VisitResult {
            answer: Err(refusal),
            state,
        },
    }
}
