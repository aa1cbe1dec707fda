// Question 6: whether the state and the waiting records are those of a desk of the plan.
//     waits_here, all_wait_here     of one record; of those that wait
//     state_fits                    question 6 of the state alone
//     desk_fits                     question 6
// `#[inline(always)]`: it is small and runs in an inner loop.
ghost use Rattle.std.specs.Prelude.{◌≡◌, ◌≤◌, IfOk, IfSome, is_some, ltb};
ghost use Rattle.verdict.specs.Verdict.{ask, verdict_of};
ghost use Rattle.std.specs.List.{list_all};
ghost use Rattle.plan.specs.Accepted.{the_plan};
ghost use Rattle.queue.specs.Queue.{queue_size};
ghost use Rattle.queue.specs.Words.{records_in};
ghost use Rattle.desk.specs.Queueing.{waiting_in};
ghost use Rattle.desk.specs.Admission.{waits_here, state_fits, desk_fits};

use crate::state::Desk;
use crate::{admitted, urgent};
use conflict::MaskTable;
use plan::Plan;
use queue::{QUEUE_SIZE, Request};
use verdict::Refusal;

// Whether the record is a global operation of this desk.
#[tactic(auto, using(crate::proofs::Asked::asked_class, crate::proofs::Asked::asked_desk), unfolding(crate::specs::Admission::waits_here))]
#[inline(always)]
fn waits_here(masks: &MaskTable, desk: u32, request: Request) -> bool
    ensures { result ≡ waits_here (the_plan masks.now.plan) desk request }
{
    let Ok(operation) = admitted::admit(&masks.plan, request) else {
        return false;
    };
    masks.is_global(&operation) && operation.desk(&masks.plan) == desk
}

// Whether each of the first `waiting` records is.
fn all_wait_here(masks: &MaskTable, desk: u32, waiting: usize, row: &[u32]) -> bool
    requires { waiting ≤ queue_size }
    ensures { result ≡ list_all (waits_here (the_plan masks.now.plan) desk) (waiting_in waiting (records_in row.now)) }
{
    queue::waiting_records(row, waiting).all(|request| waits_here(masks, desk, request))
}

// Question 6 of the state, which is all of it where none waits: the desk, how many wait, and the awaited number.
pub fn state_fits(plan: &Plan, state: Desk) -> Result<(), Refusal>
    ensures { verdict_of result ≡ ask 6 (state_fits (the_plan plan.now) state) }
{
    let desks = plan.desks();
    let waiting = state.waiting as usize;
    if desks <= state.desk {
        return Err(Refusal::MisfitState);
    }
    if QUEUE_SIZE < waiting {
        return Err(Refusal::MisfitState);
    }
    if state.awaited % desks as u64 != state.desk as u64 {
        return Err(Refusal::MisfitState);
    }
    Ok(())
}

// Question 6, of a row of words. Just where requests wait it hands on the table of masks that it was answered by.
pub fn desk_fits<'a>(
    plan: &Plan<'a>,
    state: Desk,
    row: &[u32],
) -> Result<Option<MaskTable<'a>>, Refusal>
    ensures verdict { verdict_of result ≡ ask 6 (desk_fits (the_plan plan.now) state (records_in row.now)) }
    ensures masks { IfOk result (λ m. IfSome m (λ t. t.plan.words.now ≡ plan.now.words.now)) }
    ensures filled { IfOk result (λ m. is_some m ≡ ltb 0 state.waiting) }
{
    state_fits(plan, state)?;
    let waiting = state.waiting as usize;
    if waiting == 0 {
        return Ok(None);
    }
    let masks = MaskTable::fill(*plan);
    if !all_wait_here(&masks, state.desk, waiting, row) {
        return Err(Refusal::MisfitState);
    }
    if !urgent::urgent_lead(plan, waiting, row) {
        return Err(Refusal::MisfitState);
    }
    Ok(Some(masks))
}
