// The plan reader: questions 1 to 4, all of one before the next, and then 17.
//     read_plan         the plan reader
//     read_open_plan    questions 1 to 4 alone, for plans with open fields
ghost use Rattle.std.specs.Prelude.{◌≡◌, ◌&&◌, ◌≤◌, length, get_or, drop, ltb};
ghost use Rattle.verdict.specs.Verdict.{verdict_of};
ghost use Rattle.plan.specs.Admission.{open_plan_verdict, plan_verdict, transactions_verdict, transaction_formed, step_fits, most_tells};

use crate::{form, open};
use verdict::Refusal;
use word::fields;

// Questions 1 to 4, then 17: whether a field is open.
#[tactic(auto, using(crate::proofs::OpenWords::open_found), unfolding(crate::specs::Admission::plan_verdict))]
pub fn read_plan(plan: &[u32]) -> Result<(), Refusal>
    ensures { verdict_of result ≡ plan_verdict plan.now }
{
    read_open_plan(plan)?;
    if open::has_open(plan) {
        return Err(Refusal::OpenField);
    }
    Ok(())
}

// Questions 1 to 4.
pub fn read_open_plan(plan: &[u32]) -> Result<(), Refusal>
    ensures { verdict_of result ≡ open_plan_verdict plan.now }
{
    let words = plan.len();
    if words < 1 {
        return Err(Refusal::NoPlan);
    }
    if 417 < words {
        return Err(Refusal::NoPlan);
    }
    let head = plan[0];
    if head / fields::KIND != 1 {
        return Err(Refusal::NoPlan);
    }
    if (head % 0x1_0000) as usize != words {
        return Err(Refusal::NoPlan);
    }
    if !form::counts_in_range(head) {
        return Err(Refusal::CountOutOfRange);
    }
    read_transactions(plan, head / fields::TRANSACTIONS % 256)
}

// Questions 3 and 4 of the words behind the head. The first form fault leaves both loops.
fn read_transactions(plan: &[u32], transactions: u32) -> Result<(), Refusal>
    ensures { verdict_of result ≡ transactions_verdict transactions (drop 1 plan.now) }
{
    let mut at: usize = 1;
    let mut t: u32 = 0;
    let mut missing = false;
    // No `for`: behind the loop `t` tells whether a fault ended it.
    'transactions: while t < transactions {
        if !transaction_at(plan, at) {
            break 'transactions;
        }
        let word = plan[at];
        let parameters = word / fields::PARAMETERS % 16;
        let steps = word / fields::STEPS % 16;
        missing = form::partitioning_missing(word, missing);
        at += 1;
        let mut tells: usize = 0;
        for s in 0..steps {
            if !step_at(plan, at, tells) {
                break 'transactions;
            }
            let step = plan[at];
            tells = form::tells_with(step, tells);
            missing = form::step_missing(step, parameters, missing);
            at += 1;
        }
        t += 1;
    }
    if t < transactions {
        return Err(Refusal::MalformedWord);
    }
    if at < plan.len() {
        return Err(Refusal::MalformedWord);
    }
    if missing {
        return Err(Refusal::MissingParameter);
    }
    Ok(())
}

// Whether a well-formed transaction's word stands at this place.
fn transaction_at(plan: &[u32], at: usize) -> bool
    ensures { result ≡ (ltb at (length plan.now) && transaction_formed (get_or plan.now at 0)) }
{
    if at < plan.len() {
        form::transaction_formed(plan[at])
    } else {
        false
    }
}

// Whether a well-formed step's word stands at this place, and is no fifth that tells.
fn step_at(plan: &[u32], at: usize, tells: usize) -> bool
    requires { tells ≤ most_tells }
    ensures { result ≡ (ltb at (length plan.now) && step_fits tells (get_or plan.now at 0)) }
{
    if plan.len() <= at {
        return false;
    }
    let word = plan[at];
    if !form::step_formed(word) {
        return false;
    }
    form::tells_with(word, tells) <= form::MOST_TELLS
}
