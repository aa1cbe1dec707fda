// Where a transaction and its steps stand among the words of a plan.
//     word_at                                    the word at a place
//     step_count, step_word, steps               the steps of the transaction at a place
//     transaction_place, transaction_places      the place of one transaction, and those of all
// `#[inline(always)]`: these are small and run in inner loops.
ghost use Rattle.std.specs.Prelude.{◌≡◌, ◌<◌, get_or};
ghost use Rattle.verdict.specs.Verdict.{accepted};
ghost use Rattle.plan.specs.Admission.{plan_verdict};
ghost use Rattle.plan.specs.Place.{transaction_place, transaction_places, StandsAt, steps_at, step_word, step_words};

use word::fields;

// The word at a place, 0 past the end.
pub fn word_at(plan: &[u32], at: usize) -> u32
    ensures { result ≡ get_or plan.now at 0 }
{
    plan.get(at).copied().unwrap_or(0)
}

// How many steps the transaction at this place has.
#[inline(always)]
pub fn step_count(plan: &[u32], at: usize) -> usize
    requires { StandsAt plan.now at }
    ensures { result ≡ steps_at plan.now at }
{
    (plan[at] / fields::STEPS % 16) as usize
}

// The word of its step s.
pub fn step_word(plan: &[u32], at: usize, s: usize) -> u32
    requires { StandsAt plan.now at × (s < steps_at plan.now at) }
    ensures { result ≡ step_word plan.now at s }
{
    plan[at + 1 + s]
}

// The words of its steps.
#[inline(always)]
pub(crate) fn steps(plan: &[u32], at: usize) -> &[u32]
    requires { StandsAt plan.now at }
    ensures { result.now ≡ step_words plan.now at }
{
    let first = at + 1;
    &plan[first..first + step_count(plan, at)]
}

// The place of transaction k.
pub fn transaction_place(plan: &[u32], k: u32) -> usize
    ensures { result ≡ transaction_place plan.now k }
{
    let mut at: usize = 1;
    for i in 0..k {
        let word = word_at(plan, at);
        at = at + 1 + (word / fields::STEPS % 16) as usize;
    }
    at
}

// The places of the plan's transactions, by their number. The plan is walked once.
pub fn transaction_places(plan: &[u32]) -> [usize; 32]
    requires { plan_verdict plan.now ≡ accepted }
    ensures { result ≡ transaction_places plan.now }
{
    let mut places = [0usize; 32];
    let transactions = (plan[0] / fields::TRANSACTIONS % 256) as usize;
    let mut at: usize = 1;
    for k in 0..transactions {
        places[k] = at;
        at = at + 1 + step_count(plan, at);
    }
    places
}
