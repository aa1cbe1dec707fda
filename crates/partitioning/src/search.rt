// The search over all fillings.
ghost use Rattle.std.specs.Prelude.{◌≡◌, ◌<◌, replicate};
ghost use Rattle.verdict.specs.Verdict.{accepted};
ghost use Rattle.plan.specs.Decode.{open_field};
ghost use Rattle.plan.specs.Admission.{open_plan_verdict};
ghost use Rattle.partitioning.specs.Best.{open_words, filling_count, best_number, cost_by};
ghost use Rattle.partitioning.specs.Touched.{mark_closed};
ghost use Rattle.partitioning.specs.Sets.{sets_of};

use crate::cost;
use crate::touched::Touched;
use word::fields;

// The number of a filling, and its cost.
#[derive(Clone, Copy, Debug, PartialEq, Eq)]
pub(crate) struct Found {
    pub(crate) number: u32,
    pub(crate) cost: u32,
}

// What filling number `number` of so many costs. What the closed transactions touch is the same in all of them.
fn filling_cost(plan: &[u32], closed: Touched, fillings: u32, number: u32) -> u32
    requires { (open_plan_verdict plan.now ≡ accepted) × (sets_of closed ≡ mark_closed open_field plan.now (replicate 96 0))
        × (fillings ≡ filling_count (open_words plan.now)) × (number < fillings) }
    ensures { result ≡ cost_by plan.now number }
{
    let mut touched = closed;
    touched.mark_open(plan, fillings, number);
    let shared = cost::shared_rows(&touched, plan[0] / fields::DESKS % 16);
    cost::plan_cost(plan, &shared)
}

// The first of the fillings that cost least.
#[tactic(auto, using(crate::proofs::Counts::count_pos, crate::proofs::Least::least_next), unfolding(crate::specs::Best::least_at))]
pub(crate) fn search(plan: &[u32], fillings: u32) -> Found
    requires { (open_plan_verdict plan.now ≡ accepted) × (fillings ≡ filling_count (open_words plan.now)) }
    ensures { (result.number ≡ best_number plan.now) × (result.cost ≡ cost_by plan.now result.number) }
{
    let mut closed = Touched::none();
    closed.mark_closed(plan);
    let mut best = Found {
        number: 0,
        cost: filling_cost(plan, closed, fillings, 0),
    };
    for number in 1..fillings {
        let cost = filling_cost(plan, closed, fillings, number);
        if cost < best.cost {
            best = Found { number, cost };
        }
    }
    best
}
