// The chooser of 02; the field's term is partitioner.
ghost use Rattle.std.specs.Prelude.{◌≡◌};
ghost use Rattle.partitioning.specs.Answer.{answer_of, choose_result, chosen_words};

use crate::{filling, search};
use verdict::Refusal;

// Fills the open fields of the plan, and gives its cost then: questions 1 to 4, then 16.
pub fn choose(plan: &mut [u32]) -> Result<u32, Refusal>
    ensures { (answer_of result ≡ choose_result plan.old) × (plan.new ≡ chosen_words plan.old) }
{
    plan::read_open_plan(plan)?;
    if filling::MOST_OPEN < filling::open_count(plan) {
        return Err(Refusal::ManyOpenFields);
    }
    let fillings = filling::filling_count(plan);
    let found = search::search(plan, fillings);
    filling::fill(plan, fillings, found.number);
    Ok(found.cost)
}
