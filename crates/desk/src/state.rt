// The state of a desk, and the new desk call.
ghost use Rattle.std.specs.Prelude.{◌≡◌};
ghost use Rattle.desk.specs.Answer.{opened_of, new_desk_result};

use plan::Plan;
use verdict::Refusal;

// Which desk it is, how many requests wait, and the number of the visit that it awaits, which can pass a word.
#[derive(Clone, Copy, Debug, PartialEq, Eq)]
pub struct Desk {
    pub desk: u32,
    pub waiting: u32,
    pub awaited: u64,
}

// A new desk: the verdict on the plan, and question 6 for its desk. It awaits its own number, with none waiting.
#[tactic(auto, unfolding(crate::specs::Answer::new_desk_result))]
pub fn new_desk(words: &[u32], desk: u32) -> Result<Desk, Refusal>
    ensures { opened_of result ≡ new_desk_result words.now desk }
{
    let plan = Plan::read(words)?;
    if plan.desks() <= desk {
        return Err(Refusal::MisfitState);
    }
    Ok(Desk {
        desk,
        waiting: 0,
        awaited: desk as u64,
    })
}
