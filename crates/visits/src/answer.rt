// What a visit comes to.
use desk::Desk;
use verdict::Refusal;

// How many words the outgoing frame has, and how many replies there are.
#[derive(Clone, Copy, Debug, PartialEq, Eq)]
pub struct Forwarded {
    pub words: usize,
    pub replies: usize,
}

// What was forwarded, or why the visit is refused; and the state after the call.
#[derive(Clone, Copy, Debug, PartialEq, Eq)]
pub struct VisitResult {
    pub answer: Result<Forwarded, Refusal>,
    pub state: Desk,
}
