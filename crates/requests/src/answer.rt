// What a request comes to.
use desk::Desk;
use execution::Reply;
use verdict::Refusal;

// Replied (done or declined, with the number and the told ones), waiting, or elsewhere with the operation's desk.
#[derive(Clone, Copy, Debug, PartialEq, Eq)]
pub enum RequestAnswer {
    Replied(Reply),
    Waits,
    Elsewhere(u32),
}

// The answer, or why the request is refused; and the state after the call.
#[derive(Clone, Copy, Debug, PartialEq, Eq)]
pub struct RequestResult {
    pub answer: Result<RequestAnswer, Refusal>,
    pub state: Desk,
}

// The result, and the place from which on the records have changed, up to the last that waits then: where none has, the place behind those
// that wait.
#[derive(Clone, Copy, Debug, PartialEq, Eq)]
pub struct RequestStep {
    pub result: RequestResult,
    pub from: usize,
}
