// A request at a desk: where its operation goes, what the request comes to, and the call on a queue of lent words.
#![tactic(auto)]

mod answer;
mod asking;
mod route;
mod words;

pub use answer::{RequestAnswer, RequestResult, RequestStep};
pub use asking::{record_of, request_step};
pub use words::request_on_words;
