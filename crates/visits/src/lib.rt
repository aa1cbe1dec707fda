// A visit of the token: its questions, the snapshot, the waiting requests' runs, and the frame that is sent on. The queue is lent as plain
// words.
#![tactic(auto)]

mod accepted;
mod answer;
mod asking;
mod running;
mod snapshot;
mod visiting;

pub use answer::{Forwarded, VisitResult};
pub use visiting::visit_on_words;
