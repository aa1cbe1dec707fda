// The engine: all nine calls of the papers, every type that a program needs, and where the fields of words begin. The calls that take the
// queue stand twice, on a lent slice of records and on plain words.
#![tactic(auto)]

mod engine;

pub use conflict::{Cause, Class, classify};
pub use desk::{Desk, new_desk};
pub use engine::{request, visit};
pub use execution::Reply;
pub use frame::{frame_visit, read_frame};
pub use partitioning::choose;
pub use plan::read_plan;
pub use queue::Request;
pub use requests::{RequestAnswer, RequestResult, request_on_words};
pub use token::starting_frame;
pub use verdict::Refusal;
pub use visits::{Forwarded, VisitResult, visit_on_words};
pub use word::fields;
