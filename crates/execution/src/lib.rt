// Running an operation on a store, and applying the update of a run.
#![tactic(auto)]

mod execution;
mod outcome;
mod update;

pub use execution::{apply, run};
pub use outcome::{Outcome, Reply};
pub use update::Update;
