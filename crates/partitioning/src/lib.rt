// Choosing the partitioning: open fields of a plan are filled so that the transactions with global operations weigh least.
#![tactic(auto)]

mod choice;
mod cost;
mod filling;
mod search;
mod touched;

pub use choice::choose;
