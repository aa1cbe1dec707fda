// A desk: its state and the new desk call, question 6, the order of those that wait, and the operation that a request asks for.
#![tactic(auto)]

mod admitted;
mod check;
mod state;
mod urgent;

pub use admitted::{admit, admitted_operation, run_operation};
pub use check::{desk_fits, state_fits};
pub use state::{Desk, new_desk};
pub use urgent::join_place;
