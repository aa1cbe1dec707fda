// The token, the frame that goes round: the others' updates sent on, a desk's own written, the seal, and the starting frame.
#![tactic(auto)]

mod forward;
mod writer;

pub use forward::forward_foreign;
pub use writer::{seal, starting_frame, write_update};
