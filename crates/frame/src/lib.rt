// Frames: the words of one, the two sums, and reading it (questions 10 to 12).
#![tactic(auto)]

mod accepted_frame;
mod reader;
mod sums;
mod updates;

pub use accepted_frame::Frame;
pub use reader::{LEAST_FRAME, LONGEST_FRAME, check_frame, frame_visit, read_frame};
pub use sums::frame_sums;
