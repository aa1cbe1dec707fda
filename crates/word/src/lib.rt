// Words of plans and frames: where each field begins, and the bits that must be zero.
#![tactic(auto)]

pub mod fields;
mod reserved;

pub use reserved::{reserved_zero, source};
