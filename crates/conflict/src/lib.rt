// Conflicts between operations: the masks of desks by cell, which cells are shared, what makes an operation global, and the classifier.
#![tactic(auto)]

mod cause;
mod class;
mod mask;
mod mask_table;
mod row;
mod shared;
mod written;

pub use cause::Cause;
pub use class::{Class, classify, has_write, is_free, is_global};
pub use mask::fill_masks;
pub use mask_table::MaskTable;
pub use shared::is_shared;
