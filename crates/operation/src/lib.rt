// Operations: questions 7 and 8, the desk, and the cells and numbers that a step names.
#![tactic(auto)]

mod admission;
mod cells;
mod named;
mod operation;
mod value;

pub use admission::{parameters_pass, transaction_exists};
pub use cells::{STORE_SIZE, cell_named, desk};
pub use named::Cells;
pub use operation::Operation;
pub use value::source_value;
