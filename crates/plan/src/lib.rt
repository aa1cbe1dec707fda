// Plans: the plan reader (questions 1 to 4, and 17), and where a transaction and its steps stand.
#![tactic(auto)]

mod accepted_plan;
mod fields;
mod form;
mod open;
mod partitioning;
mod place;
mod reader;
mod step;
mod transaction;
mod transactions;

pub use accepted_plan::Plan;
pub use form::{MOST_TELLS, OPEN, UNPARTITIONED, names_no_parameter};
pub use open::is_open;
pub use partitioning::Partitioning;
pub use place::{step_count, step_word, transaction_place, transaction_places, word_at};
pub use reader::{read_open_plan, read_plan};
pub use step::{Access, Action, Source, Step};
pub use transaction::Transaction;
pub use transactions::{Steps, Transactions};
