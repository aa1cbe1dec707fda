// The queue of waiting requests, as a lent slice of records and as plain words. These functions alone touch the slice; all else is
// reckoned on the words.
#![tactic(auto)]

mod lent;
mod record;
mod records;
mod waiting;
mod words;

pub use lent::{copied, store_back};
pub use record::{MOST_WAITING, QUEUE_SIZE, Request, params};
pub use records::waiting_records;
pub use waiting::Waiting;
pub use words::{QUEUE_WORDS, insert_in, record_in, words_of};
