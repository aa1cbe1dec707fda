// The queue as plain words, six a record: one record read, one stored, one put in before others, and how many words a queue of some
// length has.
// `#[inline(always)]`: these are small and run in inner loops.
ghost use Rattle.std.specs.Prelude.{◌≡◌, ◌<◌, ◌+◌, ◌≤◌, length, get_or, take};
ghost use Rattle.std.specs.List.{insert};
ghost use Rattle.lists.specs.Lists.{overwritten};
ghost use Rattle.queue.specs.Queue.{queue_size};
ghost use Rattle.queue.specs.Words.{record_in, records_in, words_of, over_record, stored_in, record_size, queue_words};

use crate::record::{QUEUE_SIZE, Request};

// The words of a record, and of a queue.
const RECORD_SIZE: usize = 6;

pub const QUEUE_WORDS: usize = RECORD_SIZE * QUEUE_SIZE;

// The record at a place; words past the end are read as 0.
#[inline(always)]
pub fn record_in(row: &[u32], at: usize) -> Request
    requires { at < queue_size }
    ensures { result ≡ record_in row.now at }
{
    let first = at * RECORD_SIZE;
    let word = |k: usize| row.get(first + k).copied().unwrap_or(0);
    Request {
        client: word(0),
        transaction: word(1),
        p0: word(2),
        p1: word(3),
        p2: word(4),
        p3: word(5),
    }
}

// The words of a queue of this length: 192 of 32 records, and none of any other.
pub fn words_of(size: usize) -> usize
    ensures { result ≡ words_of size }
{
    if size == QUEUE_SIZE { QUEUE_WORDS } else { 0 }
}

// Writes the six words of a record from word i on.
#[tactic(auto, using(crate::proofs::Rows::words_stored))]
fn write_record(row: &mut [u32], i: usize, request: Request)
    requires record_size_bound { i + record_size ≤ queue_words }
    requires row_len { length row.old ≡ queue_words }
    ensures { row.new ≡ over_record row.old i request }
{
    let words = [
        request.client,
        request.transaction,
        request.p0,
        request.p1,
        request.p2,
        request.p3,
    ];
    row[i..i + RECORD_SIZE].copy_from_slice(&words);
}

// Stores a record at a place of a row; past its end, or in what is no row, nothing changes.
#[tactic(auto, unfolding(crate::specs::Words::stored_in))]
pub fn store_in(row: &mut [u32], at: usize, request: Request)
    ensures { row.new ≡ stored_in row.old at request }
{
    if row.len() == QUEUE_WORDS && at < QUEUE_SIZE {
        write_record(row, at * RECORD_SIZE, request);
    }
}

// Puts a record in at a place of a row: those from there up to place `waiting` move up by one, and the record at place `waiting` is
// overwritten.
#[tactic(auto, using(crate::proofs::Inserting::inserted_record))]
pub fn insert_in(row: &mut [u32], place: usize, waiting: usize, request: Request)
    requires { (place ≤ waiting) × (waiting < queue_size) × (length row.old ≡ queue_words) }
    ensures { records_in row.new ≡ overwritten (insert (take waiting (records_in row.old)) place request)
        (records_in row.old) }
{
    row.copy_within(
        place * RECORD_SIZE..waiting * RECORD_SIZE,
        (place + 1) * RECORD_SIZE,
    );
    store_in(row, place, request);
}
