// The lent queue: one record read, one record stored, the records that wait as plain words, and records of words stored back.
ghost use Rattle.std.specs.Prelude.{◌≡◌, min, set};
ghost use Rattle.queue.specs.Queue.{record_at, queue_size};
ghost use Rattle.queue.specs.Words.{stored_first, stored_back};

use crate::record::{MOST_WAITING, Request};
use crate::words::{QUEUE_WORDS, record_in, store_in};

// The record at a place; past the end the one of zeros.
pub fn load(queue: &[Request], at: usize) -> Request
    ensures { result ≡ record_at queue.now at }
{
    queue.get(at).copied().unwrap_or_default()
}

// Stores a record at a place; past the end nothing changes.
pub fn store(queue: &mut [Request], at: usize, request: Request)
    ensures { queue.new ≡ set queue.old at request }
{
    // No `get_mut`: of a slice written through it a proof knows the length alone.
    if at < queue.len() {
        queue[at] = request;
    }
}

// How many records wait in a queue of 32, whatever number is said to wait.
pub fn bounded_waiting(waiting: u32) -> usize
    ensures { result ≡ min waiting queue_size }
{
    waiting.min(MOST_WAITING) as usize
}

// The words of the records that wait, and zeros behind them. The other records are not read.
#[tactic(auto, using(crate::proofs::Copying::copying))]
pub fn copied(queue: &[Request], waiting: u32) -> [u32; QUEUE_WORDS]
    ensures { result ≡ stored_first waiting queue.now }
{
    let mut row = [0; QUEUE_WORDS];
    for at in 0..bounded_waiting(waiting) {
        store_in(&mut row, at, load(queue, at));
    }
    row
}

// Stores the records of these words at the places from `from` up to `end` back into the queue; at no place past the 32nd.
#[tactic(auto, using(crate::proofs::StoringBack::storing_back))]
pub fn store_back(queue: &mut [Request], row: [u32; QUEUE_WORDS], from: usize, end: u32)
    ensures { queue.new ≡ stored_back queue.old row from end }
{
    for at in from..bounded_waiting(end) {
        store(queue, at, record_in(&row, at));
    }
}
