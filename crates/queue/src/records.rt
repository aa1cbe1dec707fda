// The records that wait in a queue of words, one after another.
// `#[inline(always)]`: these are small and run in inner loops.
ghost use Rattle.std.specs.Prelude.{◌≡◌, ◌≤◌, take};
ghost use Rattle.std.specs.Iterator.{YieldsFirst, item_count};
ghost use Rattle.queue.specs.Queue.{queue_size};
ghost use Rattle.queue.specs.Words.{records_in};
ghost use Rattle.queue.specs.Waiting.{the_waiting};

use crate::record::Request;
use crate::waiting::Waiting;
use crate::words::record_in;

impl<'a> Iterator for Waiting<'a> {
    type Item = Request;

    ghost next_gives = { YieldsFirst the_waiting };

    ghost remaining = { item_count the_waiting };

    #[tactic(auto, using(crate::proofs::WaitingRecords::waiting_here, crate::proofs::WaitingRecords::waiting_past))]
    #[inline(always)]
    fn next(&mut self) -> Option<Request> {
        let at = self.next;
        if self.end <= at {
            return None;
        }
        self.next = at + 1;
        Some(record_in(self.row, at))
    }
}

// The first `count` records of the row, in order.
pub fn waiting_records(row: &[u32], count: usize) -> Waiting<'_>
    requires { count ≤ queue_size }
    ensures { the_waiting result ≡ take count (records_in row.now) }
{
    Waiting {
        row,
        next: 0,
        end: count,
    }
}
