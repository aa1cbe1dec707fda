// The first records of a queue of words, those that are left.
ghost use Rattle.std.specs.Prelude.{◌≤◌};
ghost use Rattle.queue.specs.Queue.{queue_size};

#[derive(Clone, Copy)]
pub struct Waiting<'a> {
    pub row: &'a [u32],
    pub next: usize,
    pub end: usize,
    ghost few: { end ≤ queue_size },
}
