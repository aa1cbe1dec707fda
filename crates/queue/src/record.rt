// A waiting record: the client's word, the transaction and four parameters.
ghost use Rattle.std.specs.Prelude.{◌≡◌};
ghost use Rattle.queue.specs.Queue.{params_of};

// The records of a queue, and as many as may wait.
pub const QUEUE_SIZE: usize = 32;

pub const MOST_WAITING: u32 = QUEUE_SIZE as u32;

// The default one is of zeros, which stands for none.
#[derive(Clone, Copy, Debug, Default, PartialEq, Eq)]
pub struct Request {
    pub client: u32,
    pub transaction: u32,
    pub p0: u32,
    pub p1: u32,
    pub p2: u32,
    pub p3: u32,
}

// The four parameters, in order.
pub fn params(request: Request) -> [u32; 4]
    ensures { result ≡ params_of request }
{
    [request.p0, request.p1, request.p2, request.p3]
}
