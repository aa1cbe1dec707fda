// The update of a run: the written cells and their values, in step order.
//     Update       at most twelve pairs of a cell and its value
//     new          the update that writes nothing
//     push         one write more, behind the others
//     as_slice     the pairs
ghost use Rattle.std.specs.Prelude.{◌≡◌, ◌≤◌, ◌<◌, [], ◌∷◌, ◌++◌, length};

// The first `count` pairs. What stands behind them is no part of the update.
#[derive(Clone, Copy)]
pub struct Update {
    pub pairs: [(u32, u32); 12],
    pub count: usize,
    ghost few: { count ≤ 12 },
}

impl Update {
    ghost use Rattle.execution.specs.Answer.{update_of};

    pub fn new() -> Self
        ensures { update_of result ≡ [] }
    {
        Update {
            pairs: [(0, 0); 12],
            count: 0,
        }
    }

    pub fn push(&mut self, pair: (u32, u32))
        requires { length (update_of self.old) < 12 }
        ensures { update_of self.new ≡ update_of self.old ++ pair ∷ [] }
    {
        self.pairs[self.count] = pair;
        self.count += 1;
    }

    pub fn as_slice(&self) -> &[(u32, u32)]
        ensures { result.now ≡ update_of self.now }
    {
        &self.pairs[..self.count]
    }
}
