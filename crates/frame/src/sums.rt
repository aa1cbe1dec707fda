// The two sums of a frame.
ghost use Rattle.std.specs.Prelude.{◌≡◌, ◌+◌, ◌%◌, ◌^◌};
ghost use Rattle.frame.specs.Frame.{sums_of};

#[derive(Clone, Copy, Debug, Default, PartialEq, Eq)]
pub struct Sums {
    pub first: u32,
    pub second: u32,
}

impl Sums {
    // Both with one word more: the first adds the word, the second adds the first after it.
    fn with(self, word: u32) -> Sums
        ensures { (result.first ≡ (self.first + word) % 2 ^ 32) × (result.second ≡ (self.second + result.first) % 2 ^ 32) }
    {
        let first = self.first.wrapping_add(word);
        let second = self.second.wrapping_add(first);
        Sums { first, second }
    }
}

// Both sums over all the words.
pub fn frame_sums(words: &[u32]) -> Sums
    ensures { (result.first, result.second) ≡ sums_of words.now }
{
    words
        .iter()
        .fold(Sums::default(), |sums, word| sums.with(*word))
}
