// Words of plans and frames in text: how many there are, the words, and their two sums.
use std::fmt;

// As many words as a plan or a frame may have here.
pub(crate) const MOST_WORDS: u32 = 6420;

// The sum of words, and that of the sums from the first word up to each.
pub(crate) fn sums(words: &[u32]) -> (u32, u32) {
    words
        .iter()
        .fold((0, 0), |(first, second): (u32, u32), word| {
            let first = first.wrapping_add(*word);
            (first, second.wrapping_add(first))
        })
}

// How many of some items are not the same as the ones before.
pub(crate) fn count_changed(before: &[u32], after: &[u32]) -> usize {
    let pairs = before.iter().zip(after);
    pairs.filter(|(before, after)| before != after).count()
}

// How many there are of what has this name.
#[derive(Clone, Copy)]
pub(crate) struct Count<'a>(pub usize, pub &'a str);

impl fmt::Display for Count<'_> {
    fn fmt<W: fmt::Write>(&self, f: &mut fmt::Formatter<W>) -> fmt::Result {
        let ending = if self.0 == 1 { "" } else { "s" };
        write!(f, "{} {}{ending}", self.0, self.1)
    }
}

// How many other words changed, if any did.
#[derive(Clone, Copy)]
pub(crate) struct Others(pub usize);

impl fmt::Display for Others {
    fn fmt<W: fmt::Write>(&self, f: &mut fmt::Formatter<W>) -> fmt::Result {
        if self.0 == 0 {
            return Ok(());
        }
        write!(f, "; {} changed", Count(self.0, "other word"))
    }
}

// How many words there are, and they; of more than 16 the two sums of all but the last two, and these.
#[derive(Clone, Copy)]
pub(crate) struct Words<'a>(pub &'a [u32]);

impl fmt::Display for Words<'_> {
    fn fmt<W: fmt::Write>(&self, f: &mut fmt::Formatter<W>) -> fmt::Result {
        let count = self.0.len();
        write!(f, "{}", Count(count, "word"))?;
        match self.0 {
            [] => Ok(()),
            [others @ .., fore, last] if 16 < count => {
                let (first, second) = sums(others);
                write!(
                    f,
                    ", sums {first:08X} {second:08X}, then {fore:08X} {last:08X}"
                )
            }
            words => {
                f.write_str(":")?;
                for word in words {
                    write!(f, " {word:08X}")?;
                }
                Ok(())
            }
        }
    }
}
