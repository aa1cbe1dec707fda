// The words of a line, from left to right. No function gives back what was taken, so a loop over the words of a line ends.
ghost use Rattle.std.specs.Prelude.{◌<◌, ◌≤◌, length, OnSome};
ghost use Rattle.script.specs.Line.{GivesNothingBack};

use crate::fault::{Fault, Problem};

// What is left of a line, and the number of the word that was looked at last, counted from 1.
#[derive(Clone, Copy, Debug)]
pub(crate) struct Line<'a> {
    rest: &'a [u8],
    word: u32,
}

// The number that a word writes in a radix, if it has digits alone and is not above 64 bits.
fn number_in(word: &[u8], radix: u32) -> Option<u64>
    requires low { 2 ≤ radix }
    requires high { radix ≤ 36 }
{
    if word.is_empty() {
        return None;
    }
    let mut number: u64 = 0;
    for byte in word {
        let digit = char::from(*byte).to_digit(radix)?;
        number = number
            .checked_mul(u64::from(radix))?
            .checked_add(u64::from(digit))?;
    }
    Some(number)
}

// The decimal number that a word writes, if it is one up to a bound.
pub(crate) fn decimal(word: &[u8], most: u32) -> Option<u32> {
    let number = u32::try_from(number_in(word, 10)?).ok()?;
    (number <= most).then_some(number)
}

impl<'a> Line<'a> {
    pub(crate) fn new(text: &'a [u8]) -> Line<'a> {
        Line {
            rest: text,
            word: 0,
        }
    }

    // The line from its next word on; nothing where there is none, or where it begins a comment.
    fn upcoming(&self) -> &'a [u8]
        ensures { length result.now ≤ length self.now.rest.now }
    {
        let rest = self.rest;
        let begin = rest.iter().position(|byte| *byte > b' ');
        let (_, rest) = rest.split_at(begin.unwrap_or(rest.len()));
        if rest.starts_with(b"#") { &[] } else { rest }
    }

    pub(crate) fn has_more(&self) -> bool {
        !self.upcoming().is_empty()
    }

    // The next word, if there is one.
    pub(crate) fn next_word(&mut self) -> Option<&'a [u8]>
        ensures within { GivesNothingBack self.old self.new }
        ensures shorter { OnSome result (length self.new.rest.now < length self.old.rest.now) }
    {
        let rest = self.upcoming();
        let end = rest.iter().position(|byte| *byte <= b' ');
        let (word, rest) = rest.split_at(end.unwrap_or(rest.len()));
        self.rest = rest;
        self.word = self.word.wrapping_add(1);
        if word.is_empty() { None } else { Some(word) }
    }

    // The next word, empty where there is none.
    pub(crate) fn word_or_empty(&mut self) -> &'a [u8]
        ensures { GivesNothingBack self.old self.new }
    {
        self.next_word().unwrap_or(&[])
    }

    // All that stands behind the last word and one byte.
    pub(crate) fn text_behind(&self) -> &'a [u8] {
        self.rest.get(1..).unwrap_or(&[])
    }

    // A problem at the last word.
    pub(crate) fn fault(&self, problem: Problem) -> Fault {
        Fault {
            word: self.word,
            problem,
        }
    }

    // A problem at the last word, unless something holds.
    pub(crate) fn demand(&self, holds: bool, problem: Problem) -> Result<(), Fault> {
        if holds {
            Ok(())
        } else {
            Err(self.fault(problem))
        }
    }

    // The next word is this name, or else this is the problem.
    pub(crate) fn expect(&mut self, name: &[u8], problem: Problem) -> Result<(), Fault>
        ensures { GivesNothingBack self.old self.new }
    {
        let is_there = self.word_or_empty() == name;
        self.demand(is_there, problem)
    }

    // The next word is a number up to a bound.
    pub(crate) fn number(&mut self, most: u32) -> Result<u32, Fault>
        ensures { GivesNothingBack self.old self.new }
    {
        let number = decimal(self.word_or_empty(), most);
        let most = u64::from(most);
        number.ok_or(self.fault(Problem::NoNumber { most }))
    }

    // The next word is a number of 64 bits.
    pub(crate) fn long_number(&mut self) -> Result<u64, Fault> {
        let number = number_in(self.word_or_empty(), 10);
        number.ok_or(self.fault(Problem::NoNumber { most: u64::MAX }))
    }

    // The last word, if it is a word of a plan or a frame: 1 to 8 hexadecimal digits.
    pub(crate) fn hexadecimal(&self, word: &[u8]) -> Result<u32, Fault> {
        let number = number_in(word, 16).and_then(|number| u32::try_from(number).ok());
        number
            .filter(|_| word.len() <= 8)
            .ok_or(self.fault(Problem::NoWord))
    }

    // Nothing stands behind the last word.
    pub(crate) fn close(&mut self) -> Result<(), Fault> {
        let is_empty = self.next_word().is_none();
        self.demand(is_empty, Problem::TooMuch)
    }
}
