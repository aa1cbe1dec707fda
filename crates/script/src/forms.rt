// The forms in which a line writes words of plans and frames.
ghost use Rattle.script.specs.Line.{GivesNothingBack};

use crate::fault::{Fault, Problem};
use crate::held::Held;
use crate::line;
use crate::line::Line;
use crate::words::MOST_WORDS;

// One form of the language: words more, or a change to the words before it.
#[derive(Clone, Copy)]
pub(crate) enum Form {
    One(u32),
    Repeated { count: usize, period: usize },
    Word { place: usize, word: u32 },
    Cut(usize),
    Sums,
    Seal,
    Words,
    Same,
    Frame(u32),
}

// `403/13` behind the `*`; `11` is `11/1`.
fn read_repeated(line: &Line, numbers: &[u8]) -> Result<Form, Fault> {
    let mut parts = numbers.splitn(2, |byte| *byte == b'/');
    let count = parts.next().unwrap_or(&[]);
    let period = parts.next().unwrap_or(b"1");
    let numbers = line::decimal(count, MOST_WORDS).zip(line::decimal(period, MOST_WORDS));
    let most = u64::from(MOST_WORDS);
    let (count, period) = numbers.ok_or(line.fault(Problem::NoNumber { most }))?;
    Ok(Form::Repeated {
        count: count as usize,
        period: period as usize,
    })
}

// `2 A1100000`, where there are so many words.
fn read_changed(line: &mut Line, words: usize) -> Result<Form, Fault>
    ensures { GivesNothingBack line.old line.new }
{
    let place = line.number(MOST_WORDS)? as usize;
    line.demand(place < words, Problem::NoSuchWords)?;
    let word = line.word_or_empty();
    let word = line.hexadecimal(word)?;
    Ok(Form::Word { place, word })
}

impl Form {
    // The form that a word of a line begins, where there are so many words before it.
    pub(crate) fn read(
        name: &[u8],
        line: &mut Line,
        words: usize,
        held: &Held,
    ) -> Result<Form, Fault>
        ensures { GivesNothingBack line.old line.new }
    {
        match name {
            b"word" => read_changed(line, words),
            b"cut" => Ok(Form::Cut(line.number(MOST_WORDS)? as usize)),
            b"sums" => Ok(Form::Sums),
            b"seal" => Ok(Form::Seal),
            b"words" => Ok(Form::Words),
            b"same" => Ok(Form::Same),
            b"frame" => Ok(Form::Frame(held.read_kept(line)?)),
            [b'*', numbers @ ..] => read_repeated(line, numbers),
            word => Ok(Form::One(line.hexadecimal(word)?)),
        }
    }

    // Whether the words that it speaks of are there, where so many stand before it.
    pub(crate) fn finds_words(self, words: usize) -> bool {
        match self {
            Form::Repeated { count: 0, .. } => true,
            Form::Repeated { period, .. } => 1 <= period && period <= words,
            Form::Cut(count) => count <= words,
            Form::Sums => 2 <= words,
            _ => true,
        }
    }

    // How many words it puts behind the others.
    pub(crate) fn added_words(self) -> usize {
        match self {
            Form::One(_) => 1,
            Form::Repeated { count, .. } => count,
            Form::Seal => 2,
            _ => 0,
        }
    }
}
