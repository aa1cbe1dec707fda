// Words of a plan or a frame, as they are gathered from the forms of a line.
use crate::fault::{LineError, Problem};
use crate::forms::Form;
use crate::held::Held;
use crate::line::Line;
use crate::words;
use crate::words::MOST_WORDS;
use std::alloc::{AllocError, Global};
use std::fmt;

// What a line calls a frame: words of its own, a frame that was sent, or one that it changes.
#[derive(Clone, Copy, Debug, PartialEq, Eq)]
pub(crate) enum FrameName {
    Words,
    Sent(u32),
    Changed(u32),
}

impl FrameName {
    // The name once words are changed.
    fn changed(self) -> FrameName {
        match self {
            FrameName::Words => FrameName::Words,
            FrameName::Sent(number) | FrameName::Changed(number) => FrameName::Changed(number),
        }
    }

    // The name once the words of this frame stand in the place of all before.
    fn replaced(self, number: u32) -> FrameName {
        match self {
            FrameName::Words => FrameName::Words,
            FrameName::Sent(_) => FrameName::Sent(number),
            FrameName::Changed(_) => FrameName::Changed(number),
        }
    }
}

impl fmt::Display for FrameName {
    fn fmt<W: fmt::Write>(&self, f: &mut fmt::Formatter<W>) -> fmt::Result {
        match self {
            FrameName::Words => f.write_str("words"),
            FrameName::Sent(number) => write!(f, "frame {number}"),
            FrameName::Changed(number) => write!(f, "frame {number}, changed"),
        }
    }
}

// The words of a plan or a frame, and what the line calls them.
#[derive(Drop)]
pub(crate) struct Frame {
    pub words: Vec<u32>,
    pub name: FrameName,
}

impl Frame {
    // No words.
    fn new(alloc: Global) -> Frame {
        Frame {
            words: Vec::new(alloc),
            name: FrameName::Words,
        }
    }

    // The latest frame, or no words where none was sent.
    pub(crate) fn latest(held: &Held) -> Result<Frame, AllocError> {
        let mut frame = Frame::new(held.alloc);
        if let Some(number) = held.frames.latest() {
            frame.name = FrameName::Sent(number);
            frame.put(held.frame(number))?;
        }
        Ok(frame)
    }

    // The number of the visit by these words.
    pub(crate) fn visit(&self) -> u32 {
        self.words.get(1).copied().unwrap_or(0)
    }

    // These words stand in the place of all before.
    fn put(&mut self, words: &[u32]) -> Result<(), AllocError> {
        self.words.clear();
        self.words.extend_from_slice(words)
    }

    // So many of the last words are cut off.
    fn cut(&mut self, count: usize) {
        let left = self.words.len().saturating_sub(count);
        self.words.truncate(left);
    }

    // The two sums of all words are put behind them.
    fn seal(&mut self) -> Result<(), AllocError> {
        let (first, second) = words::sums(&self.words);
        self.words.extend_from_slice(&[first, second])
    }

    // So many words more, each the same as a period before it.
    fn repeat(&mut self, count: usize, period: usize) -> Result<(), AllocError> {
        let from = self.words.len().saturating_sub(period);
        let last = Vec::from_slice(*self.words.allocator(), &self.words[from..])?;
        for word in last.iter().cycle().take(count) {
            self.words.push(*word)?;
        }
        Ok(())
    }

    // Does what a form says.
    fn apply(&mut self, form: Form, held: &Held) -> Result<(), AllocError> {
        self.name = match form {
            Form::Words => FrameName::Words,
            Form::Frame(number) => self.name.replaced(number),
            _ => self.name.changed(),
        };
        match form {
            Form::One(word) => self.words.push(word)?,
            Form::Repeated { count, period } => self.repeat(count, period)?,
            Form::Word { place, word } => {
                if let Some(changed) = self.words.get_mut(place) {
                    *changed = word;
                }
            }
            Form::Cut(count) => self.cut(count),
            Form::Sums => {
                self.cut(2);
                self.seal()?;
            }
            Form::Seal => self.seal()?,
            Form::Words => self.words.clear(),
            Form::Same => self.put(&held.plan)?,
            Form::Frame(number) => self.put(held.frame(number))?,
        }
        Ok(())
    }

    // Does what the forms say up to the end of a line.
    fn read_forms(mut self, line: &mut Line, held: &Held) -> Result<Frame, LineError> {
        while let Some(name) = line.next_word() {
            let words = self.words.len();
            let form = Form::read(name, line, words, held)?;
            line.demand(form.finds_words(words), Problem::NoSuchWords)?;
            let all = words.saturating_add(form.added_words());
            line.demand(all <= MOST_WORDS as usize, Problem::TooManyWords)?;
            self.apply(form, held)?;
        }
        Ok(self)
    }

    // The words that a line writes, behind none.
    pub(crate) fn read_words(line: &mut Line, held: &Held) -> Result<Frame, LineError> {
        Frame::new(held.alloc).read_forms(line, held)
    }

    // The latest frame with the changes that a line writes.
    pub(crate) fn read(line: &mut Line, held: &Held) -> Result<Frame, LineError> {
        Frame::latest(held)?.read_forms(line, held)
    }
}
