// The frames that were sent, of which the latest are kept.
use crate::groups::Groups;
use crate::words::{Count, Words};
use conveyor::fields;
use std::alloc::{AllocError, Global};
use std::collections::VecDeque;
use std::fmt;

// How many are kept.
const MOST_KEPT: usize = 64;

// How many frames were sent, and the latest, the last one at the back.
#[derive(Drop)]
pub(crate) struct Frames {
    sent: u32,
    kept: VecDeque<Vec<u32>>,
}

impl Frames {
    pub(crate) fn new(alloc: Global) -> Frames {
        Frames {
            sent: 0,
            kept: VecDeque::new(alloc),
        }
    }

    // The number of the latest frame, if one was sent.
    pub(crate) fn latest(&self) -> Option<u32> {
        self.sent.checked_sub(1)
    }

    // The words of a frame, if it is kept.
    pub(crate) fn get(&self, number: u32) -> Option<&[u32]> {
        let later = self.latest()?.checked_sub(number)?;
        let frame = self.kept.iter().rev().nth(later as usize)?;
        Some(frame.as_slice())
    }

    // Keeps the words of a frame that is sent.
    pub(crate) fn send<'a>(
        &mut self,
        alloc: Global,
        words: &'a [u32],
    ) -> Result<SentFrame<'a>, AllocError> {
        let frame = Vec::from_slice(alloc, words)?;
        if MOST_KEPT <= self.kept.len() {
            let _ = self.kept.pop_front();
        }
        self.kept.push_back(frame)?;
        let number = self.sent;
        self.sent = number.wrapping_add(1);
        Ok(SentFrame { number, words })
    }

    // The desk that the latest frame is addressed to, desk 0 where none was sent.
    pub(crate) fn addressed(&self) -> u32 {
        let latest = self.latest().and_then(|number| self.get(number));
        let head = latest.and_then(|frame| frame.first()).copied();
        head.unwrap_or(0) / fields::ADDRESSED % 8
    }
}

// A frame as an answer says that it is sent.
#[derive(Clone, Copy)]
pub(crate) struct SentFrame<'a> {
    number: u32,
    words: &'a [u32],
}

impl fmt::Display for SentFrame<'_> {
    fn fmt<W: fmt::Write>(&self, f: &mut fmt::Formatter<W>) -> fmt::Result {
        write!(f, "sends frame {} of {}", self.number, Words(self.words))
    }
}

// A frame as it is shown: its number and its words.
#[derive(Clone, Copy)]
pub(crate) struct ShownFrame<'a>(pub u32, pub &'a [u32]);

impl fmt::Display for ShownFrame<'_> {
    fn fmt<W: fmt::Write>(&self, f: &mut fmt::Formatter<W>) -> fmt::Result {
        let [head, visit, updates @ .., _, _] = self.1 else {
            return Ok(());
        };
        let words = Count(self.1.len(), "word");
        let desk = head / fields::ADDRESSED % 16;
        writeln!(f, "frame {}: {words}, visit {visit} to desk {desk}", self.0)?;
        for group in Groups::updates(updates) {
            let desk = group.head / fields::UPDATE_DESK % 16;
            writeln!(f, "  update of desk {desk}:{}", Cells(group.parts))?;
        }
        Ok(())
    }
}

// The cells of an update, each a word with its number and one with its value.
#[derive(Clone, Copy)]
struct Cells<'a>(&'a [u32]);

impl fmt::Display for Cells<'_> {
    fn fmt<W: fmt::Write>(&self, f: &mut fmt::Formatter<W>) -> fmt::Result {
        if self.0.is_empty() {
            return f.write_str(" no cells");
        }
        for (i, pair) in self.0.chunks(2).enumerate() {
            let before = if i == 0 { "" } else { "," };
            if let [cell, value] = pair {
                write!(f, "{before} cell {} is {value}", cell % 0x400)?;
            }
        }
        Ok(())
    }
}
