// The words that a call writes to. Before the call word i of a buffer is its mark, F0F00000 + i.
use crate::answers::{REPLY_WORDS, Written};
use crate::lent::Lent;
use std::alloc::{AllocError, Global};

const FIRST_MARK: u32 = 0xF0F0_0000;

// The outgoing words and the replies.
#[derive(Drop)]
pub(crate) struct Buffers {
    pub out: Vec<u32>,
    pub replies: Vec<u32>,
}

// So many marks.
fn marks(alloc: Global, words: usize) -> Result<Vec<u32>, AllocError> {
    (FIRST_MARK..).take(words).collect(alloc)
}

// How many words behind the first ones are no longer marks.
// No zip with the marks: a chain that ends with the shorter of two takes half again the time of this walk over all words.
fn others_in(buffer: &[u32], written: usize) -> usize {
    let behind = buffer.get(written..).unwrap_or(&[]);
    let mut mark = FIRST_MARK.wrapping_add((written % 0x1_0000_0000) as u32);
    let mut others: usize = 0;
    for word in behind {
        if *word != mark {
            others = others.wrapping_add(1);
        }
        mark = mark.wrapping_add(1);
    }
    others
}

impl Buffers {
    // As many marks as are lent.
    pub(crate) fn new(alloc: Global, lent: Lent) -> Result<Buffers, AllocError> {
        Ok(Buffers {
            out: marks(alloc, lent.out)?,
            replies: marks(alloc, lent.replies)?,
        })
    }

    // The words of the frame that a call wrote.
    pub(crate) fn sent(&self, written: Written) -> &[u32] {
        self.out.get(..written.sent).unwrap_or(&[])
    }

    // The words of the replies that a call wrote.
    pub(crate) fn replies(&self, written: Written) -> &[u32] {
        let words = written.replies.saturating_mul(REPLY_WORDS);
        self.replies.get(..words).unwrap_or(&[])
    }

    // How many words changed behind those that a call wrote.
    pub(crate) fn others(&self, written: Written) -> usize {
        let words = written.replies.saturating_mul(REPLY_WORDS);
        others_in(&self.out, written.sent).saturating_add(others_in(&self.replies, words))
    }
}
