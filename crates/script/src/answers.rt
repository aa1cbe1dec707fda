// What the engine's calls answer where no question refuses them, in text.
use std::fmt;

// The words of a reply to a visit.
pub(crate) const REPLY_WORDS: usize = 7;

// How an operation ended; in the replies of a visit a word, which may be another.
#[derive(Clone, Copy, Debug, PartialEq, Eq)]
pub(crate) enum Case {
    Done,
    Declined,
    Word(u32),
}

impl From<u32> for Case {
    fn from(word: u32) -> Case {
        match word {
            0xC000_0001 => Case::Done,
            0xC000_0000 => Case::Declined,
            _ => Case::Word(word),
        }
    }
}

impl fmt::Display for Case {
    fn fmt<W: fmt::Write>(&self, f: &mut fmt::Formatter<W>) -> fmt::Result {
        match self {
            Case::Done => f.write_str("done"),
            Case::Declined => f.write_str("declined"),
            Case::Word(word) => write!(f, "word {word:08X}"),
        }
    }
}

// A reply: how the operation ended, its number, and the four words that it tells, which are written if one of them is not 0.
#[derive(Clone, Copy, Debug, PartialEq, Eq)]
pub(crate) struct Reply {
    pub case: Case,
    pub number: u32,
    pub told: [u32; 4],
}

impl fmt::Display for Reply {
    fn fmt<W: fmt::Write>(&self, f: &mut fmt::Formatter<W>) -> fmt::Result {
        write!(f, "{}, {}", self.case, self.number)?;
        match self.told {
            [0, 0, 0, 0] => Ok(()),
            [a, b, c, d] => write!(f, ", told {a} {b} {c} {d}"),
        }
    }
}

// What becomes of a request.
#[derive(Clone, Copy, Debug, PartialEq, Eq)]
pub(crate) enum Response {
    Replied(Reply),
    Waits,
    Elsewhere(u32),
}

impl fmt::Display for Response {
    fn fmt<W: fmt::Write>(&self, f: &mut fmt::Formatter<W>) -> fmt::Result {
        match self {
            Response::Replied(reply) => write!(f, "{reply}"),
            Response::Waits => f.write_str("waits"),
            Response::Elsewhere(desk) => write!(f, "elsewhere, desk {desk}"),
        }
    }
}

// What a call wrote: how many words of the frame that it sends, and how many replies.
#[derive(Clone, Copy, Debug)]
pub(crate) struct Written {
    pub sent: usize,
    pub replies: usize,
}

// What a call writes that is refused.
pub(crate) const NOTHING: Written = Written {
    sent: 0,
    replies: 0,
};

// The replies of a visit, in the words that it wrote.
#[derive(Clone, Copy)]
pub(crate) struct Replies<'a>(pub &'a [u32]);

impl fmt::Display for Replies<'_> {
    fn fmt<W: fmt::Write>(&self, f: &mut fmt::Formatter<W>) -> fmt::Result {
        match self.0.len() / REPLY_WORDS {
            1 => f.write_str("1 reply")?,
            count => write!(f, "{count} replies")?,
        }
        for reply in self.0.chunks(REPLY_WORDS) {
            if let [case, client, number, a, b, c, d] = reply {
                let reply = Reply {
                    case: Case::from(*case),
                    number: *number,
                    told: [*a, *b, *c, *d],
                };
                write!(f, ", client {client} {reply}")?;
            }
        }
        Ok(())
    }
}
