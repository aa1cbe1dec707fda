// What can be wrong with a line, and where.
use crate::words::MOST_WORDS;
use std::alloc::AllocError;
use thiserror::Error;

// What was expected at a word, or is not there.
#[derive(Clone, Copy, Debug, PartialEq, Eq, Error)]
pub(crate) enum Problem {
    #[error("no such command")]
    NoCommand,
    #[error("a number from 0 to {most} is expected")]
    NoNumber { most: u64 },
    #[error("a word of 1 to 8 hexadecimal digits is expected")]
    NoWord,
    #[error("a transaction is expected, as T0")]
    NoTransaction,
    #[error("client is expected")]
    NoClient,
    #[error("desk is expected")]
    NoDesk,
    #[error("waiting is expected")]
    NoWaiting,
    #[error("awaits is expected")]
    NoAwaits,
    #[error("this desk is not made")]
    NotMade,
    #[error("this frame is not kept")]
    NotKept,
    #[error("there are no such words")]
    NoSuchWords,
    #[error("more than {MOST_WORDS} words")]
    TooManyWords,
    #[error("plan, desk or frame is expected")]
    NothingToShow,
    #[error("book, bulletin, row, out or replies is expected")]
    NothingToLend,
    #[error("nothing more is expected")]
    TooMuch,
}

// A problem with the number of the word where it was found.
#[derive(Clone, Copy, Debug, PartialEq, Eq, Error)]
#[error("word {word}: {problem}")]
pub(crate) struct Fault {
    pub word: u32,
    pub problem: Problem,
}

// Why a line was not read.
#[derive(Debug, Drop, Error)]
pub(crate) enum LineError {
    #[error(transparent)]
    Fault(#[from] Fault),
    #[error(transparent)]
    Memory(#[from(alloc)] AllocError),
}
