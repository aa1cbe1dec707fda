// The interpreter of scripts over the engine's public calls. docs/SCRIPT.md is its language. It is safe and ends for any bytes at all.
//
//     fault          what can be wrong with a line, and where
//     line           the words of a line, from left to right
//     words          words in text: how many there are, the words, and their two sums
//     groups         transactions and updates among words
//     operations     operations, as a line writes them
//     plans          a plan in words, and what the chooser filled in
//     lent           how much of what is held a call is lent
//     holding        what a desk holds
//     desks          the desks, each made or not
//     frames         the frames that were sent
//     held           what the interpreter holds, but for the counts
//     forms          the forms in which a line writes words
//     gathered       the words that are gathered from them
//     command        the commands, read from a line
//     buffers        the words that a call writes to
//     answers        what the engine's calls answer, in text
//     calls          the engine's calls
//     changes        what a call changed of a desk
//     counts         what is counted
//     interpreter    what the commands do
//     blocks         text that is written in blocks
//     reader         lines, from the bytes of a script
#![tactic(auto)]

mod answers;
mod blocks;
mod buffers;
mod calls;
mod changes;
mod command;
mod counts;
mod desks;
mod fault;
mod forms;
mod frames;
mod gathered;
mod groups;
mod held;
mod holding;
mod interpreter;
mod lent;
mod line;
mod operations;
mod plans;
mod reader;
mod words;

pub use reader::run;
