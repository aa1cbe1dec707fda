// What is counted.
use crate::answers::{Case, Response, Written};
use crate::gathered::{Frame, FrameName};
use conveyor::Refusal;
use std::fmt;

// The numbers of questions are below this.
const QUESTIONS: usize = 32;

// Requests that were not refused, by what became of them.
#[derive(Clone, Copy, Debug, Default)]
struct Requests {
    done: u32,
    declined: u32,
    waiting: u32,
    elsewhere: u32,
}

// Visits that were not refused, their replies, those with several, those of changed frames, and the longest frames.
#[derive(Clone, Copy, Debug, Default)]
struct Visits {
    all: u32,
    replies: u32,
    several: u32,
    changed_frames: u32,
    longest_taken: usize,
    longest_sent: usize,
}

// Lines and bad ones; calls, those that were refused, by their questions, and refusals that changed something; requests and visits.
#[derive(Clone, Copy, Debug)]
pub(crate) struct Counts {
    pub lines: u32,
    bad: u32,
    calls: u32,
    refused: [u32; QUESTIONS],
    changed: u32,
    requests: Requests,
    visits: Visits,
}

// Counts one more.
fn add_one(count: &mut u32) {
    *count = count.wrapping_add(1);
}

impl Counts {
    pub(crate) fn new() -> Counts {
        Counts {
            lines: 0,
            bad: 0,
            calls: 0,
            refused: [0; QUESTIONS],
            changed: 0,
            requests: Requests::default(),
            visits: Visits::default(),
        }
    }

    pub(crate) fn add_line(&mut self) {
        add_one(&mut self.lines);
    }

    pub(crate) fn add_bad_line(&mut self) {
        add_one(&mut self.bad);
    }

    // A call, by its answer.
    pub(crate) fn add_call<T>(&mut self, answer: &Result<T, Refusal>) {
        add_one(&mut self.calls);
        if let Err(refusal) = answer
            && let Some(count) = self.refused.get_mut(refusal.question() as usize)
        {
            add_one(count);
        }
    }

    // A refusal that changed something.
    pub(crate) fn add_change(&mut self) {
        add_one(&mut self.changed);
    }

    // A request that was not refused.
    pub(crate) fn add_request(&mut self, response: Response) {
        add_one(match response {
            Response::Replied(reply) if reply.case == Case::Done => &mut self.requests.done,
            Response::Replied(_) => &mut self.requests.declined,
            Response::Waits => &mut self.requests.waiting,
            Response::Elsewhere(_) => &mut self.requests.elsewhere,
        });
    }

    // A visit that was not refused.
    pub(crate) fn add_visit(&mut self, frame: &Frame, written: Written) {
        let visits = &mut self.visits;
        add_one(&mut visits.all);
        let replies = u32::try_from(written.replies).unwrap_or(u32::MAX);
        visits.replies = visits.replies.wrapping_add(replies);
        if 1 < written.replies {
            add_one(&mut visits.several);
        }
        if !matches!(frame.name, FrameName::Sent(_)) {
            add_one(&mut visits.changed_frames);
        }
        visits.longest_taken = visits.longest_taken.max(frame.words.len());
        visits.longest_sent = visits.longest_sent.max(written.sent);
    }
}

// The sum of counts.
fn total(counts: &[u32]) -> u32 {
    counts
        .iter()
        .fold(0, |sum: u32, count| sum.wrapping_add(*count))
}

impl fmt::Display for Requests {
    fn fmt<W: fmt::Write>(&self, f: &mut fmt::Formatter<W>) -> fmt::Result {
        let all = total(&[self.done, self.declined, self.waiting, self.elsewhere]);
        write!(
            f,
            "requests {all}: done {}, declined {}",
            self.done, self.declined
        )?;
        write!(
            f,
            ", waiting {}, elsewhere {}",
            self.waiting, self.elsewhere
        )
    }
}

impl fmt::Display for Visits {
    fn fmt<W: fmt::Write>(&self, f: &mut fmt::Formatter<W>) -> fmt::Result {
        write!(f, "visits {}: replies {}", self.all, self.replies)?;
        write!(
            f,
            ", several replies {}, changed frames {}",
            self.several, self.changed_frames
        )?;
        write!(f, ", longest frame taken {}", self.longest_taken)?;
        write!(f, ", longest frame sent {}", self.longest_sent)
    }
}

impl fmt::Display for Counts {
    fn fmt<W: fmt::Write>(&self, f: &mut fmt::Formatter<W>) -> fmt::Result {
        let refused = total(&self.refused);
        writeln!(f, "lines {}, bad {}", self.lines, self.bad)?;
        writeln!(
            f,
            "calls {}, refused {refused}, changed by a refusal {}",
            self.calls, self.changed
        )?;
        for (question, count) in self.refused.iter().enumerate() {
            if *count != 0 {
                writeln!(f, "refused {question}: {count}")?;
            }
        }
        writeln!(f, "{}\n{}", self.requests, self.visits)
    }
}
