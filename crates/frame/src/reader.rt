// The frame reader: the verdict on the plan, then questions 10 to 12 of the frame.
//     frame_headed, sums_right, updates_right     questions 10, 11 and 12
//     check_frame, Frame::read                    all of them
//     visit, addressed, updates                   what an accepted frame says
//     read, read_frame, frame_visit               behind the verdict on the plan: the frame, its updates, its visit
ghost use Rattle.std.specs.Prelude.{◌≡◌, ◌≤◌, length, IfOk};
ghost use Rattle.verdict.specs.Verdict.{verdict_of};
ghost use Rattle.word.specs.Field.{addressed_desk};
ghost use Rattle.plan.specs.Decode.{head_of};
ghost use Rattle.plan.specs.Accepted.{the_plan};
ghost use Rattle.frame.specs.Admission.{updates_part, frame_visit, frame_headed, sums_right, updates_right, frame_verdict, read_verdict};
ghost use Rattle.frame.specs.Answer.{visit_of, part_read, visit_read};
ghost use Rattle.frame.specs.Frame.{least_frame};

use crate::accepted_frame::Frame;
use crate::{sums, updates};
use plan::Plan;
use verdict::Refusal;
use word::fields;

// The words of a frame: at least those of one with no update, at most 32 updates of 12 cells from each of 8 desks.
pub const LEAST_FRAME: usize = 4;

pub const LONGEST_FRAME: usize = 6404;

// Question 10. The length is compared whole.
fn frame_headed(frame: &[u32]) -> bool
    ensures { result ≡ frame_headed frame.now }
{
    let words = frame.len();
    if words < LEAST_FRAME {
        return false;
    }
    if LONGEST_FRAME < words {
        return false;
    }
    let head = frame[0];
    if head / fields::KIND != 9 {
        return false;
    }
    if !word::reserved_zero(head) {
        return false;
    }
    (head % 0x1_0000) as usize == words
}

// Question 11.
fn sums_right(frame: &[u32]) -> bool
    requires { least_frame ≤ length frame.now }
    ensures { result ≡ sums_right frame.now }
{
    let end = frame.len() - 2;
    let sums = sums::frame_sums(&frame[..end]);
    if frame[end] != sums.first {
        return false;
    }
    frame[end + 1] == sums.second
}

// Question 12.
fn updates_right(desks: u32, frame: &[u32]) -> bool
    requires { (1 ≤ desks) × (desks ≤ 8) × (least_frame ≤ length frame.now) }
    ensures { result ≡ updates_right desks frame.now }
{
    let head = frame[0];
    let visit = frame[1];
    if head / fields::ADDRESSED % 16 != visit % desks {
        return false;
    }
    let end = frame.len() - 2;
    updates::updates_admitted(desks, &frame[2..end])
}

// Questions 10 to 12, all of one before the next.
pub fn check_frame(desks: u32, frame: &[u32]) -> Result<(), Refusal>
    requires { (1 ≤ desks) × (desks ≤ 8) }
    ensures { verdict_of result ≡ frame_verdict desks frame.now }
{
    if !frame_headed(frame) {
        return Err(Refusal::NoFrame);
    }
    if !sums_right(frame) {
        return Err(Refusal::WrongSum);
    }
    if !updates_right(desks, frame) {
        return Err(Refusal::MalformedUpdates);
    }
    Ok(())
}

impl<'a> Frame<'a> {
    // The frame of these words, if questions 10 to 12 accept them.
    pub fn read(plan: &Plan, words: &'a [u32]) -> Result<Self, Refusal>
        ensures verdict { verdict_of result ≡ frame_verdict (the_plan plan.now).desks words.now }
        ensures same { IfOk result (λ f. (f.words.now ≡ words.now) × (f.desks ≡ (the_plan plan.now).desks)) }
    {
        let desks = plan.desks();
        check_frame(desks, words)?;
        Ok(Frame { words, desks })
    }

    // The number of the visit.
    pub fn visit(&self) -> u32
        ensures { result ≡ frame_visit self.now.words.now }
    {
        self.words[1]
    }

    // The desk that is addressed.
    pub fn addressed(&self) -> u32
        ensures { result ≡ addressed_desk (head_of self.now.words.now) }
    {
        self.words[0] / fields::ADDRESSED % 16
    }

    // The part that holds the updates.
    pub fn updates(&self) -> &'a [u32]
        ensures { result.now ≡ updates_part self.now.words.now }
    {
        let end = self.words.len() - 2;
        &self.words[2..end]
    }
}

// The verdict on the plan, then questions 10 to 12.
#[tactic(auto, unfolding(crate::specs::Admission::read_verdict))]
fn read<'a>(plan: &[u32], frame: &'a [u32]) -> Result<Frame<'a>, Refusal>
    ensures verdict { verdict_of result ≡ read_verdict plan.now frame.now }
    ensures same { IfOk result (λ f. f.words.now ≡ frame.now) }
{
    let plan = Plan::read(plan)?;
    Frame::read(&plan, frame)
}

// The part of the frame that holds the updates, or the empty part where the frame is refused.
pub fn read_frame<'a>(plan: &[u32], frame: &'a [u32]) -> &'a [u32]
    ensures { result.now ≡ part_read (read_verdict plan.now frame.now) frame.now }
{
    match read(plan, frame) {
        Ok(accepted) => accepted.updates(),
        Err(_) => &frame[..0],
    }
}

// The visit number, or why the frame is refused, by the same questions.
pub fn frame_visit(plan: &[u32], frame: &[u32]) -> Result<u32, Refusal>
    ensures { visit_of result ≡ visit_read (read_verdict plan.now frame.now) frame.now }
{
    let accepted = read(plan, frame)?;
    Ok(accepted.visit())
}
