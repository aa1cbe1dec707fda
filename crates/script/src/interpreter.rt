// What the commands do, and what is said of it.
use crate::answers::{NOTHING, Replies};
use crate::buffers::Buffers;
use crate::calls;
use crate::changes::Changes;
use crate::command::{Command, Shown};
use crate::counts::Counts;
use crate::frames::ShownFrame;
use crate::gathered::Frame;
use crate::held::Held;
use crate::holding::{Holding, Setting, ShownDesk, State};
use crate::operations::{ClientOperation, Operation};
use crate::plans::{Filling, PlanLine, ShownPlan};
use crate::words::{Count, Others, Words};
use conveyor::Desk;
use std::alloc::{AllocError, Global};
use std::io;
use std::io::Write;

// What is held, and what is counted.
#[derive(Drop)]
pub(crate) struct Interpreter {
    pub held: Held,
    pub counts: Counts,
}

// Says what a call changed that was refused, if it changed anything.
fn write_changed<W: Write>(counts: &mut Counts, changes: Changes, out: &mut W) -> io::Result<()> {
    if changes.is_empty() {
        return Ok(());
    }
    counts.add_change();
    writeln!(out, "CHANGED{changes}")
}

impl Interpreter {
    pub(crate) fn new(alloc: Global) -> Result<Interpreter, AllocError> {
        Ok(Interpreter {
            held: Held::new(alloc)?,
            counts: Counts::new(),
        })
    }

    // Does what a line says.
    pub(crate) fn perform<W: Write>(&mut self, command: Command, out: &mut W) -> io::Result<()> {
        match command {
            Command::Plan(plan) => self.take_plan(plan, out),
            Command::Choose => self.choose(out),
            Command::Class(operation) => self.class(operation, out),
            Command::Desk(number) => self.new_desk(number, out),
            Command::Start => self.start(out),
            Command::Request(desk, asked) => self.request(desk, asked, out),
            Command::Visit(desk, frame) => self.visit(desk, &frame, out),
            Command::Pass(visits) => self.pass(visits, out),
            Command::Read(frame) => self.read(&frame, out),
            Command::Show(shown) => self.show(shown, out),
            Command::State(number, state) => Ok(self.set_state(number, state)?),
            Command::Set(number, setting) => Ok(self.set(number, setting)?),
            Command::Lend(lent) => {
                self.held.lent = lent;
                Ok(())
            }
            Command::Reset => {
                self.held = Held::new(self.held.alloc)?;
                Ok(())
            }
            Command::Say(text) => {
                out.write_all(text)?;
                out.write_all(b"\n")
            }
        }
    }

    // The state of a desk, which is made if it was not.
    fn set_state(&mut self, number: u32, state: Desk) -> Result<(), AllocError> {
        if let Some(desk) = self.held.desks.get_mut(number) {
            desk.state = state;
            return Ok(());
        }
        let desk = Holding::new(self.held.alloc, state)?;
        self.held.desks.put(number, desk);
        Ok(())
    }

    fn set(&mut self, number: u32, setting: Setting) -> Result<(), AllocError> {
        match self.held.desks.get_mut(number) {
            Some(desk) => desk.set(setting),
            None => Ok(()),
        }
    }

    fn take_plan<W: Write>(&mut self, plan: Frame, out: &mut W) -> io::Result<()> {
        self.held.plan = plan.words;
        let plan = &self.held.plan;
        let verdict = conveyor::read_plan(plan);
        self.counts.add_call(&verdict);
        writeln!(out, "{}", PlanLine { plan, verdict })
    }

    // What the chooser fills in stays in the plan.
    fn choose<W: Write>(&mut self, out: &mut W) -> io::Result<()> {
        let mut after = self.held.plan.clone()?;
        let choice = conveyor::choose(&mut after);
        self.counts.add_call(&choice);
        let filling = Filling {
            before: &self.held.plan,
            after: &after,
        };
        match choice {
            Ok(cost) => writeln!(out, "choose: cost {cost}{filling}")?,
            Err(refusal) => {
                writeln!(out, "choose: {refusal}")?;
                let changed = filling.changed_words();
                if changed != 0 {
                    self.counts.add_change();
                    writeln!(out, "CHANGED: {} changed", Count(changed, "other word"))?;
                }
            }
        }
        self.held.plan = after;
        Ok(())
    }

    fn class<W: Write>(&mut self, operation: Operation, out: &mut W) -> io::Result<()> {
        let class = calls::classify(&self.held.plan, &operation);
        self.counts.add_call(&class);
        match class {
            Ok(class) => writeln!(out, "{operation}: {class}"),
            Err(refusal) => writeln!(out, "{operation}: {refusal}"),
        }
    }

    fn new_desk<W: Write>(&mut self, number: u32, out: &mut W) -> io::Result<()> {
        let opened = conveyor::new_desk(&self.held.plan, number);
        self.counts.add_call(&opened);
        match opened {
            Ok(state) => {
                let desk = Holding::new(self.held.alloc, state)?;
                self.held.desks.put(number, desk);
                writeln!(out, "desk {number}: {}", State(number, state))
            }
            Err(refusal) => writeln!(out, "desk {number}: {refusal}"),
        }
    }

    fn start<W: Write>(&mut self, out: &mut W) -> io::Result<()> {
        let alloc = self.held.alloc;
        let mut buffers = Buffers::new(alloc, self.held.lent)?;
        let started = calls::starting_frame(&mut buffers.out);
        self.counts.add_call(&started);
        let others = buffers.others(started.unwrap_or(NOTHING));
        match started {
            Ok(written) => {
                let sent = self.held.frames.send(alloc, buffers.sent(written))?;
                writeln!(out, "start: {sent}{}", Others(others))
            }
            Err(refusal) => {
                writeln!(out, "start: {refusal}")?;
                if others != 0 {
                    self.counts.add_change();
                    writeln!(out, "CHANGED{}", Others(others))?;
                }
                Ok(())
            }
        }
    }

    fn request<W: Write>(
        &mut self,
        number: u32,
        asked: ClientOperation,
        out: &mut W,
    ) -> io::Result<()> {
        let Held {
            plan,
            desks,
            lent,
            ..
        } = &mut self.held;
        let Some(desk) = desks.get_mut(number) else {
            return Ok(());
        };
        let mut after = desk.clone()?;
        let response = calls::request(plan, &mut after, *lent, asked);
        self.counts.add_call(&response);
        let changes = Changes {
            number,
            before: &*desk,
            after: &after,
            others: 0,
        };
        match response {
            Ok(response) => {
                self.counts.add_request(response);
                writeln!(out, "desk {number}: {asked}: {response}{changes}")?;
            }
            Err(refusal) => {
                writeln!(out, "desk {number}: {asked}: {refusal}")?;
                write_changed(&mut self.counts, changes, out)?;
            }
        }
        *desk = after;
        Ok(())
    }

    fn visit<W: Write>(&mut self, number: u32, frame: &Frame, out: &mut W) -> io::Result<()> {
        let Held {
            alloc,
            plan,
            desks,
            frames,
            lent,
        } = &mut self.held;
        let Some(desk) = desks.get_mut(number) else {
            return Ok(());
        };
        let mut after = desk.clone()?;
        let mut buffers = Buffers::new(*alloc, *lent)?;
        let visited = calls::visit(plan, &mut after, *lent, &frame.words, &mut buffers);
        self.counts.add_call(&visited);
        let changes = Changes {
            number,
            before: &*desk,
            after: &after,
            others: buffers.others(visited.unwrap_or(NOTHING)),
        };
        match visited {
            Ok(written) => {
                self.counts.add_visit(frame, written);
                let replies = Replies(buffers.replies(written));
                let sent = frames.send(*alloc, buffers.sent(written))?;
                write!(
                    out,
                    "desk {number}: visit {} by {}",
                    frame.visit(),
                    frame.name
                )?;
                writeln!(out, ": {replies}; {sent}{changes}")?;
            }
            Err(refusal) => {
                writeln!(out, "desk {number}: visit by {}: {refusal}", frame.name)?;
                write_changed(&mut self.counts, changes, out)?;
            }
        }
        *desk = after;
        Ok(())
    }

    // The token goes on by so many visits, each by the latest frame at the desk that it is addressed to; only the last is answered.
    fn pass<W: Write>(&mut self, visits: u32, out: &mut W) -> io::Result<()> {
        for left in (0..visits).rev() {
            let number = self.held.frames.addressed();
            if !self.held.desks.is_made(number) {
                break;
            }
            let frame = Frame::latest(&self.held)?;
            if left == 0 {
                self.visit(number, &frame, out)?;
            } else {
                self.visit(number, &frame, &mut io::sink())?;
            }
        }
        Ok(())
    }

    // Both calls of the frame reader. The part of a frame that is refused must be empty.
    fn read<W: Write>(&mut self, frame: &Frame, out: &mut W) -> io::Result<()> {
        let name = frame.name;
        let visit = conveyor::frame_visit(&self.held.plan, &frame.words);
        let part = conveyor::read_frame(&self.held.plan, &frame.words);
        self.counts.add_call(&visit);
        match visit {
            Ok(visit) => writeln!(out, "read {name}: visit {visit}, part of {}", Words(part)),
            Err(refusal) => {
                writeln!(out, "read {name}: {refusal}")?;
                if !part.is_empty() {
                    self.counts.add_change();
                    writeln!(out, "CHANGED: part of {}", Count(part.len(), "word"))?;
                }
                Ok(())
            }
        }
    }

    fn show<W: Write>(&self, shown: Shown, out: &mut W) -> io::Result<()> {
        match shown {
            Shown::Plan => {
                let plan = &self.held.plan;
                let verdict = conveyor::read_plan(plan);
                write!(out, "{}", ShownPlan(PlanLine { plan, verdict }))
            }
            Shown::Desk(number) => match self.held.desks.get(number) {
                Some(desk) => write!(out, "{}", ShownDesk(number, desk)),
                None => Ok(()),
            },
            Shown::Frame(number) => write!(out, "{}", ShownFrame(number, self.held.frame(number))),
        }
    }
}
