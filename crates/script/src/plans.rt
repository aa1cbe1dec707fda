// A plan in words: its verdict, its transactions with their steps, and what the chooser filled in.
use crate::groups::{Group, Groups};
use crate::words;
use crate::words::{Count, Others};
use conveyor::{Refusal, fields};
use std::fmt;

// Where a step takes its number from: a parameter, or the step's own word.
#[derive(Clone, Copy)]
enum Source {
    Parameter(u32),
    Fixed(u32),
}

impl fmt::Display for Source {
    fn fmt<W: fmt::Write>(&self, f: &mut fmt::Formatter<W>) -> fmt::Result {
        match self {
            Source::Parameter(parameter) => write!(f, "p{parameter}"),
            Source::Fixed(number) => write!(f, "{number}"),
        }
    }
}

impl Source {
    // The source of this number: 0 to 3 are the parameters.
    fn new(number: u32, fixed: u32) -> Source {
        if number < 4 {
            Source::Parameter(number)
        } else {
            Source::Fixed(fixed)
        }
    }
}

// The cell that a step reads or writes.
#[derive(Clone, Copy)]
struct Cell {
    table: u32,
    column: u32,
    row: Source,
}

impl fmt::Display for Cell {
    fn fmt<W: fmt::Write>(&self, f: &mut fmt::Formatter<W>) -> fmt::Result {
        write!(
            f,
            "table {} column {} row {}",
            self.table, self.column, self.row
        )
    }
}

// A step of a transaction.
#[derive(Clone, Copy)]
enum Step {
    Read(Cell),
    Write(Cell),
    Set(Source),
    Add(Source),
    Need(Source),
    Take(Source),
    Tell,
}

impl From<u32> for Step {
    fn from(word: u32) -> Step {
        let cell = Cell {
            table: word / fields::TABLE % 8,
            column: word / fields::COLUMN % 4,
            row: Source::new(word / fields::ROW_SOURCE % 8, word % 32),
        };
        let operand = Source::new(
            word / fields::OPERAND_SOURCE % 8,
            word % fields::OPERAND_SOURCE,
        );
        match word / fields::KIND {
            3 => Step::Read(cell),
            4 => Step::Write(cell),
            5 => Step::Set(operand),
            6 => Step::Add(operand),
            7 => Step::Need(operand),
            8 => Step::Take(operand),
            _ => Step::Tell,
        }
    }
}

impl fmt::Display for Step {
    fn fmt<W: fmt::Write>(&self, f: &mut fmt::Formatter<W>) -> fmt::Result {
        match self {
            Step::Read(cell) => write!(f, "read {cell}"),
            Step::Write(cell) => write!(f, "write {cell}"),
            Step::Set(operand) => write!(f, "set {operand}"),
            Step::Add(operand) => write!(f, "add {operand}"),
            Step::Need(operand) => write!(f, "need {operand}"),
            Step::Take(operand) => write!(f, "take {operand}"),
            Step::Tell => f.write_str("tell"),
        }
    }
}

// By what the operations of a transaction go to their desks.
#[derive(Clone, Copy, Debug, PartialEq, Eq)]
enum Partitioning {
    Parameter(u32),
    Open,
    Unpartitioned,
}

impl Partitioning {
    // The field of a transaction's word.
    fn new(head: u32) -> Partitioning {
        match head / fields::PARTITIONING % 16 {
            14 => Partitioning::Open,
            15 => Partitioning::Unpartitioned,
            parameter => Partitioning::Parameter(parameter),
        }
    }
}

impl fmt::Display for Partitioning {
    fn fmt<W: fmt::Write>(&self, f: &mut fmt::Formatter<W>) -> fmt::Result {
        match self {
            Partitioning::Parameter(parameter) => write!(f, "by p{parameter}"),
            Partitioning::Open => f.write_str("open"),
            Partitioning::Unpartitioned => f.write_str("by none"),
        }
    }
}

// A transaction of a plan with its number.
#[derive(Clone, Copy)]
struct Transaction<'a> {
    number: usize,
    group: Group<'a>,
}

impl Transaction<'_> {
    // The number and the parameters, as `T0(p0, p1)`.
    fn write_name<W: fmt::Write>(&self, f: &mut fmt::Formatter<W>) -> fmt::Result {
        write!(f, "T{}(", self.number)?;
        let parameters = self.group.head / fields::PARAMETERS % 16;
        for parameter in 0..parameters.min(4) {
            let before = if parameter == 0 { "" } else { ", " };
            write!(f, "{before}p{parameter}")?;
        }
        f.write_str(")")
    }

    // How its operations go, its weight, and whether it is urgent.
    fn write_fields<W: fmt::Write>(&self, f: &mut fmt::Formatter<W>) -> fmt::Result {
        let head = self.group.head;
        let partitioning = Partitioning::new(head);
        if partitioning != Partitioning::Unpartitioned {
            write!(f, " {partitioning}")?;
        }
        let weight = head / fields::WEIGHT % 256;
        if weight != 0 {
            write!(f, ", weight {weight}")?;
        }
        if head / fields::URGENT % 2 == 1 {
            f.write_str(", urgent")?;
        }
        Ok(())
    }
}

impl fmt::Display for Transaction<'_> {
    fn fmt<W: fmt::Write>(&self, f: &mut fmt::Formatter<W>) -> fmt::Result {
        self.write_name(f)?;
        self.write_fields(f)?;
        for (i, word) in self.group.parts.iter().enumerate() {
            let before = if i == 0 { ": " } else { "; " };
            write!(f, "{before}{}", Step::from(*word))?;
        }
        Ok(())
    }
}

// What the plan reader says of a plan.
#[derive(Clone, Copy)]
pub(crate) struct PlanLine<'a> {
    pub plan: &'a [u32],
    pub verdict: Result<(), Refusal>,
}

impl fmt::Display for PlanLine<'_> {
    fn fmt<W: fmt::Write>(&self, f: &mut fmt::Formatter<W>) -> fmt::Result {
        let words = Count(self.plan.len(), "word");
        if let Err(refusal) = self.verdict {
            return write!(f, "plan of {words}: {refusal}");
        }
        let head = self.plan.first().copied().unwrap_or(0);
        let desks = Count((head / fields::DESKS % 16) as usize, "desk");
        let transactions = Count((head / fields::TRANSACTIONS % 256) as usize, "transaction");
        write!(f, "plan: accepted, {desks}, {transactions}, {words}")
    }
}

// A plan as it is shown: what the plan reader says, and the transactions, if they are well formed.
#[derive(Clone, Copy)]
pub(crate) struct ShownPlan<'a>(pub PlanLine<'a>);

impl fmt::Display for ShownPlan<'_> {
    fn fmt<W: fmt::Write>(&self, f: &mut fmt::Formatter<W>) -> fmt::Result {
        let line = self.0;
        writeln!(f, "{line}")?;
        if let Err(refusal) = line.verdict
            && refusal != Refusal::OpenField
        {
            return Ok(());
        }
        for (number, group) in Groups::transactions(line.plan).enumerate() {
            writeln!(f, "  {}", Transaction { number, group })?;
        }
        Ok(())
    }
}

// What the chooser made of a plan.
#[derive(Clone, Copy)]
pub(crate) struct Filling<'a> {
    pub before: &'a [u32],
    pub after: &'a [u32],
}

impl Filling<'_> {
    // How many words are others than before.
    pub(crate) fn changed_words(&self) -> usize {
        words::count_changed(self.before, self.after)
    }
}

impl fmt::Display for Filling<'_> {
    fn fmt<W: fmt::Write>(&self, f: &mut fmt::Formatter<W>) -> fmt::Result {
        let mut others = self.changed_words();
        for (number, group) in Groups::transactions(self.before).enumerate() {
            let place = group.place;
            let word = self.after.get(place).copied().unwrap_or(0);
            if word != group.head {
                others = others.saturating_sub(1);
                let by = Partitioning::new(word);
                write!(f, "; T{number} {by}, word {place} is now {word:08X}")?;
            }
        }
        write!(f, "{}", Others(others))
    }
}
