// Why a call is refused: the questions at the door.
#![tactic(auto)]

ghost use Rattle.std.specs.Prelude.{◌≡◌};
ghost use Rattle.verdict.specs.Verdict.{question_of};

use std::error::Error;
use std::fmt;

// The question whose answer is no.
#[derive(Clone, Copy, Debug, PartialEq, Eq)]
pub enum Refusal {
    NoPlan,
    CountOutOfRange,
    MalformedWord,
    MissingParameter,
    WrongSize,
    MisfitState,
    NoTransaction,
    ParameterOutOfRange,
    QueueFull,
    NoFrame,
    WrongSum,
    MalformedUpdates,
    OtherDesk,
    OtherVisit,
    LastVisit,
    ManyOpenFields,
    OpenField,
}

impl Refusal {
    // Its number.
    pub fn question(self) -> u32
        ensures { result ≡ question_of self }
    {
        match self {
            Refusal::NoPlan => 1,
            Refusal::CountOutOfRange => 2,
            Refusal::MalformedWord => 3,
            Refusal::MissingParameter => 4,
            Refusal::WrongSize => 5,
            Refusal::MisfitState => 6,
            Refusal::NoTransaction => 7,
            Refusal::ParameterOutOfRange => 8,
            Refusal::QueueFull => 9,
            Refusal::NoFrame => 10,
            Refusal::WrongSum => 11,
            Refusal::MalformedUpdates => 12,
            Refusal::OtherDesk => 13,
            Refusal::OtherVisit => 14,
            Refusal::LastVisit => 15,
            Refusal::ManyOpenFields => 16,
            Refusal::OpenField => 17,
        }
    }

    // The question in a few words.
    fn text(self) -> &'static str {
        match self {
            Refusal::NoPlan => "no head of kind 1 with the count of the words, 1 to 417",
            Refusal::CountOutOfRange => "desks or transactions out of range",
            Refusal::MalformedWord =>
                "a word out of place or range, a bit that must be zero, or a fifth tell",
            Refusal::MissingParameter => "a parameter that the transaction does not have",
            Refusal::WrongSize => "a buffer of the wrong size",
            Refusal::MisfitState => "a state or waiting records that do not fit this desk",
            Refusal::NoTransaction => "no such transaction",
            Refusal::ParameterOutOfRange =>
                "a row above 31 or an unused parameter that is not zero",
            Refusal::QueueFull => "32 wait already",
            Refusal::NoFrame => "no frame of 4 to 6404 words with its head and its count",
            Refusal::WrongSum => "a sum is wrong",
            Refusal::MalformedUpdates =>
                "a wrong desk addressed, or updates that are not well formed",
            Refusal::OtherDesk => "addressed to another desk",
            Refusal::OtherVisit => "not the visit that this desk awaits",
            Refusal::LastVisit => "the last visit number",
            Refusal::ManyOpenFields => "more than six open fields",
            Refusal::OpenField => "a partitioning field is open",
        }
    }
}

impl fmt::Display for Refusal {
    fn fmt<W: fmt::Write>(&self, f: &mut fmt::Formatter<W>) -> fmt::Result {
        write!(f, "refused {}: {}", self.question(), self.text())
    }
}

impl Error for Refusal {}
