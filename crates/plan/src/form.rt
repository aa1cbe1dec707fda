// Questions 2, 3 and 4 of a single word.
ghost use Rattle.std.specs.Prelude.{◌≡◌, true, not, ◌&&◌, ◌||◌, ltb, leb, eqb, ◌+◌, ◌≤◌};
ghost use Rattle.word.specs.Field.{parameter_count, partitioning_field};
ghost use Rattle.plan.specs.Decode.{names_no_parameter, step_of, part_by};
ghost use Rattle.plan.specs.Admission.{counts_in_range, partitioning_formed, transaction_formed, step_formed, one_if_tells, most_tells};
ghost use Rattle.plan.specs.Admission.{step_exists, part_exists};

use word::fields;

// A partitioning field that is open, and one that stands for none.
pub const OPEN: u32 = 14;

pub const UNPARTITIONED: u32 = 15;

// How many steps of a transaction may tell.
pub const MOST_TELLS: usize = 4;

// Question 2: 1 to 8 desks, 1 to 32 transactions.
pub(crate) fn counts_in_range(head: u32) -> bool
    ensures { result ≡ counts_in_range head }
{
    let desks = head / fields::DESKS % 16;
    let transactions = head / fields::TRANSACTIONS % 256;
    if desks < 1 {
        return false;
    }
    if 8 < desks {
        return false;
    }
    if transactions < 1 {
        return false;
    }
    transactions <= 32
}

// Whether a partitioning field names no parameter: it is open, or stands for none.
pub fn names_no_parameter(partitioning: u32) -> bool
    ensures { result ≡ names_no_parameter partitioning }
{
    if partitioning == OPEN {
        return true;
    }
    partitioning == UNPARTITIONED
}

// A partitioning field: parameter 0 to 3, 14 for open, 15 for none.
fn partitioning_formed(partitioning: u32) -> bool
    ensures { result ≡ partitioning_formed partitioning }
{
    if partitioning < 4 {
        return true;
    }
    names_no_parameter(partitioning)
}

// Question 3 of a transaction's word.
pub(crate) fn transaction_formed(word: u32) -> bool
    ensures { result ≡ transaction_formed word }
{
    let parameters = word / fields::PARAMETERS % 16;
    let steps = word / fields::STEPS % 16;
    let partitioning = word / fields::PARTITIONING % 16;
    if word / fields::KIND != 2 {
        return false;
    }
    if 4 < parameters {
        return false;
    }
    if steps < 1 {
        return false;
    }
    if 12 < steps {
        return false;
    }
    if !partitioning_formed(partitioning) {
        return false;
    }
    word::reserved_zero(word)
}

// The kinds of a step: 3 to 8, and 13.
fn step_kind(kind: u32) -> bool
    ensures { result ≡ ((leb 3 kind && leb kind 8) || eqb kind 13) }
{
    if kind == 13 {
        return true;
    }
    if kind < 3 {
        return false;
    }
    kind <= 8
}

// A source: parameter 0 to 3, or 7 for what is fixed.
fn source_formed(source: u32) -> bool
    ensures { result ≡ (ltb source 4 || eqb source 7) }
{
    if source < 4 {
        return true;
    }
    source == 7
}

// Question 3 of a step's word.
pub(crate) fn step_formed(word: u32) -> bool
    ensures { result ≡ step_formed word }
{
    if !step_kind(word / fields::KIND) {
        return false;
    }
    if !source_formed(word::source(word)) {
        return false;
    }
    word::reserved_zero(word)
}

// How many steps tell, with the step in this word behind so many that do.
pub(crate) fn tells_with(word: u32, tells: usize) -> usize
    requires { tells ≤ most_tells }
    ensures { result ≡ tells + one_if_tells (step_of word) }
{
    if word / fields::KIND == 13 {
        return tells + 1;
    }
    tells
}

// Question 4: whether the partitioning parameter is missing, or a parameter was missing before.
pub(crate) fn partitioning_missing(word: u32, missing: bool) -> bool
    ensures { result ≡ (missing || not (part_exists (parameter_count word) (part_by (partitioning_field word)))) }
{
    let parameters = word / fields::PARAMETERS % 16;
    let partitioning = word / fields::PARTITIONING % 16;
    if names_no_parameter(partitioning) {
        return missing;
    }
    if partitioning < parameters {
        return missing;
    }
    true
}

// Question 4: whether the parameter that a step names is missing, or a parameter was missing before.
pub(crate) fn step_missing(word: u32, parameters: u32, missing: bool) -> bool
    requires { step_formed word ≡ true }
    ensures { result ≡ (missing || not (step_exists parameters (step_of word))) }
{
    if word / fields::KIND == 13 {
        return missing;
    }
    let source = word::source(word);
    if source == 7 {
        return missing;
    }
    if source < parameters {
        return missing;
    }
    true
}
