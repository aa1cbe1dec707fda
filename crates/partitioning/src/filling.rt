// Fillings of the open fields, by number.
//     candidate        what an open field can be filled with
//     open_count       how many fields are open
//     filling_count    how many fillings there are
//     fill             fills the plan
ghost use Rattle.std.specs.Prelude.{◌≡◌, ◌<◌, ◌≤◌, ◌/◌, ◌%◌, length};
ghost use Rattle.partitioning.specs.Filling.{with_field};
ghost use Rattle.partitioning.specs.Best.{open_words, candidate_count, candidate, filling_count, filled_by};
ghost use Rattle.partitioning.specs.Answer.{most_open};

use word::fields;

// How many fields may be open.
pub(crate) const MOST_OPEN: usize = 6;

// How many candidates an open transaction has.
pub(crate) fn candidate_count(word: u32) -> u32
    ensures { result ≡ candidate_count word }
{
    word / fields::PARAMETERS % 16 + 1
}

// Its candidate of this number: the parameters in order, then none.
pub(crate) fn candidate(word: u32, number: u32) -> u32
    ensures { result ≡ candidate word number }
{
    if number < word / fields::PARAMETERS % 16 {
        number
    } else {
        plan::UNPARTITIONED
    }
}

// How many fields are open.
pub(crate) fn open_count(plan: &[u32]) -> usize
    ensures { result ≡ length (open_words plan.now) }
{
    plan.iter().filter(|word| plan::is_open(**word)).count()
}

// How many fillings there are.
pub(crate) fn filling_count(plan: &[u32]) -> u32
    requires { length (open_words plan.now) ≤ most_open }
    ensures { result ≡ filling_count (open_words plan.now) }
{
    plan.iter()
        .filter(|word| plan::is_open(**word))
        .map(|word| candidate_count(*word))
        .product()
}

// The word with this in its partitioning field.
fn with_field(word: u32, field: u32) -> u32
    requires { field < 16 }
    ensures { result ≡ with_field field word }
{
    word / fields::STEPS * fields::STEPS
        + field * fields::PARTITIONING
        + word % fields::PARTITIONING
}

// A filling by its number, of so many: what is left of it for the open words still to come.
#[derive(Clone, Copy)]
pub(crate) struct FillingNumber {
    pub(crate) fillings: u32,
    pub(crate) number: u32,
}

impl FillingNumber {
    // The field that it gives the next of these words. Those behind it have the fillings divided by the candidates of this one.
    pub(crate) fn next_field(&mut self, word: u32) -> u32
        requires { 1 ≤ self.old.fillings / candidate_count word }
        ensures { (result ≡ candidate word (self.old.number / (self.old.fillings / candidate_count word)))
            × (self.new.fillings ≡ self.old.fillings / candidate_count word)
            × (self.new.number ≡ self.old.number % (self.old.fillings / candidate_count word)) }
    {
        self.fillings /= candidate_count(word);
        let field = candidate(word, self.number / self.fillings);
        self.number %= self.fillings;
        field
    }
}

// Fills the open fields by filling number `number` of so many.
pub(crate) fn fill(plan: &mut [u32], fillings: u32, number: u32)
    requires { fillings ≡ filling_count (open_words plan.old) }
    ensures { plan.new ≡ filled_by plan.old number }
{
    let mut left = FillingNumber { fillings, number };
    for word in plan.iter_mut() {
        if plan::is_open(*word) {
            *word = with_field(*word, left.next_field(*word));
        }
    }
}
