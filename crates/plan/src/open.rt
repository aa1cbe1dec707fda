// Open partitioning fields among the words of a plan.
ghost use Rattle.std.specs.Prelude.{◌≡◌};
ghost use Rattle.std.specs.List.{list_any};
ghost use Rattle.plan.specs.Decode.{is_open};

use crate::form;
use word::fields;

// Whether this is the word of a transaction whose partitioning field is open.
pub fn is_open(word: u32) -> bool
    ensures { result ≡ is_open word }
{
    if word / fields::KIND != 2 {
        return false;
    }
    word / fields::PARTITIONING % 16 == form::OPEN
}

// Whether there is such a word.
pub(crate) fn has_open(plan: &[u32]) -> bool
    ensures { result ≡ list_any is_open plan.now }
{
    plan.iter().any(|word| is_open(*word))
}
