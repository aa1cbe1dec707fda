// The updates in a frame: question 12 of their words.
ghost use Rattle.std.specs.Prelude.{◌≡◌, ◌≤◌};
ghost use Rattle.frame.specs.Admission.{update_formed, cell_formed, updates_admitted};

use word::fields;

// Question 12 of an update's word.
#[tactic(auto, unfolding(crate::specs::Admission::update_formed))]
fn update_formed(desks: u32, word: u32) -> bool
    ensures { result ≡ update_formed desks word }
{
    let desk = word / fields::UPDATE_DESK % 16;
    let cells = word / fields::CELLS % 16;
    word / fields::KIND == 10 && word::reserved_zero(word) && desk < desks && cells <= 12
}

// Question 12 of a cell's word.
#[tactic(auto, unfolding(crate::specs::Admission::cell_formed))]
fn cell_formed(word: u32) -> bool
    ensures { result ≡ cell_formed word }
{
    word / fields::KIND == 11 && word::reserved_zero(word)
}

// Question 12 of all the words between word 1 and the sums. `left` cells of the latest update are still to come.
#[tactic(auto, using(crate::proofs::Walking::walking))]
pub(crate) fn updates_admitted(desks: u32, body: &[u32]) -> bool
    requires { desks ≤ 8 }
    ensures { result ≡ updates_admitted desks body.now }
{
    let mut sent = [0u32; 8];
    let mut left: u32 = 0;
    let mut words = body.iter();
    while let Some(word) = words.next() {
        if left > 0 {
            if !cell_formed(*word) {
                return false;
            }
            if words.next().is_none() {
                return false;
            }
            left -= 1;
        } else {
            if !update_formed(desks, *word) {
                return false;
            }
            let desk = (word / fields::UPDATE_DESK % 16) as usize;
            if 32 <= sent[desk] {
                return false;
            }
            sent[desk] += 1;
            left = word / fields::CELLS % 16;
        }
    }
    left == 0
}
