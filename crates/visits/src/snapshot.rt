// The snapshot that an accepted visit takes before it does anything else: of the cells that two or more desks may touch.
//     copied_cell, copy_shared     the word of one cell; all cells, by a table of masks
//     take_snapshot                with the table of question 6, or with one that is filled here
ghost use Rattle.std.specs.Prelude.{◌≡◌, cond, length, get_or, IfSome, is_some, ltb};
ghost use Rattle.plan.specs.Accepted.{the_plan};
ghost use Rattle.operation.specs.Store.{store_size};
ghost use Rattle.conflict.specs.Shared.{is_shared};
ghost use Rattle.visits.specs.Snapshot.{copied_by, snapshot_taken};

use conflict::MaskTable;
use operation::STORE_SIZE;
use plan::Plan;

// `held` if the mask is that of a cell that two or more desks may touch, else `shown`. Both are read before, so that compilers turn the
// walk into vector code.
fn copied_cell(mask: u8, held: u32, shown: u32) -> u32
    ensures { result ≡ cond (is_shared mask) held shown }
{
    if conflict::is_shared(mask) {
        held
    } else {
        shown
    }
}

// Copies the cells whose mask has two or more desks.
#[tactic(auto, using(crate::proofs::SharedCopied::copying_done))]
fn copy_shared(masks: &[u8], cells: &[u32], snapshot: &mut [u32])
    requires { (length masks.now ≡ store_size) × (length cells.now ≡ store_size) × (length snapshot.old ≡ store_size) }
    ensures { snapshot.new ≡ copied_by (λ c. get_or masks.now c 0) cells.now snapshot.old }
{
    for c in 0..STORE_SIZE {
        snapshot[c] = copied_cell(masks[c], cells[c], snapshot[c]);
    }
}

// Takes the snapshot. Just where requests wait, question 6 has filled the table of masks.
pub(crate) fn take_snapshot(
    plan: &Plan,
    waiting: u32,
    masks: Option<&MaskTable>,
    cells: &[u32],
    snapshot: &mut [u32],
)
    requires masks { IfSome masks (λ t. t.now.plan.words.now ≡ plan.now.words.now) }
    requires filled { is_some masks ≡ ltb 0 waiting }
    requires lengths { (length cells.now ≡ store_size) × (length snapshot.old ≡ store_size) }
    ensures { snapshot.new ≡ snapshot_taken (the_plan plan.now) cells.now snapshot.old }
{
    match masks {
        Some(filled) => copy_shared(&filled.masks, cells, snapshot),
        None => copy_shared(&MaskTable::fill(*plan).masks, cells, snapshot),
    }
}
