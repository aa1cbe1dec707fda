// What a desk does with the updates of the others in a received frame: they are applied to the store and sent on. A desk's own updates
// come back to it after a round and are dropped.
ghost use Rattle.std.specs.Prelude.{◌≡◌, ◌≤◌, ◌/◌, length, set};
ghost use Rattle.lists.specs.Lists.{overwritten};
ghost use Rattle.operation.specs.Store.{apply_update};
ghost use Rattle.frame.specs.Frame.{updates_words};
ghost use Rattle.frame.specs.Admission.{writes_from, updates_from};
ghost use Rattle.token.specs.Forward.{foreign, apply_all, foreign_words};

use word::fields;

// Puts the value into the cell. A cell past the store's end is passed over.
fn put_value(cells: &mut [u32], cell: usize, value: u32)
    ensures { cells.new ≡ set cells.old cell value }
{
    // By index: tried with get_mut, of which a proof learns the slice's length and no element.
    if cell < cells.len() {
        cells[cell] = value;
    }
}

// Applies the writes in these words to the store: pairs of a cell's word and its value.
fn apply_cells(words: &[u32], cells: &mut [u32])
    ensures { cells.new ≡ apply_update (writes_from (length words.now / 2) words.now) cells.old }
{
    for pair in words.chunks_exact(2) {
        put_value(cells, (pair[0] % 0x400) as usize, pair[1]);
    }
}

// Applies the others' updates in these words to the store, copies their words to the front of the outgoing words, and answers how many
// words it wrote.
pub fn forward_foreign(body: &[u32], desk: u32, cells: &mut [u32], out: &mut [u32]) -> usize
    requires { (body.now ≡ updates_words (updates_from 0 body.now)) × (length (foreign_words desk body.now) ≤ length out.old) }
    ensures applied { cells.new ≡ apply_all (foreign desk (updates_from 0 body.now)) cells.old }
    ensures words { result ≡ length (foreign_words desk body.now) }
    ensures written { out.new ≡ overwritten (foreign_words desk body.now) out.old }
{
    let mut end: usize = 0;
    let mut rest = body;
    while let Some(head) = rest.first() {
        let sender = head / fields::UPDATE_DESK % 16;
        let count = (head / fields::CELLS % 16) as usize;
        let (update, behind) = rest.split_at(1 + 2 * count);
        if sender != desk {
            apply_cells(&update[1..], cells);
            out[end..end + update.len()].copy_from_slice(update);
            end += update.len();
        }
        rest = behind;
    }
    end
}
