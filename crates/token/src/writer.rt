// Writing frames: an update into what is left of the outgoing words, the seal around the updates, and the starting frame.
ghost use Rattle.std.specs.Prelude.{◌≡◌, ◌+◌, ◌≤◌, length};
ghost use Rattle.verdict.specs.Verdict.{verdict_of};
ghost use Rattle.lists.specs.Lists.{overwritten};
ghost use Rattle.execution.specs.Answer.{update_of};
ghost use Rattle.frame.specs.Frame.{sent, frame_head, update_head, cell_word, update_words};
ghost use Rattle.token.specs.Writing.{sealed_at, start_verdict, start_words};

use execution::Update;
use frame::LEAST_FRAME;
use verdict::Refusal;
use word::fields;

// Word 0 of a frame: kind 9.
fn frame_head(desk: u32, words: usize) -> u32
    ensures { result ≡ frame_head desk words }
{
    0x9000_0000 + (desk % 16 * fields::ADDRESSED + (words % 0x1_0000) as u32)
}

// An update's word: kind 10.
fn update_head(desk: u32, cells: usize) -> u32
    ensures { result ≡ update_head desk cells }
{
    0xa000_0000 + (desk % 16 * fields::UPDATE_DESK + (cells % 16) as u32 * fields::CELLS)
}

// A cell's word: kind 11.
fn cell_word(cell: u32) -> u32
    ensures { result ≡ cell_word cell }
{
    0xb000_0000 + cell % 0x400
}

// Writes the update at the front of what is left of the outgoing words, and answers how many words it wrote.
pub fn write_update(out: &mut [u32], desk: u32, update: &Update) -> usize
    requires { length (update_words (sent desk (update_of update.now))) ≤ length out.old }
    ensures words { result ≡ length (update_words (sent desk (update_of update.now))) }
    ensures written { out.new ≡ overwritten (update_words (sent desk (update_of update.now))) out.old }
{
    // By index: tried with chunks_exact_mut and zip, in whose loop an invariant cannot name the words that are written.
    let pairs = update.as_slice();
    out[0] = update_head(desk, pairs.len());
    let mut end: usize = 1;
    for (cell, value) in pairs {
        out[end] = cell_word(*cell);
        out[end + 1] = *value;
        end += 2;
    }
    end
}

// Makes a frame of the updates that stand in the outgoing words from word 2 up to `end`: writes words 0 and 1, and the sums.
pub fn seal(out: &mut [u32], desk: u32, visit: u32, end: usize)
    requires { (2 ≤ end) × (end + 2 ≤ length out.old) }
    ensures { out.new ≡ sealed_at desk visit end out.old }
{
    out[0] = frame_head(desk, end + 2);
    out[1] = visit;
    let sums = frame::frame_sums(&out[..end]);
    out[end] = sums.first;
    out[end + 1] = sums.second;
}

// The starting frame, visit 0 with no update. Question 5: at least its 4 words.
pub fn starting_frame(out: &mut [u32]) -> Result<(), Refusal>
    ensures answer { verdict_of result ≡ start_verdict out.old }
    ensures written { out.new ≡ start_words out.old }
{
    if out.len() < LEAST_FRAME {
        return Err(Refusal::WrongSize);
    }
    seal(out, 0, 0, 2);
    Ok(())
}
