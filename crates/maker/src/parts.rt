// A sheet's parts that go by blocks: the kind, body size and body of each.
ghost use Rattle.std.specs.Prelude.{◌≡◌, [], ◌∷◌, ◌+◌, ◌≤◌, ◌<◌, length};
ghost use Rattle.rom.specs.Store.{word_bytes, put};
ghost use Rattle.sheet.specs.Layout.{head_length};
ghost use Rattle.sheet.specs.Sheet.{body_bytes, parts_of};
ghost use Rattle.maker.specs.Blocks.{blocks_left, blocks_end, entries_in};

use super::blocks::Blocks;
use forms::LentEntry;

// Where blocks end, and how many bytes their bodies have.
#[derive(Clone, Copy)]
pub(crate) struct Measured {
    pub end: usize,
    pub bodies: usize,
}

pub(crate) fn measure(blocks: Blocks) -> Measured
    ensures end { result.end ≡ blocks_end blocks.entry }
    ensures bodies { result.bodies ≡ length (body_bytes (entries_in (blocks_left blocks.entry))) }
    ensures within { (result.end ≤ length blocks.entry.leaves.now) × (result.bodies ≤ result.end) }
{
    let mut measured = Measured {
        end: blocks.start,
        bodies: 0,
    };
    for (start, size, entry) in blocks {
        measured.end = start + size;
        measured.bodies += entry.body.len();
    }
    measured
}

// Lays in an entry's kind, its body's size and its body, each at its own place.
fn put_entry(sheet: &mut [u8], entry: LentEntry, kind_at: usize, size_at: usize, body_at: usize)
    requires kind_at_in_bounds { (kind_at + 2 ≤ length sheet.old) × (size_at + 1 ≤ length sheet.old) }
    requires body_in_bounds { (body_at + length entry.body.now ≤ length sheet.old) × (length entry.body.now < 256) }
    ensures { sheet.new ≡ put (put (put sheet.old kind_at (word_bytes entry.entry.kind)) size_at (length entry.entry.body.now ∷ []))
        body_at entry.entry.body.now }
{
    let [low, high] = entry.kind.to_le_bytes();
    sheet[kind_at] = low;
    sheet[kind_at + 1] = high;
    sheet[size_at] = entry.body.len() as u8;
    sheet[body_at..body_at + entry.body.len()].copy_from_slice(entry.body);
}

// The three parts behind a sheet's head, in one pass.
pub(crate) fn put_parts(sheet: &mut [u8], blocks: Blocks)
    requires { head_length + length (parts_of (entries_in (blocks_left blocks))) ≤ length sheet.old }
    ensures { sheet.new ≡ put sheet.old head_length (parts_of (entries_in (blocks_left blocks.entry))) }
{
    let count = usize::from(blocks.count);
    let mut kind_at = sheet::HEAD_LENGTH;
    let mut size_at = kind_at + 2 * count;
    let mut body_at = size_at + count;
    for (_, _, entry) in blocks {
        put_entry(sheet, entry, kind_at, size_at, body_at);
        kind_at += 2;
        size_at += 1;
        body_at += entry.body.len();
    }
}
