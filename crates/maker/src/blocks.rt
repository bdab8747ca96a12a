// The blocks of an accepted leaf, one after another, as the entries of a sheet. Blocks of unknown types are carried too.
ghost use Rattle.std.specs.Prelude.{◌≡◌, ◌≤◌, length, drop};
ghost use Rattle.sheet.specs.Image.{opening_length};
ghost use Rattle.maker.specs.Inside.{AcceptedBlocks};

use block::shape;
use forms::LentEntry;

// The blocks that are left: the image up to where leaves end, where the next block starts in it, how many they are, and the chip's row.
#[derive(Drop)]
pub(crate) struct Blocks<'a> {
    pub leaves: &'a [u8],
    pub start: usize,
    pub count: u8,
    pub row: usize,
    ghost inside: { start ≤ length leaves.now },
    ghost accepted: { AcceptedBlocks row count (drop start leaves.now) },
}

// Each block's start and size, and its entry.
impl<'a> Iterator for Blocks<'a> {
    ghost use Rattle.std.specs.Iterator.{YieldsFirstBy, item_count};
    ghost use Rattle.maker.specs.Blocks.{lent_block, blocks_left};

    type Item = (usize, usize, LentEntry<'a>);

    ghost next_gives = { YieldsFirstBy lent_block blocks_left };

    ghost remaining = { item_count blocks_left };

    fn next(&mut self) -> Option<(usize, usize, LentEntry<'a>)> {
        if self.count == 0 {
            return None;
        }
        let start = self.start;
        let rest = &self.leaves[start..];
        let size = shape::size_at(rest, self.row);
        let opening = opening_length(rest, self.row);
        let kind = shape::kind_at(rest, self.row);
        let body = &rest[opening..size];
        *self = Blocks {
            leaves: self.leaves,
            start: start + size,
            count: self.count - 1,
            row: self.row,
        };
        Some((start, size, LentEntry { kind, body }))
    }
}

// How many bytes stand before a block's body: the length and the type of an extended block.
#[tactic(auto, unfolding(sheet::specs::Image::opening_length, rom::specs::Bytes::pick))]
fn opening_length(rest: &[u8], row: usize) -> usize
    ensures { result ≡ opening_length row rest.now }
{
    if shape::is_extended(rest, row) { 2 } else { 0 }
}
