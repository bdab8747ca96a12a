// The media table of a leaf whose blocks are accepted, and an entry of it, found again.
ghost use Rattle.std.specs.Prelude.{◌≡◌, ◌+◌, ◌-◌, ◌≤◌, ◌<◌, length};
ghost use Rattle.rom.specs.Refusal.{first_met};
ghost use Rattle.block.specs.Answer.{found_as, block_of, listed_in, kind_in};
ghost use Rattle.format.specs.Block.{the_later_version, refusal_of};
ghost use Rattle.leaf.specs.Leaf.{cut, block_causes, kind_at, start_at, table_of};
ghost use Rattle.reader.specs.Table.{tabled, entry_part};
ghost use Rattle.reader.specs.Inside.{stored};

use super::Part;
use block::Block;

// The block at the start of the rest of a leaf whose blocks are accepted.
fn accepted_block(rest: &[u8], row: usize, level: u8) -> Block
    requires { refusal_of row level rest.now ≡ 0 }
    ensures { found_as result ≡ block_of row level rest.now }
{
    match block::judge_block(rest, row, level) {
        Ok(block) => block,
        Err(_) => unreachable!(),
    }
}

// Writes the entry of a block at an offset, if it has one, before the place free, and answers the next free place.
fn place(block: Block, at: usize, free: usize, kinds: &mut [u16], offsets: &mut [u16]) -> usize
    requires { (listed_in (found_as block) ≤ free) × (free ≤ length kinds.old) × (free ≤ length offsets.old) × (at < 65536) }
    ensures value { result ≡ free - listed_in (found_as block) }
    ensures kinds_after { kinds.new ≡ stored (kind_in (found_as block)) (found_as block) free kinds.old }
    ensures offsets_after { offsets.new ≡ stored at (found_as block) free offsets.old }
{
    let Block::Listed(medium) = block else {
        return free;
    };
    let next = free - 1;
    kinds[next] = medium.kind;
    offsets[next] = at as u16;
    next
}

// Writes the table of a leaf's accepted blocks, of which listed are listed, from the last to the first.
pub(crate) fn fill(
    blocks: &[u8],
    start: usize,
    count: u8,
    row: usize,
    level: u8,
    listed: usize,
    kinds: &mut [u16],
    offsets: &mut [u16],
)
    requires blocks_value { first_met (block_causes the_later_version row level (cut row count blocks.now)) ≡ 0 }
    requires listed_value { listed ≡ length (table_of row level count start blocks.now) }
    requires listed_in_bounds { (listed ≤ length kinds.old) × (listed ≤ length offsets.old) × (start + length blocks.now < 65536) }
    ensures kinds_after { kinds.new ≡ tabled (kind_at row) (table_of row level count start blocks.now) kinds.old }
    ensures offsets_after { offsets.new ≡ tabled start_at (table_of row level count start blocks.now) offsets.old }
{
    let mut rest = blocks;
    let mut at = start;
    let mut free = listed;
    for _passed in 0..count {
        let block = accepted_block(rest, row, level);
        free = place(block, at, free, kinds, offsets);
        let size = block.size();
        rest = &rest[size..];
        at += size;
    }
}

// The part of an entry of a leaf's accepted blocks, of which listed are listed; empty where there is no such entry.
// Entries count from the last block, so the wanted one is that with as many listed blocks behind it.
pub(crate) fn find(
    blocks: &[u8],
    start: usize,
    count: u8,
    row: usize,
    level: u8,
    listed: usize,
    entry: usize,
) -> Part
    requires blocks_value { first_met (block_causes the_later_version row level (cut row count blocks.now)) ≡ 0 }
    requires listed_value { (listed ≡ length (table_of row level count start blocks.now)) × (start + length blocks.now < 65536) }
    ensures { result ≡ entry_part row (table_of row level count start blocks.now) entry }
{
    if listed <= entry {
        return Part::EMPTY;
    }
    let mut rest = blocks;
    let mut at = start;
    let mut behind = listed;
    for _passed in 0..count {
        let block = accepted_block(rest, row, level);
        let size = block.size();
        behind -= block.entries();
        if behind == entry {
            return Part {
                start: at,
                length: size,
            };
        }
        rest = &rest[size..];
        at += size;
    }
    unreachable!()
}
