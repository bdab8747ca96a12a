// Where a block ends and what kind it is, by its first two bytes and without a judgement (document 01, 'Leaf and blocks').
ghost use Rattle.std.specs.Prelude.{◌≡◌};
ghost use Rattle.format.specs.Block.{is_extended, size_of, kind_of};

use super::chip::ROW_21041;
use super::{KIND_21041, KIND_COMPACT, sia_size};
use rom::ByteOffset;

// Whether the block is extended, for the chip at a row.
#[tactic(auto, unfolding(format::specs::Block::is_extended))]
pub fn is_extended(rest: &[u8], row: usize) -> bool
    ensures { result ≡ is_extended row rest.now }
{
    row != ROW_21041 && 128 <= rom::byte_at(rest, ByteOffset(0))
}

// How many bytes it has, its first one too.
#[tactic(auto, unfolding(crate::proofs::Computes::size_computes))]
pub fn size_at(rest: &[u8], row: usize) -> usize
    ensures { result ≡ size_of row rest.now }
{
    let first = rom::byte_at(rest, ByteOffset(0));
    if row == ROW_21041 {
        sia_size(first)
    } else if first < 128 {
        4
    } else {
        1 + usize::from(first % 128)
    }
}

#[tactic(auto, unfolding(format::specs::Block::kind_of, format::specs::Block::is_extended, rom::specs::Bytes::pick))]
pub fn kind_at(rest: &[u8], row: usize) -> u16
    ensures { result ≡ kind_of row rest.now }
{
    if row == ROW_21041 {
        KIND_21041
    } else if rom::byte_at(rest, ByteOffset(0)) < 128 {
        KIND_COMPACT
    } else {
        u16::from(rom::byte_at(rest, ByteOffset(1)))
    }
}
