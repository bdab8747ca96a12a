// One block of an info leaf: its size, kind, media code or capabilities, flags and refusal (document 01, 'Leaf and blocks';
// document 02, requests 3, 5 and 12).
#![tactic(auto)]

pub mod chip;
pub mod shape;

ghost use Rattle.std.specs.Prelude.{◌≡◌, false, ℕ, ◌+◌, ◌≤◌, ◌<◌};
ghost use Rattle.rom.specs.Bytes.{byte_at, bit};
ghost use Rattle.rom.specs.Bytes.{is_in};
ghost use Rattle.format.specs.Chips.{row21041, newest_level, sia_codes, port_codes, sym_codes};
ghost use Rattle.format.specs.Block.{length_of, sia_size, counts_as_default, exceeds, length_for, is_wrong, sia, port, symbol};
ghost use Rattle.format.specs.Block.{phy, sequence};
ghost use Rattle.block.specs.Inside.{as_medium, as_power, judged, judged_as, phy_length};
ghost use Rattle.block.specs.Answer.{block_in, block_of, found_as, verdict_of, size_in, listed_in, mode_in};
ghost use Rattle.block.specs.Answer.{Reset};

use chip::{ROW_21041, is_permitted};
use rom::{ByteOffset, NONE, Refusal, count_at};

// The kind of a compact block. An extended block's kind is its type.
pub const KIND_COMPACT: u16 = 256;

// The kind of a 21041 block.
pub const KIND_21041: u16 = 257;

// How many extended types there are to know: 0 to 6.
pub const NEWEST_LEVEL: u8 = 7;

// Bits of a code byte and of a command word.
const EXT: u16 = 6;

const DEFAULT: u16 = 14;

const ACTIVE_INVALID: u16 = 15;

// What is said of a listed block, a medium or a PHY. A PHY has no media code, NONE, and a medium no capabilities, 0.
#[derive(Clone, Copy)]
pub struct Medium {
    pub kind: u16,
    pub size: usize,
    pub media_code: u8,
    pub capabilities: u16,
    pub active_invalid: bool,
    pub is_default: bool,
    pub resets_phy: bool,
}

// What a block is found to be. A size counts the first byte too.
#[derive(Clone, Copy)]
pub enum Block {
    Listed(Medium),
    Reset { size: usize },
    Power { size: usize, mode: u8 },
    Unknown { size: usize },
}

impl Block {
    // How far the next block is.
    pub fn size(self) -> usize
        ensures { result ≡ size_in (found_as self) }
    {
        match self {
            Block::Listed(medium) => medium.size,
            Block::Reset { size } | Block::Power { size, .. } | Block::Unknown { size } => size,
        }
    }

    // How many entries of the table it has: 1 where it is listed, else 0.
    pub fn entries(self) -> usize
        ensures { result ≡ listed_in (found_as self) }
    {
        usize::from(matches!(self, Block::Listed(_)))
    }

    // The mode byte of a power block; 0 where it is none.
    pub fn mode(self) -> u8
        ensures { result ≡ mode_in (found_as self) }
    {
        if let Block::Power { mode, .. } = self {
            mode
        } else {
            0
        }
    }
}

// Bit k of a word.
#[tactic(auto, unfolding(rom::specs::Bytes::bit))]
fn has_bit(k: u16, x: u16) -> bool
    requires { k < 16 }
    ensures { result ≡ bit k x }
{
    (x >> k) % 2 == 1
}

// The size of a 21041 block with this code byte: 7 with EXT, 1 without.
#[tactic(auto, unfolding(format::specs::Block::sia_size, rom::specs::Bytes::pick))]
pub fn sia_size(code: u8) -> usize
    ensures { (result ≡ sia_size code) × (result ≤ 7) }
{
    if has_bit(EXT, u16::from(code)) { 7 } else { 1 }
}

// Whether the Default bit counts: not with Active_Invalid, nor with the codes 4, 5, 8.
#[tactic(auto, unfolding(format::specs::Block::counts_as_default, format::specs::Chips::never_default, rom::specs::Bytes::is_in))]
fn counts_as_default(code: u8, command: u16) -> bool
    ensures { result ≡ counts_as_default code command }
{
    !has_bit(ACTIVE_INVALID, command) && !matches!(code, 4 | 5 | 8) && has_bit(DEFAULT, command)
}

// Whether a media code is one of the 21041's block and type 2.
#[tactic(auto, unfolding(format::specs::Chips::sia_codes, rom::specs::Bytes::is_in))]
fn is_sia_code(code: u8) -> bool
    ensures { result ≡ is_in code sia_codes }
{
    matches!(code, 0 | 1 | 2 | 4)
}

// Whether it is one of a compact block and type 0.
#[tactic(auto, unfolding(format::specs::Chips::port_codes, rom::specs::Bytes::is_in))]
fn is_port_code(code: u8) -> bool
    ensures { result ≡ is_in code port_codes }
{
    matches!(code, 0 | 1 | 3..=8)
}

// Whether it is one of type 4.
#[tactic(auto, unfolding(format::specs::Chips::sym_codes, rom::specs::Bytes::is_in))]
fn is_sym_code(code: u8) -> bool
    ensures { result ≡ is_in code sym_codes }
{
    matches!(code, 3 | 5..=8)
}

// Whether advertisement bits 9:5 have a 1 where capability bits 15:11 have none.
fn advertises_more(advertisement: u16, capabilities: u16) -> bool
    ensures { result ≡ exceeds advertisement capabilities }
{
    let wanted = advertisement / 32 % 32;
    let able = capabilities / 2048;
    wanted & able != wanted
}

// The 21041's block and type 2: code byte at `at`, EXT in its bit 6.
fn judge_sia(rest: &[u8], at: usize, kind: u16, size: usize) -> Result<Block, Refusal>
    ensures { verdict_of result ≡ as_medium kind size (sia false at rest.now) }
{
    let code = rom::byte_at(rest, ByteOffset(at));
    if 128 <= code {
        return Err(Refusal::BlockCode);
    }
    let media_code = code % 64;
    if !is_sia_code(media_code) {
        return Err(Refusal::BlockCode);
    }
    Ok(Block::Listed(Medium {
        kind,
        size,
        media_code,
        capabilities: 0,
        active_invalid: false,
        is_default: false,
        resets_phy: false,
    }))
}

// Compact and type 0: code byte, port data, command word from `at` on.
fn judge_port(rest: &[u8], at: usize, kind: u16, size: usize) -> Result<Block, Refusal>
    requires { at ≤ 2 }
    ensures { verdict_of result ≡ as_medium kind size (port false at rest.now) }
{
    let code = rom::byte_at(rest, ByteOffset(at));
    if 64 <= code {
        return Err(Refusal::BlockCode);
    }
    let media_code = code % 64;
    if !is_port_code(media_code) {
        return Err(Refusal::BlockCode);
    }
    let command = rom::word_at(rest, ByteOffset(at + 2));
    if command / 256 % 64 != 0 {
        return Err(Refusal::BlockCode);
    }
    let active_invalid = has_bit(ACTIVE_INVALID, command);
    let is_default = counts_as_default(media_code, command);
    Ok(Block::Listed(Medium {
        kind,
        size,
        media_code,
        capabilities: 0,
        active_invalid,
        is_default,
        resets_phy: false,
    }))
}

// Type 0, length 5: the compact form's four bytes.
fn judge_type_0(rest: &[u8], len: usize) -> Result<Block, Refusal>
    requires { (len ≡ length_of rest.now) × (len < 128) }
    ensures { verdict_of result ≡ as_medium 0 (1 + len) (port (is_wrong 0 rest.now) 2 rest.now) }
{
    if len != 5 {
        return Err(Refusal::BlockLength);
    }
    judge_port(rest, 2, 0, 1 + len)
}

// Type 2, length 6, or 12 if EXT.
fn judge_type_2(rest: &[u8], len: usize) -> Result<Block, Refusal>
    requires { (len ≡ length_of rest.now) × (len < 128) }
    ensures { verdict_of result ≡ as_medium 2 (1 + len) (sia (is_wrong 2 rest.now) 2 rest.now) }
{
    let size = sia_size(rom::byte_at(rest, ByteOffset(2)));
    if len != 5 + size {
        return Err(Refusal::BlockLength);
    }
    judge_sia(rest, 2, 2, 1 + len)
}

// Type 4, length 8: code byte, two words, command word.
fn judge_type_4(rest: &[u8], len: usize) -> Result<Block, Refusal>
    requires { (len ≡ length_of rest.now) × (len < 128) }
    ensures { verdict_of result ≡ as_medium 4 (1 + len) (symbol (is_wrong 4 rest.now) rest.now) }
{
    if len != 8 {
        return Err(Refusal::BlockLength);
    }
    let code = rom::byte_at(rest, ByteOffset(2));
    if 64 <= code {
        return Err(Refusal::BlockCode);
    }
    let media_code = code % 64;
    if !is_sym_code(media_code) {
        return Err(Refusal::BlockCode);
    }
    let command = rom::word_at(rest, ByteOffset(7));
    let active_invalid = has_bit(ACTIVE_INVALID, command);
    let is_default = counts_as_default(media_code, command);
    Ok(Block::Listed(Medium {
        kind: 4,
        size: 1 + len,
        media_code,
        capabilities: 0,
        active_invalid,
        is_default,
        resets_phy: false,
    }))
}

// Type 5, length 2r+2: r, r words.
fn judge_type_5(rest: &[u8], len: usize) -> Result<Block, Refusal>
    requires { (len ≡ length_of rest.now) × (len < 128) }
    ensures { verdict_of result ≡ judged (sequence (is_wrong 5 rest.now) 0) (Reset (1 + len)) }
{
    let resets = count_at(rest, 2);
    if len != 2 * resets + 2 {
        return Err(Refusal::BlockLength);
    }
    Ok(Block::Reset { size: 1 + len })
}

// Type 6, length 2g+3: a mode byte, which is not judged, g, g words.
fn judge_type_6(rest: &[u8], len: usize) -> Result<Block, Refusal>
    requires { (len ≡ length_of rest.now) × (len < 128) }
    ensures { verdict_of result ≡ as_power (1 + len) rest.now }
{
    let words = count_at(rest, 3);
    if len != 2 * words + 3 {
        return Err(Refusal::BlockLength);
    }
    let mode = rom::byte_at(rest, ByteOffset(2));
    Ok(Block::Power {
        size: 1 + len,
        mode,
    })
}

// Types 1 and 3, g and r counting units of one byte or two: length 12+g+r or 13+2g+2r. A count past the block's end asks for more than
// the block has.
fn judge_phy(rest: &[u8], len: usize, kind: u16, unit: usize) -> Result<Block, Refusal>
    requires len_value { (len ≡ length_of rest.now) × (len < 128) }
    requires unit_bound { (unit ≤ 2) × (length_for kind rest.now ≡ phy_length unit rest.now) }
    ensures { verdict_of result ≡ as_medium kind (1 + len) (phy (is_wrong kind rest.now) unit rest.now) }
{
    let general = unit * count_at(rest, 3);
    let resets = count_at(rest, 4 + general);
    let sequences = general + unit * resets;
    if len != 11 + unit + sequences {
        return Err(Refusal::BlockLength);
    }
    let capabilities = rom::word_at(rest, ByteOffset(5 + sequences));
    let advertisement = rom::word_at(rest, ByteOffset(7 + sequences));
    if advertises_more(advertisement, capabilities) {
        return Err(Refusal::Advertisement);
    }
    Ok(Block::Listed(Medium {
        kind,
        size: 1 + len,
        media_code: NONE,
        capabilities,
        active_invalid: false,
        is_default: false,
        resets_phy: 0 < resets,
    }))
}

// An extended block of a known and permitted type, by its fields.
fn judge_type(rest: &[u8], kind: u8, len: usize) -> Result<Block, Refusal>
    requires len_value { (len ≡ length_of rest.now) × (len < 128) }
    requires kind_lt_newest_level { kind < newest_level }
    ensures { verdict_of result ≡ judged_as kind (1 + len) rest.now }
{
    match kind {
        0 => judge_type_0(rest, len),
        1 => judge_phy(rest, len, 1, 1),
        2 => judge_type_2(rest, len),
        3 => judge_phy(rest, len, 3, 2),
        4 => judge_type_4(rest, len),
        5 => judge_type_5(rest, len),
        _ => judge_type_6(rest, len),
    }
}

// The extended block at the start of the rest of a leaf.
fn judge_extended(rest: &[u8], row: usize, level: u8) -> Result<Block, Refusal>
    requires { (row ≡ row21041 → ⊥) × (128 ≤ byte_at rest.now 0) }
    ensures { verdict_of result ≡ block_of row level rest.now }
{
    let len = count_at(rest, 0) % 128;
    if rest.len() <= len {
        return Err(Refusal::BlockEnd);
    }
    if len == 0 {
        return Err(Refusal::BlockType);
    }
    let kind = rest[1];
    if level <= kind {
        return Ok(Block::Unknown { size: 1 + len });
    }
    if !is_permitted(row, u16::from(kind)) {
        return Err(Refusal::BlockType);
    }
    judge_type(rest, kind, len)
}

// The compact block at the start of the rest of a leaf.
fn judge_compact(rest: &[u8], row: usize) -> Result<Block, Refusal>
    requires { (row ≡ row21041 → ⊥) × (byte_at rest.now 0 < 128) }
    ensures { (level : ℕ) → verdict_of result ≡ block_of row level rest.now }
{
    if rest.len() < 4 {
        return Err(Refusal::BlockEnd);
    }
    if !is_permitted(row, KIND_COMPACT) {
        return Err(Refusal::BlockType);
    }
    judge_port(rest, 0, KIND_COMPACT, 4)
}

// The 21041's block at the start of the rest of a leaf.
fn judge_21041(rest: &[u8]) -> Result<Block, Refusal>
    ensures { (level : ℕ) → verdict_of result ≡ block_of row21041 level rest.now }
{
    let size = sia_size(rom::byte_at(rest, ByteOffset(0)));
    if rest.len() < size {
        return Err(Refusal::BlockEnd);
    }
    judge_sia(rest, 0, KIND_21041, size)
}

// The block at the start of the rest of a leaf, for the chip at a row and a reader of a level.
pub fn judge_block(rest: &[u8], row: usize, level: u8) -> Result<Block, Refusal>
    ensures { verdict_of result ≡ block_of row level rest.now }
{
    if row == ROW_21041 {
        return judge_21041(rest);
    }
    if rom::byte_at(rest, ByteOffset(0)) < 128 {
        return judge_compact(rest, row);
    }
    judge_extended(rest, row, level)
}

// The same in an image of version 1, if it is one, which has no extended blocks.
pub fn judge_in(rest: &[u8], row: usize, level: u8, first_version: bool) -> Result<Block, Refusal>
    ensures { verdict_of result ≡ block_in first_version row level rest.now }
{
    if first_version && shape::is_extended(rest, row) {
        if rest.len() < shape::size_at(rest, row) {
            return Err(Refusal::BlockEnd);
        }
        return Err(Refusal::BlockType);
    }
    judge_block(rest, row, level)
}
