// The serial ROM as every layer names it: its geometry, its bytes and words, and the refusal numbers.
#![tactic(auto)]

pub mod refusal;
pub mod store;

ghost use Rattle.std.specs.Prelude.{◌≡◌, ◌+◌, ◌*◌, ◌<◌, [], ◌∷◌};
ghost use Rattle.rom.specs.Geometry.{image_length, magic_at, magic_word, board_length, checked_length, leaves_end};
ghost use Rattle.rom.specs.Geometry.{most_controllers, is_size, wrong_length};
ghost use Rattle.rom.specs.Bytes.{byte_at, word_at, all_zero};
ghost use Rattle.rom.specs.Refusal.{◌⇒◌, first_met};
ghost use Rattle.rom.specs.Numbers.{answer_number};

pub use refusal::Refusal;

// ## Geometry (document 01, 'The image'; document 02, requests 1 and 6)

// How an image is laid out: its size in bytes, and whether a Magic Packet block stands in its last bytes. The caller says so.
#[repr(C)]
#[derive(Clone, Copy)]
pub struct Layout {
    pub size: u16,
    pub magic: bool,
}

// The two sizes, of parts of 1K and of 4K bits.
pub const SMALL_SIZE: u16 = 128;

pub const LARGE_SIZE: u16 = 512;

// The bytes of an image of the smaller size, and of the larger.
pub const SMALL_LENGTH: usize = SMALL_SIZE as usize;

pub const LARGE_LENGTH: usize = LARGE_SIZE as usize;

// A Magic Packet block is the image's last bytes.
pub const MAGIC_LENGTH: usize = 32;

// Whether an image can have so many bytes.
#[tactic(auto, unfolding(crate::specs::Geometry::is_size))]
fn is_size(size: usize) -> bool
    ensures { result ≡ is_size size }
{
    size == SMALL_LENGTH || size == LARGE_LENGTH
}

// Whether an image of that length is refused with 1: it is not the stated size, or that is none of the two.
#[tactic(auto, unfolding(crate::specs::Geometry::wrong_length, crate::specs::Geometry::is_size))]
pub fn is_wrong_length(size: u16, length: usize) -> bool
    ensures { result ≡ wrong_length size length }
{
    match length {
        SMALL_LENGTH => size != SMALL_SIZE,
        LARGE_LENGTH => size != LARGE_SIZE,
        _ => true,
    }
}

// The same as a call that is refused by it.
#[tactic(auto, unfolding(crate::specs::Refusal::first_met, crate::specs::Bytes::pick))]
pub fn check_length(size: u16, length: usize) -> Result<(), Refusal>
    ensures { answer_number result ≡ first_met ((1 ⇒ wrong_length size length) ∷ []) }
{
    if is_wrong_length(size, length) {
        return Err(Refusal::ImageLength);
    }
    Ok(())
}

// The bytes of an image of a stated size. One of neither size is refused before anything goes by it, and counts as the smaller.
#[tactic(auto, unfolding(crate::specs::Geometry::image_length, crate::specs::Bytes::pick))]
pub fn image_length(size: u16) -> usize
    ensures { result ≡ image_length size }
{
    let length = usize::from(size);
    if is_size(length) {
        length
    } else {
        SMALL_LENGTH
    }
}

// Where a Magic Packet block starts.
#[tactic(auto, using(crate::proofs::Layouts::sized), unfolding(crate::specs::Geometry::magic_at))]
pub fn magic_at(size: u16) -> usize
    ensures { result ≡ magic_at size }
{
    image_length(size) - MAGIC_LENGTH
}

#[tactic(auto, using(crate::proofs::Layouts::sized), unfolding(crate::specs::Geometry::magic_word))]
pub fn magic_word(size: u16) -> WordNumber
    ensures { result.0 ≡ magic_word size }
{
    WordNumber((magic_at(size) / 2) as u16)
}

impl Layout {
    // The board's part of an image: all of it, or what stands before the Magic Packet block.
    #[tactic(auto, unfolding(crate::specs::Geometry::board_length, crate::specs::Bytes::pick))]
    pub fn board_length(self) -> usize
        ensures { result ≡ board_length self }
    {
        if self.magic {
            magic_at(self.size)
        } else {
            image_length(self.size)
        }
    }

    // The bytes that the SROM CRC covers; it stands behind them, in the board's last word.
    #[tactic(auto, using(crate::proofs::Layouts::board_room), unfolding(crate::specs::Geometry::checked_length))]
    pub fn checked_length(self) -> usize
        ensures { result ≡ checked_length self }
    {
        self.board_length() - 2
    }

    // Leaves end, with all their blocks, before the maker's two bytes.
    #[tactic(auto, using(crate::proofs::Layouts::board_room), unfolding(crate::specs::Geometry::leaves_end))]
    pub fn leaves_end(self) -> usize
        ensures { result ≡ leaves_end self }
    {
        self.board_length() - 4
    }

    #[tactic(auto, unfolding(crate::specs::Geometry::most_controllers, crate::specs::Bytes::pick))]
    pub fn most_controllers(self) -> u8
        ensures { result ≡ most_controllers self }
    {
        if image_length(self.size) == SMALL_LENGTH && self.magic {
            20
        } else {
            32
        }
    }
}

pub const ID_CRC_AT: usize = 16;

// ID byte 17, behind the ID CRC.
pub const LAST_ID_AT: usize = 17;

pub const VERSION_AT: usize = 18;

pub const CONTROLLER_COUNT_AT: usize = 19;

// The base address, most significant byte first.
pub const ADDRESS_AT: usize = 20;

// Three bytes a controller: device number, leaf offset.
pub const CONTROLLERS_AT: usize = 26;

// No block, where a block's number is asked for: the last that a leaf can have is 254.
pub const NONE: u8 = 255;

// ## Bytes and words

// A byte's offset in the bytes at hand.
#[derive(Clone, Copy)]
pub struct ByteOffset(pub usize);

// A 16-bit word's number: word w covers bytes 2w and 2w+1.
#[derive(Clone, Copy)]
pub struct WordNumber(pub u16);

impl WordNumber {
    // Where the word's low byte stands.
    pub fn low_byte(self) -> ByteOffset
        ensures { result.0 ≡ 2 * self.0 }
    {
        ByteOffset(2 * usize::from(self.0))
    }

    // Where the word's high byte stands.
    pub fn high_byte(self) -> ByteOffset
        ensures { result.0 ≡ 2 * self.0 + 1 }
    {
        ByteOffset(2 * usize::from(self.0) + 1)
    }
}

// The byte at an offset, 0 past the end.
pub fn byte_at(bytes: &[u8], at: ByteOffset) -> u8
    ensures { result ≡ byte_at bytes.now at.0 }
{
    bytes.get(at.0).copied().unwrap_or(0)
}

// A byte as a count, 0 past the end.
pub fn count_at(bytes: &[u8], at: usize) -> usize
    ensures { (result ≡ byte_at bytes.now at) × (result < 256) }
{
    usize::from(byte_at(bytes, ByteOffset(at)))
}

// The word whose low byte stands at an offset, with zeros past the end.
pub fn word_at(bytes: &[u8], at: ByteOffset) -> u16
    ensures { result ≡ word_at bytes.now at.0 }
{
    if bytes.len() <= at.0 {
        return 0;
    }
    u16::from(byte_at(bytes, at)) + 256 * u16::from(byte_at(bytes, ByteOffset(at.0 + 1)))
}

// Whether all bytes are 0.
pub fn all_zero(bytes: &[u8]) -> bool
    ensures { result ≡ all_zero bytes.now }
{
    bytes.iter().all(|byte| *byte == 0)
}
