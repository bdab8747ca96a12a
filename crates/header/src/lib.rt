// An image's header, and the header of a controller's leaf (document 01, 'The image'; document 02, request 12).
#![tactic(auto)]

ghost use Rattle.std.specs.Prelude.{◌≡◌, [], ◌∷◌, false, not, ◌&&◌, ◌+◌, ◌^◌, ◌<◌, ◌≤◌, min, eqb, length};
ghost use Rattle.rom.specs.Geometry.{wrong_length, checked_length, id_crc_at, version_at};
ghost use Rattle.rom.specs.Bytes.{byte_at, word_at, is_in};
ghost use Rattle.rom.specs.Refusal.{◌⇒◌, first_met};
ghost use Rattle.rom.specs.Numbers.{answer_number};
ghost use Rattle.format.specs.Chips.{first_chips};
ghost use Rattle.checksum.specs.Crc.{srom_crc, id_crc};
ghost use Rattle.image.specs.Image.{versions, is_first_version, controller_count, reserved_at, base_address, header_length, control_byte};
ghost use Rattle.image.specs.Image.{up_to_leaves_end, bad_count, magic_causes, image_causes, argument_causes, leaf_header_causes};
ghost use Rattle.image.specs.Arguments.{row_for, leaf_for};
ghost use Rattle.header.specs.Header.{found_header, header_for, header_read, header_answer};

use block::chip;
pub use image::Arguments;
use rom::{ByteOffset, Layout, Refusal};

// Version 1, whose connection codes the caller's edition decides, and the later ones.
const FIRST_VERSION: u8 = 1;

const NEXT_VERSION: u8 = 3;

const LAST_VERSION: u8 = 4;

// What the header says of a controller's leaf. The row is the chip's, and start is where the first block stands.
#[derive(Clone, Copy)]
pub struct Header {
    pub row: usize,
    pub start: usize,
    pub connection: u16,
    pub control: u8,
    pub address: u64,
    pub blocks: u8,
}

// Whether the version is none that is read.
#[tactic(auto, unfolding(image::specs::Image::versions, rom::specs::Bytes::is_in))]
fn bad_version(image: &[u8]) -> bool
    ensures { result ≡ not (is_in (byte_at image.now version_at) versions) }
{
    !matches!(
        rom::byte_at(image, ByteOffset(rom::VERSION_AT)),
        FIRST_VERSION | NEXT_VERSION | LAST_VERSION,
    )
}

// Whether the image is of version 1.
pub fn is_first_version(image: &[u8]) -> bool
    ensures { result ≡ is_first_version image.now }
{
    rom::byte_at(image, ByteOffset(rom::VERSION_AT)) == FIRST_VERSION
}

// Whether edition 1.00 is read: the image is of version 1, and the caller names it.
fn is_first_edition(image: &[u8], named: bool) -> bool
    ensures { result ≡ (is_first_version image.now && named) }
{
    is_first_version(image) && named
}

// Whether the image is of version 1, which does not have the chip.
fn is_later_chip(image: &[u8], wanted: u16) -> bool
    ensures { result ≡ (is_first_version image.now && not (is_in wanted first_chips)) }
{
    is_first_version(image) && !chip::is_first_chip(wanted)
}

fn controller_count(image: &[u8]) -> u8
    ensures { result ≡ controller_count image.now }
{
    rom::byte_at(image, ByteOffset(rom::CONTROLLER_COUNT_AT))
}

// Where the reserved byte stands, behind the last controller.
fn reserved_at(image: &[u8]) -> usize
    ensures { (result ≡ reserved_at image.now) × (result < 1024) }
{
    rom::CONTROLLERS_AT + 3 * usize::from(controller_count(image))
}

// Whether the controller count is out of bounds, or the reserved byte is not 0.
#[tactic(auto, unfolding(image::specs::Image::bad_count))]
fn bad_count(image: &[u8], layout: Layout) -> bool
    ensures { result ≡ bad_count layout image.now }
{
    let count = controller_count(image);
    count == 0
        || layout.most_controllers() < count
        || rom::byte_at(image, ByteOffset(reserved_at(image))) != 0
}

// Refusal 3: the SROM CRC is not the stored one.
fn check_srom_crc(image: &[u8], layout: Layout) -> Result<(), Refusal>
    requires { wrong_length layout.size (length image.now) ≡ false }
    ensures { answer_number result
        ≡ first_met ((3 ⇒ not (eqb (word_at image.now (checked_length layout)) (srom_crc layout image.now))) ∷ []) }
{
    let stored = rom::word_at(image, ByteOffset(layout.checked_length()));
    if stored != crc::srom_crc(image, layout)? {
        return Err(Refusal::SromCrc);
    }
    Ok(())
}

// Refusal 4: the ID CRC is not the stored one.
fn check_id_crc(image: &[u8], size: u16) -> Result<(), Refusal>
    requires { wrong_length size (length image.now) ≡ false }
    ensures { answer_number result ≡ first_met ((4 ⇒ not (eqb (byte_at image.now id_crc_at) (id_crc image.now))) ∷ []) }
{
    let stored = rom::byte_at(image, ByteOffset(rom::ID_CRC_AT));
    if u16::from(stored) != crc::id_crc(image, size)? {
        return Err(Refusal::IdCrc);
    }
    Ok(())
}

// Refusals 29 and 30, of a Magic Packet block where the caller says that it is there.
#[tactic(auto, using(crate::proofs::Headers::magic_judged, crate::proofs::Headers::magic_untold))]
fn check_magic(image: &[u8], layout: Layout) -> Result<(), Refusal>
    requires { wrong_length layout.size (length image.now) ≡ false }
    ensures { answer_number result ≡ first_met (magic_causes layout image.now) }
{
    if layout.magic {
        magic::judge(image, layout.size)
    } else {
        Ok(())
    }
}

// Refusals 1 to 4, 29, 30 and 5, from the image alone.
fn check_image(image: &[u8], layout: Layout) -> Result<(), Refusal>
    ensures { answer_number result ≡ first_met (image_causes layout image.now) }
{
    rom::check_length(layout.size, image.len())?;
    if bad_version(image) {
        return Err(Refusal::Version);
    }
    check_srom_crc(image, layout)?;
    check_id_crc(image, layout.size)?;
    check_magic(image, layout)?;
    if bad_count(image, layout) {
        return Err(Refusal::ControllerCount);
    }
    Ok(())
}

// A byte of the address, as the number that it stands for.
fn address_byte(image: &[u8], k: usize) -> u64
    requires { k < 6 }
    ensures { (result ≡ byte_at image.now (20 + k)) × (result < 256) }
{
    u64::from(rom::byte_at(image, ByteOffset(rom::ADDRESS_AT + k)))
}

// The base address, byte 20 most significant.
fn base_address(image: &[u8]) -> u64
    ensures { (result ≡ base_address image.now) × (result < 2 ^ 48) }
{
    let high = 0x100_0000_0000 * address_byte(image, 0) + 0x1_0000_0000 * address_byte(image, 1);
    let middle = 0x100_0000 * address_byte(image, 2) + 0x1_0000 * address_byte(image, 3);
    let low = 0x100 * address_byte(image, 4) + address_byte(image, 5);
    high + middle + low
}

// Refusals 6, 7, 38, 8 and 9, from the arguments.
#[tactic(auto, using(crate::proofs::Headers::chip_tests), unfolding(crate::proofs::Computes::arguments_compute))]
fn check_arguments(image: &[u8], arguments: Arguments) -> Result<(), Refusal>
    ensures { answer_number result ≡ first_met (argument_causes image.now arguments) }
{
    if controller_count(image) <= arguments.controller {
        return Err(Refusal::Controller);
    }
    if chip::CHIP_COUNT <= chip::row_of(arguments.chip) {
        return Err(Refusal::Chip);
    }
    if is_later_chip(image, arguments.chip) {
        return Err(Refusal::FirstVersionChip);
    }
    if block::NEWEST_LEVEL < arguments.level {
        return Err(Refusal::Level);
    }
    if 0x1_0000_0000_0000 <= base_address(image) + u64::from(arguments.controller) {
        return Err(Refusal::Address);
    }
    Ok(())
}

// The bytes of a leaf before its blocks: the 21140 has a control byte.
#[tactic(auto, unfolding(image::specs::Image::header_length, rom::specs::Bytes::pick))]
pub fn header_length(row: usize) -> usize
    ensures { (result ≡ header_length row) × (3 ≤ result) × (result ≤ 4) }
{
    if row == chip::ROW_21140 { 4 } else { 3 }
}

// The control byte of a leaf, 0 but for the 21140.
#[tactic(auto, unfolding(image::specs::Image::control_byte, rom::specs::Bytes::pick))]
fn control_byte(image: &[u8], row: usize, leaf: usize) -> u8
    requires { leaf < 65536 }
    ensures { result ≡ control_byte image.now row leaf }
{
    if row == chip::ROW_21140 {
        rom::byte_at(image, ByteOffset(leaf + 2))
    } else {
        0
    }
}

// Refusals 10 and 11, from the header of the leaf.
#[tactic(auto, unfolding(crate::proofs::Computes::leaf_computes))]
fn check_leaf(
    image: &[u8],
    layout: Layout,
    first_edition: bool,
    row: usize,
    leaf: usize,
) -> Result<(), Refusal>
    requires { leaf < 65536 }
    ensures { answer_number result ≡ first_met (leaf_header_causes layout image.now first_edition row leaf) }
{
    if leaf <= reserved_at(image) || layout.leaves_end() < leaf + header_length(row) {
        return Err(Refusal::LeafHeader);
    }
    if !chip::is_read(first_edition, row, rom::word_at(image, ByteOffset(leaf))) {
        return Err(Refusal::ConnectionType);
    }
    Ok(())
}

// The header of the leaf at an offset, where nothing is refused.
fn header_at(image: &[u8], arguments: Arguments, row: usize, leaf: usize) -> Header
    requires { (row ≡ row_for arguments) × (leaf ≡ leaf_for image.now arguments) × (leaf < 65536) }
    ensures { header_read result ≡ found_header image.now arguments }
{
    let start = leaf + header_length(row);
    Header {
        row,
        start,
        connection: rom::word_at(image, ByteOffset(leaf)),
        control: control_byte(image, row, leaf),
        address: base_address(image) + u64::from(arguments.controller),
        blocks: rom::byte_at(image, ByteOffset(start - 1)),
    }
}

// The header, or the first of refusals 1 to 4, 29, 30, 5 to 7, 38 and 8 to 11.
pub fn read_header(image: &[u8], arguments: Arguments) -> Result<Header, Refusal>
    ensures { header_answer result ≡ header_for image.now arguments }
{
    check_image(image, arguments.layout)?;
    check_arguments(image, arguments)?;
    let row = chip::row_of(arguments.chip);
    let controller = usize::from(arguments.controller);
    let leaf_at = ByteOffset(rom::CONTROLLERS_AT + 3 * controller + 1);
    let leaf = usize::from(rom::word_at(image, leaf_at));
    let first_edition = is_first_edition(image, arguments.first_edition);
    check_leaf(image, arguments.layout, first_edition, row, leaf)?;
    Ok(header_at(image, arguments, row, leaf))
}

// The image from a byte on, up to where leaves end, as part of it: its bytes, and that they are the image's own, from that byte.
// Behind the image's end there are none.
pub fn up_to_leaves_end(image: &[u8], layout: Layout, start: usize) -> &[u8]
    ensures result_value { result.now ≡ up_to_leaves_end layout image.now start }
    ensures ref_ptr_value { result.ref_ptr ≡ (image.entry.ref_ptr.0, min start (length image.now) + image.entry.ref_ptr.1) }
{
    let length = image.len();
    let first = start.min(length);
    let end = layout.leaves_end().clamp(first, length);
    &image[first..end]
}
