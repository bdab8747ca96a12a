// The C interface: every call that a driver links, under a name that begins `srom_`.
#![tactic(auto)]

ghost use Rattle.std.specs.Prelude.{◌≡◌, length};
ghost use Rattle.rom.specs.Numbers.{answer_number};
ghost use Rattle.checksum.specs.Answer.{srom_answer, id_answer, magic_answer};
ghost use Rattle.packet.specs.Answer.{magic_reading, magic_write_number, magic_written};
ghost use Rattle.reader.specs.Reading.{read_answer, read_kinds, read_offsets, part_for};
ghost use Rattle.walk.specs.Walk.{fresh_walk, load_for, look_for, clear_for};
ghost use Rattle.sheet.specs.Write.{write_number, written};
ghost use Rattle.sheet.specs.declared.Form.TheVariants.{Narrow, Wide};
ghost use Rattle.sheet.specs.Form.{form_named};
ghost use Rattle.sheet.specs.Make.{made, made_for};
ghost use Rattle.sheet.specs.Convert.{converted_for, converted_in};

use checksum::Checksum;
use forms::RawSheet;
use packet::{Magic, MagicAnswer};
use reader::{Answer, Arguments, Part};
use rom::{Layout, Refusal};
use sheet::{Form, Made};
use walk::{Walk, Walked};

// The number of what a call answers that gives nothing else: a refusal's, or 0.
fn number_of(answer: Result<(), Refusal>) -> u8
    ensures { result ≡ answer_number answer }
{
    match answer {
        Ok(()) => 0,
        Err(refusal) => refusal.number(),
    }
}

// The CRC that the last word of an image's board should hold.
#[unsafe(no_mangle)]
pub extern "C" fn srom_crc(image: &[u8], layout: Layout) -> Checksum
    ensures { result ≡ srom_answer layout image.now }
{
    crc::srom_crc(image, layout).into()
}

// The CRC that byte 16 of an image should hold.
#[unsafe(no_mangle)]
pub extern "C" fn srom_id_crc(image: &[u8], size: u16) -> Checksum
    ensures { result ≡ id_answer size image.now }
{
    crc::id_crc(image, size).into()
}

// The CRC that the last byte but one of an image with a Magic Packet block should hold.
#[unsafe(no_mangle)]
pub extern "C" fn srom_magic_crc(image: &[u8], size: u16) -> Checksum
    ensures { result ≡ magic_answer size image.now }
{
    crc::magic_crc(image, size).into()
}

// The media table of a controller's leaf, in two lent arrays.
#[unsafe(no_mangle)]
pub extern "C" fn srom_read(
    image: &[u8],
    arguments: Arguments,
    kinds: &mut [u16],
    offsets: &mut [u16],
) -> Answer
    ensures value { result ≡ read_answer image.now arguments (length kinds.old) (length offsets.old) }
    ensures kinds_after { kinds.new ≡ read_kinds image.now arguments kinds.old offsets.old }
    ensures offsets_after { offsets.new ≡ read_offsets image.now arguments kinds.old offsets.old }
{
    reader::read(image, arguments, kinds, offsets).into()
}

// The block of an entry, as where it starts in the image and how long it is: the part that the Rattle view hands back.
#[unsafe(no_mangle)]
pub extern "C" fn srom_view(image: &[u8], arguments: Arguments, entry: usize) -> Part
    ensures { result ≡ part_for image.now arguments entry }
{
    reader::view_part(image, arguments, entry)
}

// A fresh walk.
#[unsafe(no_mangle)]
pub extern "C" fn srom_fresh() -> Walk
    ensures { result ≡ fresh_walk }
{
    autosense::fresh()
}

// Loads a walk with the leaf that the arguments name.
#[unsafe(no_mangle)]
pub extern "C" fn srom_load(walk: Walk, image: &[u8], arguments: Arguments) -> Walked
    ensures { result ≡ load_for walk image.now arguments }
{
    autosense::load(walk, image, arguments)
}

// Looks at the links, one byte a block.
#[unsafe(no_mangle)]
pub extern "C" fn srom_look(walk: Walk, report: &[u8]) -> Walked
    ensures { result ≡ look_for walk report.now }
{
    autosense::look(walk, report)
}

// Makes a walk fresh.
#[unsafe(no_mangle)]
pub extern "C" fn srom_clear(walk: Walk) -> Walked
    ensures { result ≡ clear_for walk }
{
    autosense::clear(walk)
}

// What the Magic Packet block of an image says.
#[unsafe(no_mangle)]
pub extern "C" fn srom_read_magic(image: &[u8], size: u16) -> MagicAnswer
    ensures { result ≡ magic_reading size image.now }
{
    magic::read(image, size).into()
}

// Writes the Magic Packet block of an image.
#[unsafe(no_mangle)]
pub extern "C" fn srom_write_magic(magic: Magic, image: &mut [u8], size: u16) -> u8
    ensures value { result ≡ magic_write_number size image.old }
    ensures image_after { image.new ≡ magic_written size magic image.old }
{
    number_of(magic::write(magic, image, size))
}

// Writes the image of a sheet.
#[unsafe(no_mangle)]
pub extern "C" fn srom_write(
    sheet: &[u8],
    wide: bool,
    layout: Layout,
    first_edition: bool,
    image: &mut [u8],
) -> u8
    ensures value { result ≡ write_number (form_named wide) layout first_edition sheet.now image.old }
    ensures image_after { image.new ≡ written (form_named wide) layout first_edition sheet.now image.old }
{
    let sheet = RawSheet {
        bytes: sheet,
        form: Form::from(wide),
    };
    number_of(writer::write(sheet, layout, first_edition, image))
}

// Makes the sheet of a tidy image.
#[unsafe(no_mangle)]
pub extern "C" fn srom_make_sheet(
    image: &[u8],
    chip: u16,
    wide: bool,
    layout: Layout,
    first_edition: bool,
    buffer: &mut [u8],
) -> Made
    ensures value { result ≡ made_for (form_named wide) layout first_edition image.now chip (length buffer.old) }
    ensures buffer_after { buffer.new ≡ made (form_named wide) layout first_edition image.now chip buffer.old }
{
    maker::make(image, chip, Form::from(wide), layout, first_edition, buffer).into()
}

// Makes a narrow sheet wide.
#[unsafe(no_mangle)]
pub extern "C" fn srom_widen(sheet: &[u8], buffer: &mut [u8]) -> Made
    ensures value { result ≡ converted_for Narrow sheet.now (length buffer.old) }
    ensures buffer_after { buffer.new ≡ converted_in Narrow sheet.now buffer.old }
{
    converter::widen(sheet, buffer).into()
}

// Makes a wide sheet narrow.
#[unsafe(no_mangle)]
pub extern "C" fn srom_narrow(sheet: &[u8], buffer: &mut [u8]) -> Made
    ensures value { result ≡ converted_for Wide sheet.now (length buffer.old) }
    ensures buffer_after { buffer.new ≡ converted_in Wide sheet.now buffer.old }
{
    converter::narrow(sheet, buffer).into()
}
