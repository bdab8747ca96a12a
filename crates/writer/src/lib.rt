// The writer: a sheet becomes an image (document 01, 'The sheet').
#![tactic(auto)]

mod counted;
mod entries;
mod leaf_writer;
mod parts;

ghost use Rattle.std.specs.Prelude.{◌≡◌, false, length};
ghost use Rattle.rom.specs.Geometry.{large_size, wrong_length, image_length};
ghost use Rattle.rom.specs.Refusal.{first_met};
ghost use Rattle.rom.specs.Numbers.{answer_number};
ghost use Rattle.sheet.specs.Sheet.{plain_from};
ghost use Rattle.sheet.specs.Image.{front_with, image_of};
ghost use Rattle.sheet.specs.Write.{stray_control, wrong_output, record_causes, write_number, written};
ghost use Rattle.writer.specs.Inside.{Writable, zeros, frame_of, with_id_crc, with_srom_crc, issue_number, issued};

use block::chip;
use counted::CountedSheet;
use forms::RawSheet;
use reader::Arguments;
use rom::store::{put_bytes, put_word};
use rom::{ByteOffset, Layout, Refusal};
use sheet::Form;

// The writer makes one controller.
const CONTROLLERS: u8 = 1;

// A control byte not 0 on a chip but the 21140.
#[tactic(auto, unfolding(sheet::specs::Write::stray_control))]
fn is_stray_control(row: usize, control: u8) -> bool
    ensures { result ≡ stray_control row control }
{
    row != chip::ROW_21140 && control != 0
}

// Refusals 7, 25 and 26, from what a sheet means.
fn check_record(sheet: CountedSheet, layout: Layout) -> Result<(), Refusal>
    ensures { answer_number result ≡ first_met (record_causes layout (plain_from sheet.entry.blocks sheet.entry.bytes.now)) }
{
    let row = sheet.row();
    if chip::CHIP_COUNT <= row {
        return Err(Refusal::Chip);
    }
    if is_stray_control(row, sheet.control()) {
        return Err(Refusal::SheetEntry);
    }
    let start = sheet::LEAF_START + header::header_length(row);
    entries::check_entries(sheet.lent_entries(), row, start, layout.leaves_end())
}

// What stands before the leaf, but for the ID CRC: one controller, and its leaf at 30.
fn front(sheet: CountedSheet) -> [u8; sheet::LEAF_START]
    ensures { result ≡ front_with 0 (plain_from sheet.entry.blocks sheet.entry.bytes.now) }
{
    let mut bytes = [0; sheet::LEAF_START];
    put_bytes(
        &mut bytes,
        ByteOffset(0),
        &sheet.bytes[sheet::ID_AT..sheet::SHEET_LAST_ID_AT],
    );
    put_bytes(
        &mut bytes,
        ByteOffset(rom::LAST_ID_AT),
        &sheet.bytes[sheet::SHEET_LAST_ID_AT..sheet::SHEET_ADDRESS_AT],
    );
    bytes[rom::CONTROLLER_COUNT_AT] = CONTROLLERS;
    put_bytes(
        &mut bytes,
        ByteOffset(rom::ADDRESS_AT),
        &sheet.bytes[sheet::SHEET_ADDRESS_AT..sheet::CHIP_AT],
    );
    put_word(
        &mut bytes,
        ByteOffset(sheet::LEAF_OFFSET_AT),
        sheet::LEAF_START as u16,
    );
    bytes
}

// Lays the board into zeros, but for its leaf and CRCs.
fn put_frame(image: &mut [u8], sheet: CountedSheet, layout: Layout)
    requires { image.old ≡ zeros (image_length layout.size) }
    ensures { image.new ≡ frame_of layout (front_with 0 (plain_from sheet.entry.blocks sheet.entry.bytes.now))
        (plain_from sheet.entry.blocks sheet.entry.bytes.now).maker }
{
    put_bytes(image, ByteOffset(0), &front(sheet));
    put_bytes(
        image,
        ByteOffset(layout.leaves_end()),
        &sheet.bytes[sheet::MAKER_AT..sheet::HEAD_LENGTH],
    );
}

// Lays in the ID CRC.
fn identify(image: &mut [u8], size: u16)
    requires { wrong_length size (length image.old) ≡ false }
    ensures { image.new ≡ with_id_crc image.old }
{
    let Ok(checksum) = crc::id_crc(image, size) else {
        unreachable!()
    };
    image[rom::ID_CRC_AT] = checksum as u8;
}

// Lays in the SROM CRC.
fn seal(image: &mut [u8], layout: Layout)
    requires { wrong_length layout.size (length image.old) ≡ false }
    ensures { image.new ≡ with_srom_crc layout image.old }
{
    let Ok(checksum) = crc::srom_crc(image, layout) else {
        unreachable!()
    };
    put_word(image, ByteOffset(layout.checked_length()), checksum);
}

// Lays the image of a sheet into zeros, with what an output holds behind the board: a Magic Packet block. The image from byte 30
// on is lent to the leaf writer.
fn build(image: &mut [u8], sheet: CountedSheet, layout: Layout, output: &[u8])
    requires { Writable layout sheet.blocks sheet.bytes.now output.now × (image.old ≡ zeros (image_length layout.size)) }
    ensures { image.new ≡ image_of layout (plain_from sheet.entry.blocks sheet.entry.bytes.now) output.now }
{
    put_frame(image, sheet, layout);
    identify(image, layout.size);
    leaf_writer::put_leaf(&mut image[sheet::LEAF_START..], sheet);
    seal(image, layout);
    let end = layout.board_length();
    put_bytes(image, ByteOffset(end), &output[end..]);
}

// Builds the image of a sheet in zeros, and writes it out where the newest reader, which judges it for controller 0 in the
// edition, accepts it.
fn issue(
    built: &mut [u8],
    sheet: CountedSheet,
    layout: Layout,
    first_edition: bool,
    image: &mut [u8],
) -> Result<(), Refusal>
    requires { Writable layout sheet.blocks sheet.bytes.now image.old × (built.old ≡ zeros (image_length layout.size)) }
    ensures value { answer_number result
        ≡ issue_number layout first_edition (plain_from sheet.entry.blocks sheet.entry.bytes.now) image.old }
    ensures image_after { image.new ≡ issued layout first_edition (plain_from sheet.entry.blocks sheet.entry.bytes.now) image.old }
{
    build(built, sheet, layout, image);
    let arguments = Arguments {
        chip: sheet.chip(),
        controller: 0,
        level: block::NEWEST_LEVEL,
        layout,
        first_edition,
    };
    reader::judge(built, arguments)?;
    put_bytes(image, ByteOffset(0), built);
    Ok(())
}

// Whether sheets of the form are not written to images of the stated size, or the output has another length.
#[tactic(auto, unfolding(sheet::specs::Write::wrong_output))]
fn is_wrong_output(form: Form, layout: Layout, length: usize) -> bool
    ensures { result ≡ wrong_output form layout length }
{
    form.is_beyond(layout.size) || rom::is_wrong_length(layout.size, length)
}

#[tactic(auto, unfolding(crate::specs::Inside::zeros))]
fn blank() -> [u8; rom::LARGE_LENGTH]
    ensures { result ≡ zeros large_size }
{
    [0; rom::LARGE_LENGTH]
}

// Writes the image of a sheet, or answers the first refusal and leaves the image as it was. Told of a Magic Packet block, it
// keeps the image's own. The newest reader judges the image, for controller 0 in the edition, before any of it is written out.
pub fn write(
    sheet: RawSheet,
    layout: Layout,
    first_edition: bool,
    image: &mut [u8],
) -> Result<(), Refusal>
    ensures value { answer_number result ≡ write_number sheet.entry.form layout first_edition sheet.entry.bytes.now image.old }
    ensures image_after { image.new ≡ written sheet.entry.form layout first_edition sheet.entry.bytes.now image.old }
{
    if !sheet.is_sheet() {
        return Err(Refusal::Sheet);
    }
    let Ok(blocks) = u8::try_from(sheet.count()) else {
        return Err(Refusal::SheetTooLarge);
    };
    if is_wrong_output(sheet.form, layout, image.len()) {
        return Err(Refusal::ImageLength);
    }
    let sheet = CountedSheet {
        bytes: sheet.shifted(),
        blocks,
    };
    check_record(sheet, layout)?;
    let mut room = blank();
    issue(
        &mut room[..image.len()],
        sheet,
        layout,
        first_edition,
        image,
    )
}
