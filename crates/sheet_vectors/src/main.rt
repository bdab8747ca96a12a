// Each sheet on standard input, written and made again or converted: the image and the sheet in hexadecimal, a line each, or a
// refusal; of an output that is refused for its size a sheet is asked too. A record is words, the sheet's length, the stated
// size, the length of the buffer for a sheet and the chip; then bytes, the form (1 wide, 0 narrow), the call (1 converted, 0
// written), the layout (1 with a Magic Packet block, 0 without), whether the output has the larger size (1) or the smaller (0),
// the edition (1 for 1.00, 0 for 1.01), and the block that the output holds before; then the sheet's bytes.
#![tactic(auto)]

use forms::RawSheet;
use rom::store::put_bytes;
use rom::{ByteOffset, Layout, Refusal};
use sheet::Form;
use text::slice::{part, word_at};
use vectors::{Record, print, print_bytes};

// The bytes of a record before the block.
const BLOCK_AT: usize = 13;

// The bytes of a record before the sheet's.
const HEAD: usize = BLOCK_AT + rom::MAGIC_LENGTH;

fn print_line(bytes: &[u8]) {
    print_bytes(bytes);
    print(b"\n");
}

fn print_refused(refusal: Refusal) {
    vectors::print_refusal(refusal);
    print(b"\n");
}

fn print_made(buffer: &[u8], made: Result<usize, Refusal>) {
    match made {
        Ok(length) => print_line(part(buffer, 0, length)),
        Err(refusal) => print_refused(refusal),
    }
}

fn convert(sheet: RawSheet, buffer: &mut [u8]) -> Result<usize, Refusal> {
    match sheet.form {
        Form::Narrow => converter::widen(sheet.bytes, buffer),
        Form::Wide => converter::narrow(sheet.bytes, buffer),
    }
}

// The sheet written to an image of a size, as a record's head says, and the sheet of that image again.
fn print_written(head: &[u8; HEAD], sheet: RawSheet, image: &mut [u8], buffer: &mut [u8]) {
    let chip = word_at(head, 6);
    let layout = Layout {
        size: word_at(head, 2),
        magic: head[10] == 1,
    };
    let first_edition = head[12] == 1;
    let written = writer::write(sheet, layout, first_edition, image);
    match written {
        Ok(()) => print_line(image),
        Err(refusal) => print_refused(refusal),
    }
    if matches!(written, Ok(()) | Err(Refusal::ImageLength)) {
        let made = maker::make(image, chip, sheet.form, layout, first_edition, buffer);
        print_made(buffer, made);
    }
}

// Over an image of a size that has the block of a record's head.
fn print_over(head: &[u8; HEAD], sheet: RawSheet, size: u16, image: &mut [u8], buffer: &mut [u8]) {
    put_bytes(image, ByteOffset(rom::magic_at(size)), &head[BLOCK_AT..]);
    print_written(head, sheet, image, buffer);
}

fn print_record(head: &[u8; HEAD], sheet: RawSheet, buffer: &mut [u8]) {
    if head[9] == 1 {
        let made = convert(sheet, buffer);
        print_made(buffer, made);
    } else if head[11] == 1 {
        let mut image = [0; rom::LARGE_LENGTH];
        print_over(head, sheet, rom::LARGE_SIZE, &mut image, buffer);
    } else {
        let mut image = [0; rom::SMALL_LENGTH];
        print_over(head, sheet, rom::SMALL_SIZE, &mut image, buffer);
    }
}

// A record, with as much of a buffer as it lends.
fn print_lent(record: &Record<HEAD>) {
    let head = &record.head;
    let sheet = RawSheet {
        bytes: &record.rest,
        form: Form::from(head[8] == 1),
    };
    let mut buffer = io::buffer();
    let room = usize::from(word_at(head, 4));
    if room <= buffer.len() {
        print_record(head, sheet, &mut buffer[..room]);
    }
}

fn main() {
    for _ in 0..vectors::RECORDS {
        let Some(record) = vectors::next_record::<HEAD>() else {
            return;
        };
        print_lent(&record);
    }
}
