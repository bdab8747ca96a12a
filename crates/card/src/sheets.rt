// `card sheet` and `card write`: an image to its sheet, and a sheet to its image.
use crate::file::save;
use crate::{CardFile, layout_of, place_of};
use console::arguments::{Complained, Words};
use console::input;
use console::input::Input;
use console::status::Status;
use forms::RawSheet;
use hexadecimal::held;
use rom::{Layout, Refusal};
use sheet::{Form, MOST_STATED};
use std::fs::File;
use std::rt::{Env, Files};
use text::line;
use text::line::say;
use text::slice::{byte_at, part};

// More than the sheet of any image has.
const ROOM: usize = held::ROOM;

const SMALL: u64 = rom::SMALL_SIZE as u64;

const LARGE: u64 = rom::LARGE_SIZE as u64;

// ## An image to its sheet

// What keeps an image from being tidy.
fn show_untidy(image: &[u8], layout: Layout) {
    let controllers = byte_at(image, rom::CONTROLLER_COUNT_AT);
    let leaf = report::leaf_of(image, 0);
    if controllers != 1 {
        line::of(
            b"  controller count, byte 19: #, where a sheet's image has 1",
            [u64::from(controllers), 0, 0, 0],
        )
        .print();
    } else if usize::from(leaf) != sheet::LEAF_START {
        line::of(
            b"  leaf offset, bytes 27 and 28: #, where a sheet's image has 30",
            [u64::from(leaf), 0, 0, 0],
        )
        .print();
    } else {
        line::of(
            b"  a byte behind the leaf's last, before byte #, is not 0",
            [layout.leaves_end() as u64, 0, 0, 0],
        )
        .print();
    }
}

// Narrow sheets keep to the smaller size.
fn show_narrow_length(image: &[u8]) {
    line::of(
        b"  the image has # bytes; narrow sheets keep to size #, --wide serves #",
        [image.len() as u64, SMALL, LARGE, 0],
    )
    .print();
}

// Why there is no sheet of a form of a card.
fn show_unmade(file: &CardFile, form: Form, refusal: Refusal) {
    match refusal {
        Refusal::Untidy => {
            report::show_refusal(refusal.number());
            show_untidy(&file.image, file.arguments.layout);
        }
        Refusal::ImageLength if form == Form::Narrow => {
            report::show_refused_reading(file.arguments, file.given, refusal.number());
            show_narrow_length(&file.image);
        }
        _ => report::show_refused(file.card(), file.given, refusal.number()),
    }
}

// Makes the sheet of a card, as the newest reader reads it for controller 0.
pub fn make(
    rt: &(impl Files<File = File> + Env),
    file: &CardFile,
    words: &Words,
) -> Result<Status, Complained> {
    let form = Form::from(words.wide);
    let mut room = [0; ROOM];
    let made = maker::make(
        &file.image,
        file.arguments.chip,
        form,
        file.arguments.layout,
        file.arguments.first_edition,
        &mut room,
    );
    match made {
        Ok(length) => save(rt, part(&room, 0, length), place_of(words, 2)?, words.force),
        Err(refusal) => {
            show_unmade(file, form, refusal);
            Ok(Status::Refused)
        }
    }
}

// ## A sheet to its image

// The same bytes in the other form.
pub(crate) fn in_other<'a>(sheet: RawSheet<'a>) -> RawSheet<'a> {
    RawSheet {
        form: sheet.form.other(),
        ..sheet
    }
}

// How many bytes a sheet has, and how many its counts ask for. Where those are as many, the sum is wrong.
pub(crate) fn show_lengths(sheet: RawSheet) {
    let count = u64::from(sheet.count());
    let total = u64::from(sheet.total());
    let length = sheet.bytes.len() as u64;
    let head = (sheet.form.shift() + sheet::HEAD_LENGTH) as u64;
    let asked = head + 3 * count + total;
    line::of(
        b"  it has # bytes; # blocks with # bytes of bodies ask for #",
        [length, count, total, asked],
    )
    .print();
    if length == asked {
        line::of(b"  the sum of its sizes is not #", [total, 0, 0, 0]).print();
    }
}

// A sheet, and what is asked for beside it: the image's layout, and the edition that an image of version 1 is of.
#[derive(Clone, Copy)]
struct Asked<'a> {
    sheet: RawSheet<'a>,
    layout: Layout,
    first_edition: bool,
}

impl Asked<'_> {
    // Writes the sheet to an image, which a refusal leaves as it was.
    fn write(self, image: &mut [u8]) -> Result<(), Refusal> {
        writer::write(self.sheet, self.layout, self.first_edition, image)
    }

    // Whether it is written to an image of the larger size.
    fn is_written_larger(self) -> bool {
        let layout = Layout {
            size: rom::LARGE_SIZE,
            ..self.layout
        };
        let larger = Asked { layout, ..self };
        larger.write(&mut [0; rom::LARGE_LENGTH]).is_ok()
    }

    // Whether it is written over an image in the other edition.
    fn is_written_in_other(self, mut image: Input) -> bool {
        let other = Asked {
            first_edition: !self.first_edition,
            ..self
        };
        other.write(&mut image).is_ok()
    }

    // Where a sheet that is none of its form has the right length and sum in the other. Nobody at a bench knows the form
    // beforehand.
    fn show_other_form(self) {
        let other = in_other(self.sheet);
        if other.is_sheet() {
            match other.form {
                Form::Narrow => say(b"  it is a narrow sheet: write it without --wide"),
                Form::Wide => say(b"  it is a wide sheet: write it with --wide"),
            }
        }
    }

    // What is wrong with the image whose block is kept, or with the size that is asked for. Narrow sheets keep to the smaller.
    fn show_output(self, image: &[u8]) {
        let beyond = self.sheet.form.is_beyond(self.layout.size);
        if self.layout.magic {
            report::show_length(image);
        } else if !beyond {
            line::of(b"  a ROM has # or # bytes", [SMALL, LARGE, 0, 0]).print();
        }
        if beyond {
            line::of(
                b"  narrow sheets keep to size #; for # widen it, and write it with --wide",
                [SMALL, LARGE, 0, 0],
            )
            .print();
        }
    }

    // Where leaves end; and where the sheet's leaf has room in the larger size, that it has.
    fn show_leaf_end(self) {
        report::show_leaves_end(self.layout);
        if self.is_written_larger() {
            line::of(b"  accepted with --size #", [LARGE, 0, 0, 0]).print();
        }
    }

    // A connection type that is not read; and where it is in the other edition, that it is.
    fn show_unread(self, image: Input) {
        say(b"  in the image that the sheet asks for");
        if self.is_written_in_other(image) {
            report::show_other_edition(self.first_edition);
        }
    }

    // What a refusal of the image that the sheet asks for is about, over one that is left as it was.
    fn show_image(self, image: Input, refusal: Refusal) {
        match refusal {
            Refusal::ImageLength => self.show_output(&image),
            Refusal::SheetEntry => {}
            Refusal::LeafEnd => self.show_leaf_end(),
            Refusal::ConnectionType => self.show_unread(image),
            Refusal::MagicCrc | Refusal::MagicReserved => {
                report::show_magic_field(&image, self.layout.size, refusal.number());
            }
            _ => say(b"  in the image that the sheet asks for"),
        }
    }

    // Why there is no image of the sheet over one that is left as it was, whose size may have been given.
    fn show_refused(self, image: Input, given: bool, refusal: Refusal) {
        match refusal {
            Refusal::Sheet => {
                report::show_refusal(refusal.number());
                show_lengths(self.sheet);
                self.show_other_form();
            }
            Refusal::SheetTooLarge => {
                report::show_refusal(refusal.number());
                let count = u64::from(self.sheet.count());
                line::of(
                    b"  # blocks; a leaf has up to #",
                    [count, u64::from(MOST_STATED), 0, 0],
                )
                .print();
            }
            _ => {
                report::show_refused_size(refusal.number(), given, self.layout.size);
                self.show_image(image, refusal);
            }
        }
    }
}

// What an image is written over: the image that a word names, whose block is kept, or zeros.
fn output_of(rt: &(impl Files + std::io::Input + Env), words: &Words) -> Result<Input, Complained> {
    if let Some(place) = words.from {
        return input::read_file(rt, place);
    }
    let mut zeros = Input::from([0; held::ROOM]);
    zeros.truncate(rom::image_length(words.size.unwrap_or(rom::SMALL_SIZE)));
    Ok(zeros)
}

// Writes the image of a sheet.
pub fn write(
    rt: &(impl Files<File = File> + std::io::Input + Env),
    sheet: &[u8],
    words: &Words,
) -> Result<Status, Complained> {
    let mut image = output_of(rt, words)?;
    let asked = Asked {
        sheet: RawSheet {
            bytes: sheet,
            form: Form::from(words.wide),
        },
        layout: layout_of(words, image.len()),
        first_edition: words.first_edition.unwrap_or(false),
    };
    match asked.write(&mut image) {
        Ok(()) => save(rt, &image, place_of(words, 1)?, words.force),
        Err(refusal) => {
            asked.show_refused(image, words.size.is_some(), refusal);
            Ok(Status::Refused)
        }
    }
}
