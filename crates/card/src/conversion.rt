// `card widen` and `card narrow`: a sheet of one form to that of the other.
use crate::file::save;
use crate::place_of;
use crate::sheets::{in_other, show_lengths};
use console::arguments::{Complained, Words};
use console::status::Status;
use forms::RawSheet;
use hexadecimal::held;
use rom::Refusal;
use sheet::{Form, MOST_STATED};
use std::fs::File;
use std::rt::{Env, Files};
use text::line;
use text::line::say;
use text::slice::part;

// Two bytes more than a file that is read can have: a widened sheet has room, and 12 does not come.
const ROOM: usize = held::ROOM + 2;

// Where a sheet has the right length and sum in the form that it is to be converted to.
fn show_already(sheet: RawSheet) {
    let other = in_other(sheet);
    if other.is_sheet() {
        match other.form {
            Form::Wide => say(b"  it is a wide sheet already"),
            Form::Narrow => say(b"  it is a narrow sheet already"),
        }
    }
}

// How many blocks and body bytes a wide sheet has.
fn show_counts(sheet: RawSheet) {
    line::of(
        b"  # blocks with # bytes of bodies; a narrow sheet has up to # of each",
        [
            u64::from(sheet.count()),
            u64::from(sheet.total()),
            u64::from(MOST_STATED),
            0,
        ],
    )
    .print();
}

// Why a sheet is not converted.
fn show_refused(sheet: RawSheet, refusal: Refusal) {
    report::show_refusal(refusal.number());
    match refusal {
        Refusal::Sheet => {
            show_lengths(sheet);
            show_already(sheet);
        }
        Refusal::SheetTooLarge => show_counts(sheet),
        _ => {}
    }
}

// Writes a sheet of a form as one of the other, or says why there is none.
pub fn convert(
    rt: &(impl Files<File = File> + Env),
    bytes: &[u8],
    form: Form,
    words: &Words,
) -> Result<Status, Complained> {
    let mut room = [0; ROOM];
    let made = match form {
        Form::Narrow => converter::widen(bytes, &mut room),
        Form::Wide => converter::narrow(bytes, &mut room),
    };
    match made {
        Ok(length) => save(rt, part(&room, 0, length), place_of(words, 1)?, words.force),
        Err(refusal) => {
            show_refused(RawSheet { bytes, form }, refusal);
            Ok(Status::Refused)
        }
    }
}
