// The converters: a sheet of one form becomes one of the other (document 02, request 7).
#![tactic(auto)]

ghost use Rattle.std.specs.Prelude.{◌≡◌, length};
ghost use Rattle.sheet.specs.declared.Form.TheVariants.{Narrow, Wide};
ghost use Rattle.sheet.specs.Make.{made_of};
ghost use Rattle.sheet.specs.Convert.{too_large, converted_for, converted_in};

use forms::RawSheet;
use rom::store::put_bytes;
use rom::{ByteOffset, Refusal};
use sheet::{Form, MOST_STATED};

// Whether a wide sheet's block count or total is over a byte.
#[tactic(auto, unfolding(sheet::specs::Convert::too_large))]
fn is_too_large(sheet: RawSheet) -> bool
    ensures { result ≡ too_large sheet.entry.form sheet.entry.bytes.now }
{
    sheet.form.is_wide() && (MOST_STATED < sheet.count() || MOST_STATED < sheet.total())
}

// The sheet in the other form: its length. A refusal leaves the buffer as it was, and so stay its bytes past the sheet.
fn convert(sheet: RawSheet, buffer: &mut [u8]) -> Result<usize, Refusal>
    ensures value { made_of result ≡ converted_for sheet.entry.form sheet.entry.bytes.now (length buffer.old) }
    ensures buffer_after { buffer.new ≡ converted_in sheet.entry.form sheet.entry.bytes.now buffer.old }
{
    if !sheet.is_sheet() {
        return Err(Refusal::Sheet);
    }
    if is_too_large(sheet) {
        return Err(Refusal::SheetTooLarge);
    }
    let content = &sheet.shifted()[sheet::ID_AT..];
    let to = sheet.form.other();
    let start = to.shift() + sheet::ID_AT;
    let length = start + content.len();
    if buffer.len() < length {
        return Err(Refusal::ArrayLength);
    }
    forms::put_counts(buffer, to, sheet.count(), sheet.total());
    put_bytes(buffer, ByteOffset(start), content);
    Ok(length)
}

// A narrow sheet becomes a wide one.
pub fn widen(sheet: &[u8], buffer: &mut [u8]) -> Result<usize, Refusal>
    ensures value { made_of result ≡ converted_for Narrow sheet.now (length buffer.old) }
    ensures buffer_after { buffer.new ≡ converted_in Narrow sheet.now buffer.old }
{
    convert(
        RawSheet {
            bytes: sheet,
            form: Form::Narrow,
        },
        buffer,
    )
}

// A wide sheet becomes a narrow one.
pub fn narrow(sheet: &[u8], buffer: &mut [u8]) -> Result<usize, Refusal>
    ensures value { made_of result ≡ converted_for Wide sheet.now (length buffer.old) }
    ensures buffer_after { buffer.new ≡ converted_in Wide sheet.now buffer.old }
{
    convert(
        RawSheet {
            bytes: sheet,
            form: Form::Wide,
        },
        buffer,
    )
}
