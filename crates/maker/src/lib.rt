// The sheet maker: the sheet of a tidy image (document 01, 'The sheet').
#![tactic(auto)]

mod blocks;
mod parts;
mod source;

ghost use Rattle.std.specs.Prelude.{◌≡◌, length};
ghost use Rattle.sheet.specs.Make.{made, made_for, made_of};

use reader::Arguments;
use rom::{Layout, Refusal};
use sheet::Form;
use source::ReadImage;

// The sheet of a tidy image for a chip, for the newest level and controller 0, read in the edition: its length. A refusal leaves
// the buffer as it was, and so stay its bytes past the sheet.
pub fn make(
    image: &[u8],
    chip: u16,
    form: Form,
    layout: Layout,
    first_edition: bool,
    buffer: &mut [u8],
) -> Result<usize, Refusal>
    ensures value { made_of result ≡ made_for form layout first_edition image.now chip (length buffer.old) }
    ensures buffer_after { buffer.new ≡ made form layout first_edition image.now chip buffer.old }
{
    if form.is_beyond(layout.size) {
        return Err(Refusal::ImageLength);
    }
    let arguments = Arguments {
        chip,
        controller: 0,
        level: block::NEWEST_LEVEL,
        layout,
        first_edition,
    };
    let reading = reader::judge(image, arguments)?;
    let source = ReadImage {
        bytes: image,
        chip,
        layout,
        first_edition,
        reading,
    };
    let measured = parts::measure(source.blocks());
    if !source.is_tidy(measured.end) {
        return Err(Refusal::Untidy);
    }
    let head = form.shift() + sheet::HEAD_LENGTH;
    let length = head + 3 * usize::from(reading.header.blocks) + measured.bodies;
    if buffer.len() < length {
        return Err(Refusal::ArrayLength);
    }
    source.put_sheet(buffer, form, measured.bodies as u16);
    Ok(length)
}
