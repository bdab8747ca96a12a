// `card magic`: an image with a new Magic Packet block.
use crate::file::save;
use crate::{layout_of, place_of};
use console::arguments::{Complained, Words};
use console::input::Input;
use console::status::Status;
use rom::Layout;
use std::fs::File;
use std::rt::{Env, Files};
use text::line::say;

// The block as it is now, and whether the board leaves room for it.
fn show(image: &[u8], size: u16) {
    if let Ok(magic) = magic::read(image, size) {
        report::show_magic(magic);
    }
    let layout = Layout { size, magic: true };
    if !report::has_srom_crc(image, layout) {
        say(b"The card is not laid out for a block: with --magic its SROM CRC is wrong (3).");
        report::show_srom_crc(image, layout);
    }
}

// Writes the block to an image.
pub fn write(
    rt: &(impl Files<File = File> + Env),
    mut image: Input,
    words: &Words,
) -> Result<Status, Complained> {
    let block = words.block.ok_or(Complained)?;
    let size = layout_of(words, image.len()).size;
    if let Err(refusal) = magic::write(block, &mut image, size) {
        report::show_refused_size(refusal.number(), words.size.is_some(), size);
        report::show_length(&image);
        return Ok(Status::Refused);
    }
    let status = save(rt, &image, place_of(words, 1)?, words.force)?;
    show(&image, size);
    Ok(status)
}
