// The bench tool: what is on a card, and what an older driver would see of it. Everything that it shows is answered by the
// proved crates below it; this one reads files, and prints.
#![tactic(auto)]

mod conversion;
mod file;
mod sheets;
mod wake;

use block::NEWEST_LEVEL;
use console::arguments::{Complained, Words};
use console::command::Command;
use console::input::Input;
use console::status::Status;
use console::{arguments, input};
use conversion::convert;
use drivers::{looks, older};
use reader::Arguments;
use report::{size, words};
use rom::{Layout, Refusal};
use sheet::Form;
use std::fs::File;
use std::rt::{Env, Files};
use survey::Card;
use text::line::{Line, STDOUT, say};

fn usage() -> Status {
    io::write_all(
        STDOUT,
        b"usage: ./card COMMAND ..

  read FILE CHIP [OPTIONS]            what is on the card, or why it is refused
  older FILE CHIP [OPTIONS]           what readers of each level see of it
  walk FILE CHIP REPORT.. [OPTIONS]   a look with each REPORT, a row of 0 and 1
                                      with a 1 for each block whose link is up
  sheet FILE CHIP OUT [--wide] [--size N] [--edition E] [--magic] [--force]
                                      the image as a sheet
  write SHEET OUT [--wide] [--size N] [--edition E] [--magic FROM] [--force]
                                      the sheet as an image
  widen SHEET OUT [--force]           the narrow sheet as a wide one
  narrow SHEET OUT [--force]          the wide sheet as a narrow one
  magic FILE OUT --password P --address A --command C [--size N] [--force]
                                      the image with a new Magic Packet block
  map FILE CHIP OUT.svg [OPTIONS] [--force]
                                      a picture of the ROM
  dump [--pci ADDRESS] OUT [--force]  the ROM of a card in a slot, for root
  refusals                            the refusal numbers in words
  help                                this text

FILE is a raw image, or its bytes in hexadecimal as ethtool -e, xxd, xxd -p,
hexdump, hexdump -C or od -A x -t x1 print them, or as old diagnostic programs
print words (0x08:  2034 0104); - is standard input. CHIP is 21041, 21140,
21142, 21143 or 21145. OUT is not written over without --force.

OPTIONS are --controller N, which counts from 0 and is 0 where it is not given,
--level N, 0 to 7, how many extended types the reader knows, which is the
newest where it is not given, --size N, how many bytes the ROM has, where its
file's length is not to tell, --edition E, 1.00 or 1.01, of which a card of
version 1 is and which is 1.01 where it is not given, and --magic, for a card
that is laid out with a Magic Packet block. Options stand anywhere behind the
command.

A sheet is narrow, for ROMs of 1K bits, or wide, for those of 4K bits too; that
it is wide, --wide says. write makes an image of --size N bytes, or else of as
many as FROM has, or of 1K bits; --magic keeps the block of the image FROM.
SHEET is raw, or in hexadecimal, as FILE is.

P and A are six bytes as xx:xx:xx:xx:xx:xx and C is a word of up to four
digits, all in hexadecimal.

dump reads the card through its chip, while no driver has it. --pci says which
card is meant where there are several, by its address, as 0000:00:04.0.

The exit status is 0 for accepted, 1 for refused, 2 for bad usage, a card that
cannot be read, or a file that cannot be read or written.
",
    );
    Status::Accepted
}

fn show_number(number: u8) {
    Line::new().right(u64::from(number), 4).to(6).show(STDOUT);
    words::show_refusal(number, STDOUT);
    say(b"");
}

// The numbers that calls answer with: that of acceptance, and the refusals'.
fn refusals() -> Status {
    show_number(0);
    for refusal in Refusal::ALL {
        show_number(refusal.number());
    }
    Status::Accepted
}

// The place of a plain word. Of one that is missing `arguments::read` has complained.
pub(crate) fn place_of(words: &Words, number: usize) -> Result<usize, Complained> {
    words
        .places
        .get(number)
        .copied()
        .flatten()
        .ok_or(Complained)
}

// The layout of the ROM whose file has so many bytes: of the size that is given, or else of that length.
pub(crate) fn layout_of(words: &Words, length: usize) -> Layout {
    Layout {
        size: size::size_for(words.size, length),
        magic: words.magic,
    }
}

// What is in the file that the first plain word names.
fn read_file(rt: &(impl Files + std::io::Input + Env), words: &Words) -> Result<Input, Complained> {
    input::read_file(rt, place_of(words, 0)?)
}

// A card's image, how it is read, and whether its size was given.
#[derive(Drop)]
pub(crate) struct CardFile {
    image: Input,
    arguments: Arguments,
    given: bool,
}

impl CardFile {
    pub(crate) fn card(&self) -> Card<'_> {
        Card {
            image: &self.image,
            arguments: self.arguments,
        }
    }
}

fn read_card(
    rt: &(impl Files + std::io::Input + Env),
    words: &Words,
) -> Result<CardFile, Complained> {
    let image = read_file(rt, words)?;
    let arguments = Arguments {
        chip: words.chip.ok_or(Complained)?,
        controller: words.controller.unwrap_or(0),
        level: words.level.unwrap_or(NEWEST_LEVEL),
        layout: layout_of(words, image.len()),
        first_edition: words.first_edition.unwrap_or(false),
    };
    Ok(CardFile {
        image,
        arguments,
        given: words.size.is_some(),
    })
}

fn run(rt: &(impl Files<File = File> + std::io::Input + Env)) -> Result<Status, Complained> {
    let words = arguments::read(rt)?;
    match words.command {
        Command::Read => {
            let file = read_card(rt, &words)?;
            Ok(listing::show(file.card(), file.given).into())
        }
        Command::Older => {
            let file = read_card(rt, &words)?;
            Ok(older::show(file.card(), file.given).into())
        }
        Command::Walk => {
            let file = read_card(rt, &words)?;
            looks::show(rt, file.card(), file.given, place_of(&words, 2)?)
        }
        Command::Sheet => sheets::make(rt, &read_card(rt, &words)?, &words),
        Command::Map => {
            let file = read_card(rt, &words)?;
            let place = place_of(&words, 2)?;
            picture::show(rt, file.card(), file.given, place, words.force)
        }
        Command::Write => sheets::write(rt, &read_file(rt, &words)?, &words),
        Command::Magic => wake::write(rt, read_file(rt, &words)?, &words),
        Command::Widen => convert(rt, &read_file(rt, &words)?, Form::Narrow, &words),
        Command::Narrow => convert(rt, &read_file(rt, &words)?, Form::Wide, &words),
        Command::Refusals => Ok(refusals()),
        Command::Help => Ok(usage()),
    }
}

fn main(rt: HostRuntime) {
    run(&rt).unwrap_or(Status::Usage).report();
}
