// Why a reading is refused, and where.
#![tactic(auto)]

pub mod size;
#[cfg(test)]
mod tests;
pub mod words;

ghost use Rattle.std.specs.Prelude.{◌≡◌, ◌++◌};
ghost use Rattle.text.specs.Written.{text_of, fitted};
ghost use Rattle.format.specs.Block.{is_known};
ghost use Rattle.block.specs.Answer.{verdict_of};
ghost use Rattle.image.specs.Image.{leaf_at};
ghost use Rattle.report.specs.Blocks.{block_from, bytes_at};
ghost use Rattle.report.specs.Layouts.{otherwise, of_length, in_other};
ghost use Rattle.report.specs.Layouts.{is_accepted_otherwise, is_accepted_by_length, is_accepted_in_other, has_srom_crc};
ghost use Rattle.report.specs.Words.{three_bytes, address_words, six_words, size_words, edition_words, arguments_words, place_words};

use block::{Block, chip};
use magic::Magic;
use reader::{Arguments, Header};
use rom::{Layout, Refusal};
use survey::{Card, Place};
use text::line;
use text::line::{Line, STDOUT, say};
use text::slice::{byte_at, from, part, word_at};

// ## Parts of an image

fn byte_of(image: &[u8], at: usize) -> u64 {
    u64::from(byte_at(image, at))
}

// Where a controller's leaf starts.
#[tactic(auto, unfolding(image::specs::Image::leaf_at))]
pub fn leaf_of(image: &[u8], controller: u8) -> u16
    ensures { result ≡ leaf_at image.now controller }
{
    word_at(image, rom::CONTROLLERS_AT + 3 * usize::from(controller) + 1)
}

// ## Parts of a line

// The lower three bytes of a number, high byte first.
fn three_bytes(n: u64) -> [u64; 4]
    ensures { result ≡ three_bytes n }
{
    [n / 0x1_0000 % 256, n / 0x100 % 256, n % 256, 0]
}

// xx:xx:xx:xx:xx:xx
#[tactic(auto, using(crate::proofs::Names::two), unfolding(crate::specs::Words::address_words))]
pub fn address_words(line: Line, address: u64) -> Line
    ensures { text_of result ≡ fitted (text_of line ++ address_words address) }
{
    let high = address / 0x100_0000;
    line.with(b"%:%:%:", three_bytes(high))
        .with(b"%:%:%", three_bytes(address))
}

// The same of six bytes.
#[tactic(auto, unfolding(crate::specs::Words::six_words))]
pub fn six_words(line: Line, bytes: &[u8]) -> Line
    ensures { text_of result ≡ fitted (text_of line ++ six_words bytes.now) }
{
    line::fields(line, b"%0:%1:%2:%3:%4:%5", bytes)
}

// A size, where it is named.
#[tactic(auto, using(crate::proofs::Names::none_more), unfolding(crate::specs::Words::size_words, rom::specs::Bytes::pick))]
pub fn size_words(line: Line, given: bool, size: u16) -> Line
    ensures { text_of result ≡ fitted (text_of line ++ size_words given size) }
{
    if size::is_named(given, size) {
        line.with(b", size #", [u64::from(size), 0, 0, 0])
    } else {
        line
    }
}

// The edition in which an image of version 1 is read.
#[tactic(auto, using(crate::proofs::Names::none_more), unfolding(crate::specs::Words::edition_words, rom::specs::Bytes::pick))]
pub fn edition_words(line: Line, card: Card) -> Line
    ensures { text_of result ≡ fitted (text_of line ++ edition_words card.entry.image.now card.entry.arguments.first_edition) }
{
    if !header::is_first_version(card.image) {
        line
    } else if card.arguments.first_edition {
        line.text(b", read in edition 1.00")
    } else {
        line.text(b", read in edition 1.01")
    }
}

// The arguments of a reading, and its size where that is named: it was given, or is not the smaller.
#[tactic(auto, using(crate::proofs::Names::two, crate::proofs::Names::three), unfolding(crate::proofs::Computes::arguments_words_compute))]
pub fn arguments_words(line: Line, arguments: Arguments, given: bool) -> Line
    ensures { text_of result ≡ fitted (text_of line ++ arguments_words given arguments) }
{
    let line = line.with(
        b"chip #, controller #, level #",
        [
            u64::from(arguments.chip),
            u64::from(arguments.controller),
            u64::from(arguments.level),
            0,
        ],
    );
    let line = size_words(line, given, arguments.layout.size);
    if arguments.layout.magic {
        return line.text(b", Magic Packet layout");
    }
    line
}

#[tactic(auto, using(crate::proofs::Names::three), unfolding(crate::specs::Words::place_words))]
pub fn place_words(line: Line, number: u8, place: Place) -> Line
    ensures { text_of result ≡ fitted (text_of line ++ place_words number place) }
{
    let line = line.with(
        b"block # at byte #, ",
        [u64::from(number), u64::from(place.start), 0, 0],
    );
    words::kind_words(line, place.kind).with(b", size #", [u64::from(place.size), 0, 0, 0])
}

// Bytes in rows of 16.
pub fn show_bytes(bytes: &[u8]) {
    for row in bytes.chunks(16) {
        let mut line = Line::new().to(5);
        for byte in row {
            line = line.with(b" %", [u64::from(*byte), 0, 0, 0]);
        }
        line.print();
    }
}

// ## Blocks

// Whether a reader of a level knows a kind.
#[tactic(auto, unfolding(format::specs::Block::is_known))]
pub fn is_known(kind: u16, level: u8) -> bool
    ensures { result ≡ is_known level kind }
{
    block::KIND_COMPACT <= kind || kind < u16::from(level)
}

// What the reader finds the block at a byte to be, or why it refuses it.
#[tactic(auto, unfolding(crate::specs::Blocks::block_from))]
pub fn block_at(card: Card, start: u16) -> Result<Block, Refusal>
    ensures { verdict_of result ≡ block_from card.entry.image.now card.entry.arguments start }
{
    let Card { image, arguments } = card;
    let rest = header::up_to_leaves_end(image, arguments.layout, usize::from(start));
    block::judge_in(
        rest,
        chip::row_of(arguments.chip),
        arguments.level,
        header::is_first_version(image),
    )
}

// A block's bytes, as far as leaves go.
#[tactic(auto, unfolding(crate::specs::Blocks::bytes_at))]
pub fn block_bytes<'a>(card: Card<'a>, place: Place) -> &'a [u8]
    ensures { result.now ≡ bytes_at card.entry.arguments.layout card.entry.image.now place }
{
    let rest = header::up_to_leaves_end(
        card.image,
        card.arguments.layout,
        usize::from(place.start),
    );
    part(rest, 0, usize::from(place.size))
}

// Where leaves end in a layout.
pub fn show_leaves_end(layout: Layout) {
    line::of(
        b"  leaves end before byte #",
        [layout.leaves_end() as u64, 0, 0, 0],
    )
    .print();
}

fn show_refused_block(card: Card) {
    if let Some(number) = card.refused_block()
        && let Some(place) = card.block_place(number)
    {
        place_words(Line::new().to(2), number, place)
            .byte(b':')
            .print();
        show_bytes(block_bytes(card, place));
    }
}

// What part a block has in a clash; nothing is shown where it has none.
fn show_clashing(block: Result<Block, Refusal>, line: Line) {
    match block {
        Ok(Block::Listed(medium)) if medium.is_default => line.text(b", a default medium").print(),
        Ok(Block::Listed(medium)) if medium.resets_phy => {
            line.text(b", a PHY with its own reset").print();
        }
        Ok(Block::Reset { .. }) => line.text(b", a reset").print(),
        _ => {}
    }
}

// The modes that a power block shares with another; nothing is shown where there are none.
fn show_shared(shared: u8, line: Line) {
    if shared != 0 {
        line.print();
        words::mode_words(Line::new().text(b"      shared modes  "), shared).print();
    }
}

// The mode byte of the block at a byte; 0 where that is no power block.
fn mode_at(card: Card, start: u16) -> u8 {
    match block_at(card, start) {
        Ok(block) => block.mode(),
        Err(_) => 0,
    }
}

// The bits of the mode byte that are set in more than one power block.
fn repeated_modes(card: Card, blocks: u8) -> u8 {
    let mut modes = 0;
    let mut repeated = 0;
    for k in 0..blocks {
        if let Some(place) = card.block_place(k) {
            let mode = mode_at(card, place.start);
            repeated |= modes & mode;
            modes |= mode;
        }
    }
    repeated
}

// The blocks that refusal 18 is about, or 31.
fn show_clashes(card: Card, number: u8) {
    let Ok(Header { blocks, .. }) = header::read_header(card.image, card.arguments) else {
        return;
    };
    let repeated = repeated_modes(card, blocks);
    for k in 0..blocks {
        if let Some(place) = card.block_place(k) {
            let line = place_words(Line::new().to(2), k, place);
            if number == Refusal::Clash.number() {
                show_clashing(block_at(card, place.start), line);
            } else {
                show_shared(repeated & mode_at(card, place.start), line);
            }
        }
    }
}

// ## Fields of the header

pub fn show_length(image: &[u8]) {
    line::of(
        b"  the image has # bytes; a ROM has # or #",
        [
            image.len() as u64,
            u64::from(rom::SMALL_SIZE),
            u64::from(rom::LARGE_SIZE),
            0,
        ],
    )
    .print();
}

fn show_version(card: Card) {
    let line = line::of(
        b"  format version, byte 18: #",
        [byte_of(card.image, rom::VERSION_AT), 0, 0, 0],
    );
    edition_words(line, card).print();
}

pub fn show_srom_crc(image: &[u8], layout: Layout) {
    let at = layout.checked_length();
    let stored = u64::from(word_at(image, at));
    let computed = u64::from(crc::srom_crc(image, layout).unwrap_or(0));
    let at = at as u64;
    line::of(
        b"  SROM CRC, bytes # and #: @ stored",
        [at, at + 1, stored, 0],
    )
    .with(b", @ of bytes 0 to #", [computed, at - 1, 0, 0])
    .print();
}

// A CRC of one byte, by its name: what is stored, and what the bytes that it is of give.
fn show_byte_crc(name: &[u8], image: &[u8], at: usize, computed: u16, of: &[u8]) {
    Line::new()
        .text(name)
        .with(
            b" CRC, byte #: 0x% stored, 0x% of ",
            [at as u64, byte_of(image, at), u64::from(computed), 0],
        )
        .text(of)
        .print();
}

fn show_id_crc(image: &[u8], size: u16) {
    let computed = crc::id_crc(image, size).unwrap_or(0);
    show_byte_crc(
        b"  ID",
        image,
        rom::ID_CRC_AT,
        computed,
        b"bytes 0 to 15 and 17",
    );
}

fn show_magic_crc(image: &[u8], size: u16) {
    let at = magic::field_at(size, magic::CRC);
    let computed = crc::magic_crc(image, size).unwrap_or(0);
    show_byte_crc(b"  Magic", image, at, computed, b"the block's other bytes");
}

fn show_count(image: &[u8], layout: Layout) {
    let count = byte_at(image, rom::CONTROLLER_COUNT_AT);
    let reserved = rom::CONTROLLERS_AT + 3 * usize::from(count);
    line::of(
        b"  controller count (1 to #), byte 19: #; reserved byte (0), byte #: 0x%",
        [
            u64::from(layout.most_controllers()),
            u64::from(count),
            reserved as u64,
            byte_of(image, reserved),
        ],
    )
    .print();
}

fn show_address(image: &[u8]) {
    let line = Line::new().text(b"  base address, bytes 20 to 25: ");
    six_words(line, from(image, rom::ADDRESS_AT)).print();
}

fn show_leaf(card: Card) {
    let Card { image, arguments } = card;
    let controller = arguments.controller;
    let at = 27 + 3 * u64::from(controller);
    let least = 27 + 3 * u64::from(byte_at(image, rom::CONTROLLER_COUNT_AT));
    line::of(
        b"  leaf offset, bytes # and #: #",
        [at, at + 1, u64::from(leaf_of(image, controller)), 0],
    )
    .print();
    line::of(
        b"  a leaf of this card starts at byte # or later, and ends before byte #",
        [least, arguments.layout.leaves_end() as u64, 0, 0],
    )
    .print();
}

// A connection type that is not read; of an image of version 1 the edition decides.
fn show_unread(card: Card) {
    let Card { image, arguments } = card;
    let leaf = leaf_of(image, arguments.controller);
    let connection = word_at(image, usize::from(leaf));
    let leaf = u64::from(leaf);
    line::of(
        b"  connection type, bytes # and #: @",
        [leaf, leaf + 1, u64::from(connection), 0],
    )
    .print();
    if header::is_first_version(image) {
        show_version(card);
    }
}

// ## The Magic Packet block

// What a block says.
pub fn show_magic(magic: Magic) {
    let Magic {
        password,
        address,
        command,
    } = magic;
    say(b"Magic Packet block");
    six_words(Line::new().text(b"  password         "), &password).print();
    six_words(Line::new().text(b"  address          "), &address).print();
    let line = line::of(b"  command          @", [u64::from(command), 0, 0, 0]);
    words::command_words(line, command).print();
}

// A reserved byte, where it is not 0.
fn show_reserved(image: &[u8], at: usize) {
    let byte = byte_of(image, at);
    if byte != 0 {
        line::of(b"  reserved byte, byte #: 0x%", [at as u64, byte, 0, 0]).print();
    }
}

fn show_magic_reserved(image: &[u8], size: u16) {
    for field in magic::ZEROS..=magic::LAST {
        if field != magic::CRC {
            show_reserved(image, magic::field_at(size, field));
        }
    }
}

// What a refusal of the block is about.
pub fn show_magic_field(image: &[u8], size: u16, number: u8) {
    if number == Refusal::MagicCrc.number() {
        show_magic_crc(image, size);
    } else {
        show_magic_reserved(image, size);
    }
}

// ## Another layout or edition

// The same arguments with a Magic Packet block where there was none, and the other way round.
fn otherwise(arguments: Arguments) -> Arguments
    ensures { result ≡ otherwise arguments }
{
    let layout = Layout {
        magic: !arguments.layout.magic,
        ..arguments.layout
    };
    Arguments {
        layout,
        ..arguments
    }
}

// The same arguments for the size that a length says.
fn of_length(arguments: Arguments, length: usize) -> Arguments
    ensures { result ≡ of_length length arguments }
{
    let layout = Layout {
        size: size::by_length(length),
        ..arguments.layout
    };
    Arguments {
        layout,
        ..arguments
    }
}

// The same arguments in the other edition.
fn in_other(arguments: Arguments) -> Arguments
    ensures { result ≡ in_other arguments }
{
    Arguments {
        first_edition: !arguments.first_edition,
        ..arguments
    }
}

// Whether an image that is refused with a number, and that is 3, is accepted with a Magic Packet block, or without it.
#[tactic(auto, using(crate::proofs::Accepted::accepted_number), unfolding(crate::specs::Layouts::is_accepted_otherwise))]
fn is_accepted_otherwise(card: Card, number: u8) -> bool
    ensures { result ≡ is_accepted_otherwise card.entry.image.now card.entry.arguments number }
{
    number == Refusal::SromCrc.number()
        && reader::judge(card.image, otherwise(card.arguments)).is_ok()
}

// Whether one that is refused with 1 is accepted for the size that its length says.
#[tactic(auto, using(crate::proofs::Accepted::accepted_number), unfolding(crate::specs::Layouts::is_accepted_by_length))]
fn is_accepted_by_length(card: Card, number: u8) -> bool
    ensures { result ≡ is_accepted_by_length card.entry.image.now card.entry.arguments number }
{
    let Card { image, arguments } = card;
    number == Refusal::ImageLength.number()
        && reader::judge(image, of_length(arguments, image.len())).is_ok()
}

// Whether one that is refused with 11 is accepted in the other edition, as only an image of version 1 can be.
#[tactic(auto, using(crate::proofs::Accepted::accepted_number), unfolding(crate::specs::Layouts::is_accepted_in_other))]
fn is_accepted_in_other(card: Card, number: u8) -> bool
    ensures { result ≡ is_accepted_in_other card.entry.image.now card.entry.arguments number }
{
    number == Refusal::ConnectionType.number()
        && reader::judge(card.image, in_other(card.arguments)).is_ok()
}

// The option with which the other edition is read.
pub fn show_other_edition(first_edition: bool) {
    if first_edition {
        say(b"  accepted with --edition 1.01");
    } else {
        say(b"  accepted with --edition 1.00");
    }
}

// Nobody at a bench knows layout or edition beforehand.
fn show_otherwise(card: Card, number: u8) {
    if is_accepted_otherwise(card, number) {
        if card.arguments.layout.magic {
            say(b"  accepted without --magic");
        } else {
            say(b"  accepted with --magic");
        }
    }
    if is_accepted_by_length(card, number) {
        let size = size::by_length(card.image.len());
        line::of(b"  accepted with --size #", [u64::from(size), 0, 0, 0]).print();
    }
    if is_accepted_in_other(card, number) {
        show_other_edition(card.arguments.first_edition);
    }
}

// Whether the SROM CRC that is stored is the board's.
#[tactic(auto, using(crate::proofs::Accepted::crc_or_zero), unfolding(crate::specs::Layouts::has_srom_crc))]
pub fn has_srom_crc(image: &[u8], layout: Layout) -> bool
    ensures { result ≡ has_srom_crc layout image.now }
{
    word_at(image, layout.checked_length()) == crc::srom_crc(image, layout).unwrap_or(0)
}

// ## The verdict

// Why a type is not permitted, where that is for the version.
fn show_type(image: &[u8]) {
    if header::is_first_version(image) {
        say(b"  version 1 has no extended blocks");
    }
}

// What a refusal of the reader is about: a field of the header, a block, the blocks that clash, or a field of the Magic
// Packet block. Chip and level are no part of the image. 0 and 12, with which no reading is refused, are shown as 5 and as 15
// are, and each other such number as 30 is.
fn show_where(card: Card, number: u8) {
    let Card { image, arguments } = card;
    let layout = arguments.layout;
    match words::refusal_of(number) {
        Some(Refusal::ImageLength) => show_length(image),
        Some(Refusal::Version | Refusal::FirstVersionChip) => show_version(card),
        Some(Refusal::SromCrc) => show_srom_crc(image, layout),
        Some(Refusal::IdCrc) => show_id_crc(image, layout.size),
        Some(Refusal::ControllerCount | Refusal::Controller) => show_count(image, layout),
        Some(Refusal::Chip | Refusal::Level) => {}
        Some(Refusal::Address) => show_address(image),
        Some(Refusal::LeafHeader) => show_leaf(card),
        Some(Refusal::ConnectionType) => show_unread(card),
        Some(Refusal::BlockEnd) => {
            show_refused_block(card);
            show_leaves_end(layout);
        }
        Some(Refusal::BlockType) => {
            show_refused_block(card);
            show_type(image);
        }
        Some(
            Refusal::ArrayLength
            | Refusal::BlockLength
            | Refusal::BlockCode
            | Refusal::Advertisement,
        ) => show_refused_block(card),
        Some(Refusal::Clash | Refusal::RepeatedMode) => show_clashes(card, number),
        None if number == 0 => show_count(image, layout),
        _ => show_magic_field(image, layout.size, number),
    }
}

// A refusal in words, without its place.
pub fn show_refusal(number: u8) {
    line::of(b"REFUSED #: ", [u64::from(number), 0, 0, 0]).show(STDOUT);
    words::show_refusal(number, STDOUT);
    say(b"");
}

// A refusal with the size that is asked for, where it is named.
pub fn show_refused_size(number: u8, given: bool, size: u16) {
    show_refusal(number);
    if size::is_named(given, size) {
        line::of(b"  size #", [u64::from(size), 0, 0, 0]).print();
    }
}

// A refusal with the arguments of its reading.
pub fn show_refused_reading(arguments: Arguments, given: bool, number: u8) {
    show_refusal(number);
    arguments_words(Line::new().to(2), arguments, given).print();
}

// A refused reading: the number, what it means, and where.
pub fn show_refused(card: Card, given: bool, number: u8) {
    show_refused_reading(card.arguments, given, number);
    show_where(card, number);
    show_otherwise(card, number);
}
