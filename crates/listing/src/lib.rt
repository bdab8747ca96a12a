// `card read`: the verdict, and what the card says.
#![tactic(auto)]

ghost use Rattle.std.specs.Prelude.{◌<◌, ◌≤◌};

use block::Block;
use reader::{Header, Reading, Tally};
use report::words;
use rom::Refusal;
use survey::{Card, Place};
use text::line;
use text::line::{Line, say};
use text::slice::{byte_at, from, part, word_at};

// ## The header

fn show_header(card: Card, header: Header) {
    let version = byte_at(card.image, rom::VERSION_AT);
    let controllers = byte_at(card.image, rom::CONTROLLER_COUNT_AT);
    let line = line::of(b"  format version   #", [u64::from(version), 0, 0, 0]);
    report::edition_words(line, card).print();
    line::of(b"  controllers      #", [u64::from(controllers), 0, 0, 0]).print();
    report::address_words(Line::new().text(b"  station address  "), header.address).print();
    let line = words::connection_line(b"  connection type  ", header.connection);
    words::show_connection(line, header.connection);
}

fn show_counts(chip: u16, header: Header, tally: Tally) {
    if chip == 21140 {
        line::of(
            b"  control byte     0x%",
            [u64::from(header.control), 0, 0, 0],
        )
        .print();
    }
    line::of(
        b"  blocks           #: # listed, # resets, # power",
        [
            u64::from(header.blocks),
            u64::from(tally.listed),
            u64::from(tally.resets),
            u64::from(tally.power),
        ],
    )
    .with(b", # stepped over", [u64::from(tally.skipped), 0, 0, 0])
    .print();
    match tally.default_number {
        Some(number) => line::of(
            b"  default medium   block #",
            [u64::from(number), 0, 0, 0],
        ).print(),
        None => say(b"  default medium   none"),
    }
}

// The Magic Packet block of a layout that has one.
fn show_magic(card: Card) {
    let layout = card.arguments.layout;
    if layout.magic
        && let Ok(magic) = magic::read(card.image, layout.size)
    {
        say(b"");
        report::show_magic(magic);
    }
}

// ## The fields of a block

// What a sequence counts.
#[derive(Clone, Copy)]
enum Unit {
    Byte,
    Word,
}

impl Unit {
    fn length(self) -> usize
        ensures at_least { 0 < result }
        ensures at_most { result ≤ 2 }
    {
        match self {
            Unit::Byte => 1,
            Unit::Word => 2,
        }
    }

    // The bytes of a sequence of so many.
    fn times(self, count: u8) -> usize
        ensures { result < 1000 }
    {
        usize::from(count) * self.length()
    }

    fn show(self, line: Line, bytes: &[u8]) -> Line {
        match self {
            Unit::Byte => line.with(b" 0x%", [u64::from(byte_at(bytes, 0)), 0, 0, 0]),
            Unit::Word => line.with(b" @", [u64::from(word_at(bytes, 0)), 0, 0, 0]),
        }
    }
}

// Where the fields of an entry begin, and their values where they have a line of their own.
fn field(name: &[u8]) -> Line {
    Line::new().to(6).text(name).to(20)
}

// A sequence in rows of eight.
fn show_sequence(name: &[u8], bytes: &[u8], unit: Unit) {
    if bytes.is_empty() {
        field(name).text(b" none").print();
    }
    let mut name = name;
    for row in bytes.chunks(8 * unit.length()) {
        let mut line = field(name);
        for bytes in row.chunks(unit.length()) {
            line = unit.show(line, bytes);
        }
        line.print();
        name = b"";
    }
}

// The five media of a capability or an advertisement, by their bits.
const ABILITIES: [(u16, &[u8]); 5] = [
    (16, b"100BaseT4"),
    (8, b"100BaseTx-FD"),
    (4, b"100BaseTx"),
    (2, b"10BaseT-FD"),
    (1, b"10BaseT"),
];

fn abilities(line: Line, bits: u16) -> Line {
    let mut line = line;
    for (bit, name) in ABILITIES {
        if bits & bit != 0 {
            line = line.byte(b' ').text(name);
        }
    }
    line
}

// The four words of a PHY's block, and a last byte where it has one.
fn show_phy_words(bytes: &[u8]) {
    let capabilities = word_at(bytes, 0);
    let advertisement = word_at(bytes, 2);
    let line = field(b"capabilities").with(b" @", [u64::from(capabilities), 0, 0, 0]);
    abilities(line, capabilities / 2048).print();
    let line = field(b"advertisement").with(b" @", [u64::from(advertisement), 0, 0, 0]);
    abilities(line, advertisement / 32 % 32).print();
    let line = line::fields(Line::new().to(6), b"full duplex @4, threshold @6", bytes);
    if 8 < bytes.len() {
        line::fields(line, b", insertion 0x%8", bytes).print();
    } else {
        line.print();
    }
}

// A PHY's block.
fn show_phy(bytes: &[u8], unit: Unit) {
    let gpr = unit.times(byte_at(bytes, 3));
    let reset = unit.times(byte_at(bytes, 4 + gpr));
    show_phy_words(from(bytes, 5 + gpr + reset));
    show_sequence(b"GPR sequence", part(bytes, 4, gpr), unit);
    show_sequence(b"reset sequence", part(bytes, 5 + gpr, reset), unit);
}

// Whether the code byte at a place has EXT.
fn is_extended(bytes: &[u8], at: usize) -> bool {
    byte_at(bytes, at) / 64 % 2 == 1
}

// A medium's fields by the block's kind: where a mark stands is a byte of the block.
fn medium_fields(bytes: &[u8], kind: u16) -> Option<&'static [u8]> {
    match kind {
        0 => Some(b"GPR data 0x%3, command @4"),
        2 if is_extended(bytes, 2) => {
            Some(b"CSR13 @3, CSR14 @5, CSR15 @7, GPR control @9, data @b")
        }
        2 => Some(b"GPR control @3, data @5"),
        4 => Some(b"GPR control @3, data @5, command @7"),
        block::KIND_COMPACT => Some(b"GPR data 0x%1, command @2"),
        block::KIND_21041 if is_extended(bytes, 0) => Some(b"CSR13 @1, CSR14 @3, CSR15 @5"),
        _ => None,
    }
}

fn show_fields(bytes: &[u8], kind: u16) {
    match kind {
        1 => show_phy(bytes, Unit::Byte),
        3 => show_phy(bytes, Unit::Word),
        _ => {
            if let Some(pattern) = medium_fields(bytes, kind) {
                line::fields(Line::new().to(6), pattern, bytes).print();
            }
        }
    }
}

// ## The media table

fn marks(line: Line, block: Result<Block, Refusal>) -> Line {
    match block {
        Ok(Block::Listed(medium)) if medium.is_default => line.text(b", DEFAULT"),
        Ok(Block::Listed(medium)) if medium.active_invalid => line.text(b", Active_Invalid"),
        _ => line,
    }
}

// The block at a byte, the last such before one, with its number.
fn block_before(card: Card, number: u8, start: u16) -> Option<(u8, Place)> {
    (0..number).rev().find_map(|k| {
        card.block_place(k)
            .filter(|place| place.start == start)
            .map(|place| (k, place))
    })
}

fn show_entry(card: Card, entry: usize, number: u8, place: Place) {
    let bytes = report::block_bytes(card, place);
    let line = Line::new().right(entry as u64, 4).to(6);
    let line = report::place_words(line, number, place).text(b": ");
    let line = words::medium_words(line, bytes, place.kind);
    marks(line, report::block_at(card, place.start)).print();
    show_fields(bytes, place.kind);
}

fn show_entries(card: Card, blocks: u8, starts: &[u16]) {
    let mut before = blocks;
    for (entry, start) in starts.iter().enumerate() {
        if let Some((number, place)) = block_before(card, before, *start) {
            show_entry(card, entry, number, place);
            before = number;
        }
    }
}

fn show_table(card: Card, blocks: u8, starts: &[u16]) {
    say(b"");
    if starts.is_empty() {
        say(b"Media table: no entry");
    } else {
        say(b"Media table, in autosense order");
        show_entries(card, blocks, starts);
    }
}

// ## Resets, power blocks, and what is stepped over

// A block that has no entry.
fn show_block(card: Card, number: u8, place: Place, block: Block) {
    let bytes = report::block_bytes(card, place);
    let line = report::place_words(Line::new().to(2), number, place);
    match block {
        Block::Reset { .. } => {
            line.print();
            show_sequence(b"reset sequence", from(bytes, 3), Unit::Word);
        }
        Block::Power { mode, .. } => {
            line.print();
            words::mode_words(field(b"modes"), mode).print();
            show_sequence(b"GPR sequence", from(bytes, 4), Unit::Word);
        }
        _ => {
            line.byte(b':').print();
            report::show_bytes(bytes);
        }
    }
}

// The blocks of a sort.
fn show_sort<F: Fn(Block) -> bool>(card: Card, blocks: u8, is_shown: F)
    requires { F.IsAlwaysCallable is_shown }
{
    for number in 0..blocks {
        if let Some(place) = card.block_place(number)
            && let Ok(block) = report::block_at(card, place.start)
            && is_shown(block)
        {
            show_block(card, number, place, block);
        }
    }
}

fn show_unlisted(card: Card, blocks: u8, tally: Tally) {
    if 0 < tally.resets {
        say(b"");
        say(b"Reset, before any medium is selected");
        show_sort(card, blocks, |block| matches!(block, Block::Reset { .. }));
    }
    if 0 < tally.power {
        say(b"");
        say(b"Power, by which a driver shuts the PHY down");
        show_sort(card, blocks, |block| matches!(block, Block::Power { .. }));
    }
    if 0 < tally.skipped {
        say(b"");
        line::of(
            b"STEPPED OVER, of types that a reader of level # does not know",
            [u64::from(card.arguments.level), 0, 0, 0],
        )
        .print();
        show_sort(card, blocks, |block| matches!(block, Block::Unknown { .. }));
    }
}

// Reads the image, whose size may have been given, and shows what it says; whether it is accepted.
pub fn show(card: Card, given: bool) -> bool {
    let mut kinds = [0u16; 255];
    let mut starts = [0u16; 255];
    match reader::read(card.image, card.arguments, &mut kinds, &mut starts) {
        Ok(Reading { header, tally }) => {
            let verdict = Line::new().text(b"ACCEPTED  ");
            report::arguments_words(verdict, card.arguments, given).print();
            show_header(card, header);
            show_counts(card.arguments.chip, header, tally);
            show_magic(card);
            show_table(card, header.blocks, &starts[..usize::from(tally.listed)]);
            show_unlisted(card, header.blocks, tally);
            true
        }
        Err(refusal) => {
            report::show_refused(card, given, refusal.number());
            false
        }
    }
}
