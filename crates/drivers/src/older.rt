// `card older`: what readers of every level see of a card, side by side, and whether they would walk alike.
ghost use Rattle.std.specs.Prelude.{◌<◌};

use crate::{Numbers, number_words};
use block::NEWEST_LEVEL;
use reader::{Arguments, Reading, Tally};
use report::words;
use rom::Refusal;
use survey::{Card, Place};
use text::line;
use text::line::{Line, say};

// Where the first column ends, and how wide the others are.
const FIRST: usize = 45;

const WIDTH: usize = 5;

// What a reader makes of a block whose type it knows.
#[derive(Clone, Copy, PartialEq, Eq)]
enum Sort {
    Listed,
    Reset,
    Power,
}

fn sort_of(kind: u16) -> Sort {
    match kind {
        5 => Sort::Reset,
        6 => Sort::Power,
        _ => Sort::Listed,
    }
}

// The card as a reader of another level has it.
fn at_level<'a>(card: Card<'a>, level: u8) -> Card<'a> {
    Card {
        arguments: Arguments {
            level,
            ..card.arguments
        },
        ..card
    }
}

// How many levels stand side by side: those up to the reader's.
fn columns(card: Card) -> u8 {
    card.arguments.level.min(NEWEST_LEVEL) + 1
}

// Where a level's column ends.
fn column(level: u8) -> usize {
    FIRST + WIDTH * usize::from(level)
}

// ## A row for each block

// What a level makes of a block: the number of its entry, a reset, a power block, or '-' where it does not know the type.
// Nothing where it refuses the image.
fn cell(line: Line, card: Card, place: Place) -> Line {
    let mut kinds = [0u16; 255];
    let mut starts = [0u16; 255];
    if reader::read(card.image, card.arguments, &mut kinds, &mut starts).is_err() {
        return line;
    }
    let level = card.arguments.level;
    let end = column(level);
    if !report::is_known(place.kind, level) {
        return line.right_text(b"-", end);
    }
    match sort_of(place.kind) {
        Sort::Reset => line.right_text(b"rst", end),
        Sort::Power => line.right_text(b"pwr", end),
        Sort::Listed => match starts.iter().position(|start| *start == place.start) {
            Some(entry) => line.right(entry as u64, end),
            None => line,
        },
    }
}

fn cells(line: Line, card: Card, place: Place) -> Line {
    let mut line = line;
    for level in 0..columns(card) {
        line = cell(line, at_level(card, level), place);
    }
    line
}

fn block_words(line: Line, bytes: &[u8], kind: u16) -> Line {
    match sort_of(kind) {
        Sort::Reset => line.text(b"reset"),
        Sort::Power => line.text(b"power"),
        Sort::Listed if report::is_known(kind, NEWEST_LEVEL) => {
            words::medium_words(line, bytes, kind)
        }
        Sort::Listed => line.with(b"type #", [u64::from(kind), 0, 0, 0]),
    }
}

fn show_block(card: Card, number: u8, place: Place) {
    let bytes = report::block_bytes(card, place);
    let line = line::of(
        b"  block # at #",
        [u64::from(number), u64::from(place.start), 0, 0],
    );
    let line = block_words(line.to(19), bytes, place.kind);
    cells(line, card, place).print();
}

// How many blocks the reader reaches: those up to the one that it refuses.
fn reached(card: Card) -> u8 {
    match card.refused_block() {
        Some(refused) => refused.saturating_add(1),
        None => header::read_header(card.image, card.arguments).map_or(0, |header| header.blocks),
    }
}

// In autosense order.
fn show_blocks(card: Card) {
    for number in (0..reached(card)).rev() {
        if let Some(place) = card.block_place(number) {
            show_block(card, number, place);
        }
    }
}

// ## A row for each number of the answer

// The answer of a reader of a level.
fn reading_at(card: Card, level: u8) -> Result<Reading, Refusal> {
    let Card { image, arguments } = at_level(card, level);
    reader::judge(image, arguments)
}

// A row of what readers of every level answer.
fn show_row<F: Fn(Line, Result<Reading, Refusal>, usize) -> Line>(name: &[u8], card: Card, cell: F)
    requires { F.IsAlwaysCallable cell }
{
    let mut line = Line::new().to(2).text(name);
    for level in 0..columns(card) {
        line = cell(line, reading_at(card, level), column(level));
    }
    line.print();
}

fn verdict_cell(line: Line, reading: Result<Reading, Refusal>, end: usize) -> Line {
    match reading {
        Ok(_) => line.right_text(b"ok", end),
        Err(refusal) => line.right(u64::from(refusal.number()), end),
    }
}

// A row of numbers that are read: of a refusal only the verdict is shown.
fn show_numbers<F: Fn(Tally) -> Option<u8>>(name: &[u8], card: Card, number: F)
    requires { F.IsAlwaysCallable number }
{
    show_row(name, card, |line, reading, end| match reading {
        Ok(Reading { tally, .. }) => match number(tally) {
            Some(number) => line.right(u64::from(number), end),
            None => line.right_text(b"none", end),
        },
        Err(_) => line,
    });
}

fn show_levels(columns: u8) {
    let mut line = Line::new().text(b"  level of the reader");
    for level in 0..columns {
        line = line.right(u64::from(level), column(level));
    }
    line.print();
}

fn show_columns(card: Card) {
    show_levels(columns(card));
    show_row(b"verdict", card, verdict_cell);
    show_blocks(card);
    show_numbers(b"listed", card, |tally| Some(tally.listed));
    show_numbers(b"resets", card, |tally| Some(tally.resets));
    show_numbers(b"power", card, |tally| Some(tally.power));
    show_numbers(b"stepped over", card, |tally| Some(tally.skipped));
    show_numbers(b"default block", card, |tally| tally.default_number);
}

// ## Whether an older driver walks alike: demand 3's conditions, in words

// Whether a reader lists a block of a kind and an older one does not know it.
fn is_removed(kind: u16, level: u8, older: u8) -> bool {
    !report::is_known(kind, older) && sort_of(kind) == Sort::Listed && report::is_known(kind, level)
}

// The same of a block by its number.
fn is_removed_block(card: Card, number: u8, older: u8) -> bool {
    card.block_place(number).is_some_and(|place| is_removed(
        place.kind,
        card.arguments.level,
        older,
    ))
}

// The numbers of the blocks that an older reader does not list, as many as a sentence names.
fn removed_words(line: Line, card: Card, older: u8, blocks: u8) -> Line {
    let mut removed = Numbers::new();
    let _ = removed.extend(
        (0..blocks)
            .rev()
            .filter(|number| is_removed_block(card, *number, older))
            .map(usize::from),
    );
    number_words(line, &removed)
}

// Whether a reader of an older level walks as the one with this reading, and so accepts the card too.
fn show_level(card: Card, reading: Reading, level: u8) {
    let Ok(Reading { tally: older, .. }) = reading_at(card, level) else {
        return;
    };
    let Reading { header, tally } = reading;
    let line = line::of(b"  level #: ", [u64::from(level), 0, 0, 0]);
    if older.listed == tally.listed {
        line.text(b"yes, whatever links are up").print();
        return;
    }
    let line = match tally.default_number {
        Some(number) if older.default_number != Some(number) => {
            line.with(
                b"no: with no link up it misses the default, block #,",
                [u64::from(number), 0, 0, 0],
            )
            .print();
            Line::new()
                .to(11)
                .text(b"and so it may with a link up at block")
        }
        _ => line.text(b"yes, while no link is up at block"),
    };
    removed_words(line, card, level, header.blocks).print();
}

// ## The same under a fixed type

fn is_fixed(connection: u16) -> bool {
    autosense::is_fixed(autosense::way_of(connection))
}

// The block that a reader's walk selects under a fixed type.
fn choice(card: Card) -> Option<u8> {
    let mut walk = autosense::fresh();
    autosense::load_lent(&mut walk, card.image, card.arguments).ok()?;
    autosense::fixed_block(&walk)
}

// What a driver does that does not list the block that others select.
fn show_other(other: Option<u8>) {
    let line = Line::new().to(11);
    match other {
        Some(number) => line.with(b"and selects block #", [u64::from(number), 0, 0, 0]),
        None => line.text(b"and refuses every look with 32"),
    }
    .print();
}

// Whether a reader of an older level walks as one that selects this block.
fn show_fixed_level(card: Card, chosen: Option<u8>, level: u8) {
    let line = line::of(b"  level #: ", [u64::from(level), 0, 0, 0]);
    let Some(number) = chosen else {
        line.text(b"yes, both refuse every look with 32: no listed block has this medium")
            .print();
        return;
    };
    if !is_removed_block(card, number, level) {
        line.with(
            b"yes, it lists block #, the first with this medium",
            [u64::from(number), 0, 0, 0],
        )
        .print();
        return;
    }
    line.with(
        b"no: it does not list block #, the first with this medium,",
        [u64::from(number), 0, 0, 0],
    )
    .print();
    show_other(choice(at_level(card, level)));
}

fn show_question(level: u8) {
    match level {
        0 => say(b"No driver is older than one of level 0."),
        NEWEST_LEVEL => say(b"Would a station with an older driver walk as with the newest?"),
        _ => line::of(
            b"Would a station with an older driver walk as with one of level #?",
            [u64::from(level), 0, 0, 0],
        )
        .print(),
    }
}

// A sentence about each older level, by the way to walk.
fn show_sentences(card: Card, reading: Reading) {
    let connection = reading.header.connection;
    if is_fixed(connection) {
        let line = Line::new().text(b"The connection type is fixed: ");
        words::show_connection(line, connection);
    }
    show_question(card.arguments.level);
    let chosen = choice(card);
    for level in 0..card.arguments.level {
        if is_fixed(connection) {
            show_fixed_level(card, chosen, level);
        } else {
            show_level(card, reading, level);
        }
    }
}

// Whether a reading is refused for a block.
fn is_for_block(refusal: Refusal) -> bool {
    matches!(
        refusal,
        Refusal::BlockEnd
            | Refusal::BlockType
            | Refusal::BlockLength
            | Refusal::BlockCode
            | Refusal::Advertisement
    )
}

// What is promised of older readers where the newest refuses a card with 31.
fn show_read_below() {
    line::of(
        b"Readers below level # do not know power blocks, and all of them read this card.",
        [u64::from(NEWEST_LEVEL), 0, 0, 0],
    )
    .print();
}

fn show_no_promise(level: u8, refusal: Refusal) {
    if is_for_block(refusal) {
        say(b"Blocks behind the refused one are not shown.");
    }
    if level == NEWEST_LEVEL {
        say(b"The newest reader refuses this card, so nothing is promised of older ones.");
    } else {
        line::of(
            b"A reader of level # refuses this card, so nothing is promised of older ones.",
            [u64::from(level), 0, 0, 0],
        )
        .print();
    }
}

// Shows what each level up to the reader's sees; whether the reader accepts the image. A level that no reader has shows
// nothing but that. The image's size may have been given.
pub fn show(card: Card, given: bool) -> bool {
    let reading = reader::judge(card.image, card.arguments);
    match reading {
        Ok(_) => {
            let line = Line::new().text(b"ACCEPTED  ");
            report::arguments_words(line, card.arguments, given).print();
        }
        Err(refusal) => report::show_refused(card, given, refusal.number()),
    }
    if let Err(Refusal::Level) = reading {
        return false;
    }
    say(b"");
    show_columns(card);
    say(b"");
    match reading {
        Ok(reading) => show_sentences(card, reading),
        Err(Refusal::RepeatedMode) => show_read_below(),
        Err(refusal) => show_no_promise(card.arguments.level, refusal),
    }
    reading.is_ok()
}
