// `card map`: a picture of the ROM, one cell a byte, coloured and labelled by field and block.
#![tactic(auto)]

ghost use Rattle.std.specs.Prelude.{◌<◌};

use block::{Block, NEWEST_LEVEL};
use console::arguments::Complained;
use console::output::Output;
use console::status::Status;
use magic::field_at;
use reader::{Arguments, Header};
use report::words;
use rom::{Layout, Refusal};
use std::fs::File;
use std::rt::{Env, Files};
use survey::{Card, Place};
use text::line::{Line, say};
use text::slice::byte_at;
use text::{decimal_words, line};

// ## What a byte belongs to

// Those of the Magic Packet block are the last; its reserved bytes are as the others.
#[derive(Clone, Copy, PartialEq, Eq)]
enum Field {
    Private,
    Id,
    IdCrc,
    Version,
    Count,
    Address,
    Controller,
    Reserved,
    Leaf,
    Medium,
    Phy,
    Reset,
    Power,
    Unknown,
    Refused,
    Maker,
    SromCrc,
    Password,
    WakeAddress,
    Command,
    MagicCrc,
}

impl Field {
    // In the order of their numbers on the page.
    const ALL: [Field; 21] = [
        Field::Private,
        Field::Id,
        Field::IdCrc,
        Field::Version,
        Field::Count,
        Field::Address,
        Field::Controller,
        Field::Reserved,
        Field::Leaf,
        Field::Medium,
        Field::Phy,
        Field::Reset,
        Field::Power,
        Field::Unknown,
        Field::Refused,
        Field::Maker,
        Field::SromCrc,
        Field::Password,
        Field::WakeAddress,
        Field::Command,
        Field::MagicCrc,
    ];

    // Of a block as the reader finds it.
    fn of(found: Result<Block, Refusal>) -> Field {
        match found {
            Ok(Block::Listed(medium)) if matches!(medium.kind, 1 | 3) => Field::Phy,
            Ok(Block::Listed(_)) => Field::Medium,
            Ok(Block::Reset { .. }) => Field::Reset,
            Ok(Block::Power { .. }) => Field::Power,
            Ok(Block::Unknown { .. }) => Field::Unknown,
            Err(_) => Field::Refused,
        }
    }

    // By which the page's styles name it.
    fn number(self) -> u64
        ensures { result < 256 }
    {
        u64::from(self as u8)
    }

    fn is_of_magic(self) -> bool {
        matches!(
            self,
            Field::Password | Field::WakeAddress | Field::Command | Field::MagicCrc
        )
    }

    // Whether it is to be seen from afar.
    fn is_loud(self) -> bool {
        matches!(self, Field::Unknown | Field::Refused)
    }

    fn words(self) -> &'static [u8] {
        match self {
            Field::Private => b"private or unused",
            Field::Id => b"ID block",
            Field::IdCrc => b"ID CRC",
            Field::Version => b"format version",
            Field::Count => b"controller count",
            Field::Address => b"base address",
            Field::Controller => b"controller",
            Field::Reserved => b"reserved",
            Field::Leaf => b"leaf header",
            Field::Medium => b"block: medium",
            Field::Phy => b"block: MII PHY",
            Field::Reset => b"block: reset",
            Field::Power => b"block: power",
            Field::Unknown => b"block: UNKNOWN type",
            Field::Refused => b"block: REFUSED",
            Field::Maker => b"the maker's bytes",
            Field::SromCrc => b"SROM CRC",
            Field::Password => b"SecureON password",
            Field::WakeAddress => b"Magic's address",
            Field::Command => b"Magic command",
            Field::MagicCrc => b"Magic CRC",
        }
    }

    // What a cell says; '#' stands for the number of its block or controller.
    fn label(self) -> &'static [u8] {
        match self {
            Field::Private => b"",
            Field::Id => b"ID",
            Field::IdCrc | Field::SromCrc | Field::MagicCrc => b"CRC",
            Field::Version => b"version",
            Field::Count => b"count",
            Field::Address | Field::WakeAddress => b"address",
            Field::Controller => b"ctrl #",
            Field::Reserved => b"reserved",
            Field::Leaf => b"leaf #",
            Field::Medium | Field::Phy | Field::Reset | Field::Power => b"block #",
            Field::Unknown | Field::Refused => b"block #",
            Field::Maker => b"maker",
            Field::Password => b"password",
            Field::Command => b"command",
        }
    }

    fn colour(self) -> &'static [u8] {
        decimal_words(COLOURS, self.number())
    }
}

// The colours of the fields, by the numbers that the page's styles have.
const COLOURS: &[u8] = b"0 #f4f4f4
1 #d9d9d9
2 #b8b8b8
3 #cfe2f3
4 #a9cce8
5 #bcd4f5
6 #d8c9ee
7 #ece4f6
8 #fff2b3
9 #cdebc5
10 #9fd5b5
11 #fbd9a8
12 #e9a58d
13 #e0218a
14 #d7301f
15 #e6ded0
16 #b8b8b8
17 #a3dde0
18 #c9eef0
19 #7cc8cd
20 #b8b8b8
";

// A byte's field, and the number of the controller or of the block that it is of.
#[derive(Clone, Copy)]
struct Cell {
    field: Field,
    number: u8,
}

// There is a cell for each byte of the larger size.
const CELLS: usize = rom::LARGE_LENGTH;

#[derive(Drop)]
struct Cells([Cell; CELLS]);

impl Cells {
    fn none() -> Cells {
        Cells([Cell {
            field: Field::Private,
            number: 0,
        }; CELLS])
    }

    fn painted(mut self, field: Field, number: u8, start: usize, count: usize) -> Cells {
        for cell in self.0.iter_mut().skip(start).take(count) {
            *cell = Cell { field, number };
        }
        self
    }

    // The fields whose places the layout says.
    fn framed(self, layout: Layout) -> Cells {
        self.painted(Field::Id, 0, 0, 18)
            .painted(Field::IdCrc, 0, rom::ID_CRC_AT, 1)
            .painted(Field::Version, 0, rom::VERSION_AT, 1)
            .painted(Field::Count, 0, rom::CONTROLLER_COUNT_AT, 1)
            .painted(Field::Address, 0, rom::ADDRESS_AT, 6)
            .painted(Field::Maker, 0, layout.leaves_end(), 2)
            .painted(Field::SromCrc, 0, layout.checked_length(), 2)
    }

    // Those of the Magic Packet block, in a layout that has one.
    fn with_magic(self, layout: Layout) -> Cells {
        if !layout.magic {
            return self;
        }
        let size = layout.size;
        self.painted(Field::Password, 0, field_at(size, magic::PASSWORD), 6)
            .painted(Field::WakeAddress, 0, field_at(size, magic::ADDRESS), 6)
            .painted(Field::Command, 0, field_at(size, magic::COMMAND), 2)
            .painted(Field::Reserved, 0, field_at(size, magic::ZEROS), 16)
            .painted(Field::MagicCrc, 0, field_at(size, magic::CRC), 1)
            .painted(Field::Reserved, 0, field_at(size, magic::LAST), 1)
    }
}

// The blocks of a controller's leaf, up to one that is refused.
fn with_blocks(cells: Cells, card: Card, blocks: u8) -> Cells {
    let mut cells = cells;
    for k in 0..blocks {
        if let Some(place) = card.block_place(k) {
            let field = Field::of(report::block_at(card, place.start));
            let length = report::block_bytes(card, place).len();
            cells = cells.painted(field, k, usize::from(place.start), length);
            if field == Field::Refused {
                return cells;
            }
        }
    }
    cells
}

// A controller's three bytes, its leaf's header and its blocks.
fn with_controller(cells: Cells, card: Card) -> Cells {
    let controller = card.arguments.controller;
    let entry = rom::CONTROLLERS_AT + 3 * usize::from(controller);
    let cells = cells.painted(Field::Controller, controller, entry, 3);
    let Ok(Header { start, blocks, .. }) = header::read_header(card.image, card.arguments) else {
        return cells;
    };
    let leaf = usize::from(report::leaf_of(card.image, controller));
    if start < leaf {
        return cells;
    }
    let cells = cells.painted(Field::Leaf, controller, leaf, start - leaf);
    with_blocks(cells, card, blocks)
}

// The card as it is read for another controller.
fn for_controller<'a>(card: Card<'a>, controller: u8) -> Card<'a> {
    Card {
        arguments: Arguments {
            controller,
            ..card.arguments
        },
        ..card
    }
}

// All controllers' leaves, as the arguments read them.
fn cells_of(card: Card) -> Cells {
    let layout = card.arguments.layout;
    let count = byte_at(card.image, rom::CONTROLLER_COUNT_AT);
    let mut cells = Cells::none().framed(layout).with_magic(layout);
    if layout.most_controllers() < count {
        return cells;
    }
    for controller in (0..count).rev() {
        cells = with_controller(cells, for_controller(card, controller));
    }
    let reserved = rom::CONTROLLERS_AT + 3 * usize::from(count);
    cells.painted(Field::Reserved, 0, reserved, 1)
}

// ## The page

// How a page is laid out, in its own units: the height of a cell; below its top the baselines of its value, of its label and
// of its row's offset; and where the legend and the lines on blocks that are stepped over begin.
#[derive(Clone, Copy)]
struct Page {
    width: u16,
    height: u16,
    cell: u8,
    value: u8,
    label: u8,
    offset: u8,
    keys: u16,
    unknowns: u16,
}

const SMALL_PAGE: Page = Page {
    width: 1120,
    height: 818,
    cell: 60,
    value: 30,
    label: 50,
    offset: 38,
    keys: 600,
    unknowns: 756,
};

// Has the form of A4, upright, on which its smallest text is one of 6 points.
const LARGE_PAGE: Page = Page {
    width: 1092,
    height: 1544,
    cell: 36,
    value: 19,
    label: 32,
    offset: 26,
    keys: 1318,
    unknowns: 1472,
};

fn page_of(size: u16) -> Page {
    if size == rom::SMALL_SIZE {
        SMALL_PAGE
    } else {
        LARGE_PAGE
    }
}

// Where a row of cells begins. Between two rows is room.
fn row_top(page: Page, row: u16) -> u64
    ensures { result < 20000000 }
{
    84 + (u64::from(page.cell) + 2) * u64::from(row)
}

// ## The picture

fn styles(file: i32) {
    io::write_all(
        file,
        b"<style>
text{font-family:monospace;text-anchor:middle;fill:#1a1a1a}
rect{stroke:#808080}
.value{font-size:22px}
.label{font-size:11px}
.words{font-size:14px;text-anchor:start}
.title{font-size:20px;text-anchor:start}
.field13,.field14{stroke:#000000;stroke-width:3}
.loud{fill:#ffffff;font-weight:bold}
",
    );
    for field in Field::ALL {
        line::of(b".field#{fill:", [field.number(), 0, 0, 0])
            .text(field.colour())
            .byte(b'}')
            .end(file);
    }
    io::write_all(file, b"</style>\n");
}

// The opening of a text of a cell.
fn text_in(class: &[u8], field: Field, x: u64, y: u64) -> Line {
    let mut line = Line::new().text(b"<text class=\"").text(class);
    if field.is_loud() {
        line = line.text(b" loud");
    }
    line.with(b"\" x=\"#\" y=\"#\">", [x, y, 0, 0])
}

// The opening of a text of the page.
fn text_at(class: &[u8], x: u64, y: u64) -> Line {
    text_in(class, Field::Private, x, y)
}

fn end_text(line: Line, file: i32) {
    line.text(b"</text>").end(file);
}

fn draw_cell(file: i32, page: Page, at: u16, byte: u8, cell: Cell) {
    let Cell { field, number } = cell;
    let x = 60 + 64 * u64::from(at % 16);
    let y = row_top(page, at / 16);
    let middle = x + 31;
    let value_at = y + u64::from(page.value);
    let label_at = y + u64::from(page.label);
    line::of(
        b"<rect class=\"field#\" x=\"#\" y=\"#\"",
        [field.number(), x, y, 0],
    )
    .with(
        b" width=\"62\" height=\"#\"/>",
        [u64::from(page.cell), 0, 0, 0],
    )
    .end(file);
    let value = text_in(b"value", field, middle, value_at);
    end_text(value.with(b"%", [u64::from(byte), 0, 0, 0]), file);
    let name = text_in(b"label", field, middle, label_at);
    end_text(name.with(field.label(), [u64::from(number), 0, 0, 0]), file);
}

fn draw_cells(file: i32, page: Page, image: &[u8], cells: Cells) {
    for ((at, byte), cell) in (0..rom::LARGE_SIZE).zip(image).zip(&cells.0) {
        draw_cell(file, page, at, *byte, *cell);
    }
}

// The number of a row's first byte.
fn draw_offset(file: i32, page: Page, row: u16) {
    let line = text_at(b"value", 30, row_top(page, row) + u64::from(page.offset));
    end_text(line.with(b"#", [16 * u64::from(row), 0, 0, 0]), file);
}

fn draw_offsets(file: i32, page: Page, rows: u16) {
    for row in 0..rows {
        draw_offset(file, page, row);
    }
}

fn draw_key(file: i32, page: Page, field: Field) {
    let number = field.number();
    let x = 60 + 212 * (number % 5);
    let y = u64::from(page.keys) + 26 * (number / 5);
    let line = line::of(b"<rect class=\"field#\" x=\"#\" y=\"#\"", [number, x, y, 0]);
    line.text(b" width=\"26\" height=\"18\"/>").end(file);
    end_text(text_at(b"words", x + 36, y + 14).text(field.words()), file);
}

fn draw_keys(file: i32, page: Page, layout: Layout) {
    for field in Field::ALL {
        if layout.magic || !field.is_of_magic() {
            draw_key(file, page, field);
        }
    }
}

fn magic_words(line: Line, layout: Layout) -> Line {
    if layout.magic {
        line.text(b" with a Magic Packet block")
    } else {
        line
    }
}

fn draw_title(file: i32, card: Card, refused: Option<Refusal>) {
    let arguments = card.arguments;
    let line = text_at(b"title", 60, 36);
    let line = line.with(
        b"Serial ROM of a # card",
        [u64::from(arguments.chip), 0, 0, 0],
    );
    let line = magic_words(line, arguments.layout);
    end_text(report::size_words(line, false, arguments.layout.size), file);
    draw_verdict(file, card, refused);
}

fn draw_verdict(file: i32, card: Card, refused: Option<Refusal>) {
    let arguments = card.arguments;
    let line = text_at(b"words", 60, 64);
    match refused {
        None => {
            let line = line.with(
                b"accepted by a reader of level # for controller #",
                [
                    u64::from(arguments.level),
                    u64::from(arguments.controller),
                    0,
                    0,
                ],
            );
            end_text(report::edition_words(line, card), file);
        }
        Some(refusal) => {
            line.with(b"refused #: ", [u64::from(refusal.number()), 0, 0, 0])
                .show(file);
            words::show_refusal(refusal.number(), file);
            end_text(Line::new(), file);
        }
    }
}

fn draw_unknown(file: i32, number: u8, place: Place, level: u8, y: u64) {
    let line = report::place_words(text_at(b"words", 60, y), number, place);
    let line = if level == NEWEST_LEVEL {
        line.text(b", of a type that the newest reader steps over")
    } else {
        line.with(
            b", of a type that a reader of level # steps over",
            [u64::from(level), 0, 0, 0],
        )
    };
    end_text(line, file);
}

// Whether the reader steps over the block at a byte. In version 1 it steps over none.
fn is_stepped_over(card: Card, place: Place) -> bool {
    matches!(
        report::block_at(card, place.start),
        Ok(Block::Unknown { .. })
    )
}

// The first blocks of the controller that the reader steps over, as many as there is room for.
fn draw_unknowns(file: i32, card: Card) {
    let Ok(Header { blocks, .. }) = header::read_header(card.image, card.arguments) else {
        return;
    };
    let first = u64::from(page_of(card.arguments.layout.size).unknowns);
    let unknowns = (0..blocks)
        .filter_map(|k| card.block_place(k).map(|place| (k, place)))
        .filter(|(_, place)| is_stepped_over(card, *place));
    for ((number, place), below) in unknowns.zip([0u8, 22, 44]) {
        draw_unknown(
            file,
            number,
            place,
            card.arguments.level,
            first + u64::from(below),
        );
    }
}

// The page's frame, its styles and its ground.
fn open_page(file: i32, page: Page) {
    let width = u64::from(page.width);
    let height = u64::from(page.height);
    line::of(
        b"<svg xmlns=\"http://www.w3.org/2000/svg\" viewBox=\"0 0 # #\">",
        [width, height, 0, 0],
    )
    .end(file);
    styles(file);
    line::of(b"<rect width=\"#\" height=\"#\"", [width, height, 0, 0])
        .text(b" fill=\"#ffffff\"/>")
        .end(file);
}

// Whether the last of it could be written: what is full stays full.
fn draw(file: i32, card: Card, refused: Option<Refusal>) -> bool {
    let layout = card.arguments.layout;
    let page = page_of(layout.size);
    open_page(file, page);
    draw_title(file, card, refused);
    draw_offsets(file, page, layout.size / 16);
    draw_cells(file, page, card.image, cells_of(card));
    draw_keys(file, page, layout);
    draw_unknowns(file, card);
    io::write_all(file, b"</svg>\n")
}

// Draws the picture of an image to the file that a word names. An image of another length than its size, which may have been
// given, has none.
pub fn show(
    rt: &(impl Files<File = File> + Env),
    card: Card,
    given: bool,
    place: usize,
    force: bool,
) -> Result<Status, Complained> {
    let refused = reader::judge(card.image, card.arguments).err();
    if let Some(refusal) = refused {
        report::show_refused(card, given, refusal.number());
    }
    if refused == Some(Refusal::ImageLength) {
        return Ok(Status::Refused);
    }
    let picture = Output::begin(rt, place)?;
    let whole = draw(picture.descriptor, card, refused);
    picture.finish(rt, whole, force)?;
    if refused.is_some() {
        return Ok(Status::Refused);
    }
    say(b"ACCEPTED  the picture is written");
    Ok(Status::Accepted)
}
