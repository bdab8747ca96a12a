// Reading an image: its media table, and the block of an entry (document 01, 'Levels and the table').
#![tactic(auto)]

mod table;

ghost use Rattle.std.specs.Prelude.{◌≡◌, ◌+◌, length};
ghost use Rattle.reader.specs.Inside.{reading_for};
ghost use Rattle.reader.specs.Reading.{judge_answer, read_answer, read_kinds, read_offsets, part_for, view_for, judged_reading};
ghost use Rattle.reader.specs.Answered.{reading_answer, judged_of};

pub use header::{Arguments, Header};
use rom::{NONE, Refusal};
pub use tally::Tally;

// What is read of a controller's leaf: its header, and its blocks counted.
#[derive(Clone, Copy)]
pub struct Reading {
    pub header: Header,
    pub tally: Tally,
}

// The same as C has it, or a refusal's number and zeros. The default's number is `rom::NONE` where there is none.
#[repr(C)]
#[derive(Clone, Copy)]
pub struct Answer {
    pub number: u8,
    pub connection: u16,
    pub control: u8,
    pub address: u64,
    pub blocks: u8,
    pub listed: u8,
    pub resets: u8,
    pub skipped: u8,
    pub power: u8,
    pub default_number: u8,
}

impl From<Result<Reading, Refusal>> for Answer {
    ghost from_gives = { λ outcome answer. answer ≡ reading_answer outcome };

    fn from(outcome: Result<Reading, Refusal>) -> Answer {
        match outcome {
            Ok(Reading { header, tally }) => Answer {
                number: 0,
                connection: header.connection,
                control: header.control,
                address: header.address,
                blocks: header.blocks,
                listed: tally.listed,
                resets: tally.resets,
                skipped: tally.skipped,
                power: tally.power,
                default_number: tally.default_number.unwrap_or(NONE),
            },
            Err(refusal) => Answer {
                number: refusal.number(),
                connection: 0,
                control: 0,
                address: 0,
                blocks: 0,
                listed: 0,
                resets: 0,
                skipped: 0,
                power: 0,
                default_number: 0,
            },
        }
    }
}

// A part of the image: where it starts, and how many bytes it has.
#[repr(C)]
#[derive(Clone, Copy)]
pub struct Part {
    pub start: usize,
    pub length: usize,
}

impl Part {
    pub const EMPTY: Part = Part {
        start: 0,
        length: 0,
    };
}

// As much room as any block count asks for, where no array is lent.
const NO_ARRAY: usize = 255;

// A reading into arrays of these lengths, before anything is written: the first refusal, or the answer.
fn read_for(
    image: &[u8],
    arguments: Arguments,
    kinds: usize,
    offsets: usize,
) -> Result<Reading, Refusal>
    ensures { judged_of result ≡ reading_for image.now arguments kinds offsets }
{
    let header = header::read_header(image, arguments)?;
    let blocks = usize::from(header.blocks);
    if kinds < blocks || offsets < blocks {
        return Err(Refusal::ArrayLength);
    }
    let tally = tally::judge(
        header::up_to_leaves_end(image, arguments.layout, header.start),
        header.blocks,
        header.row,
        arguments.level,
        header::is_first_version(image),
    )?;
    Ok(Reading { header, tally })
}

// A reading without arrays, and so without refusal 12: what the walk, the sheet maker and the writer go by.
pub fn judge(image: &[u8], arguments: Arguments) -> Result<Reading, Refusal>
    ensures answer { reading_answer result ≡ judge_answer image.now arguments }
    ensures reading { judged_of result ≡ judged_reading image.now arguments }
{
    read_for(image, arguments, NO_ARRAY, NO_ARRAY)
}

// The media table of a controller's leaf: kinds and byte offsets from the last block to the first, in two lent arrays. A
// refusal leaves both as they were.
pub fn read(
    image: &[u8],
    arguments: Arguments,
    kinds: &mut [u16],
    offsets: &mut [u16],
) -> Result<Reading, Refusal>
    ensures value { reading_answer result ≡ read_answer image.now arguments (length kinds.old) (length offsets.old) }
    ensures kinds_after { kinds.new ≡ read_kinds image.now arguments kinds.old offsets.old }
    ensures offsets_after { offsets.new ≡ read_offsets image.now arguments kinds.old offsets.old }
{
    let reading = read_for(image, arguments, kinds.len(), offsets.len())?;
    let Header {
        row,
        start,
        blocks,
        ..
    } = reading.header;
    table::fill(
        header::up_to_leaves_end(image, arguments.layout, start),
        start,
        blocks,
        row,
        arguments.level,
        usize::from(reading.tally.listed),
        kinds,
        offsets,
    );
    Ok(reading)
}

// Where the block of an entry stands, counted from 0 in table order; the empty part where the reading is refused, 12 apart,
// or there is no such entry.
pub fn view_part(image: &[u8], arguments: Arguments, entry: usize) -> Part
    ensures { result ≡ part_for image.now arguments entry }
{
    let Ok(Reading { header, tally }) = judge(image, arguments) else {
        return Part::EMPTY;
    };
    table::find(
        header::up_to_leaves_end(image, arguments.layout, header.start),
        header.start,
        header.blocks,
        header.row,
        arguments.level,
        usize::from(tally.listed),
        entry,
    )
}

// The block of an entry, as part of the image: its bytes, and that they are the image's own, from where the part starts.
pub fn view(image: &[u8], arguments: Arguments, entry: usize) -> &[u8]
    ensures result_value { result.now ≡ view_for image.now arguments entry }
    ensures ref_ptr_value { result.ref_ptr ≡ (image.entry.ref_ptr.0, (part_for image.now arguments entry).start + image.entry.ref_ptr.1) }
{
    let part = view_part(image, arguments, entry);
    &image[part.start..part.start + part.length]
}
