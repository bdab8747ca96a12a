// The blocks of a controller's leaf one by one, by their numbers, whether the reading is accepted or not: where each
// stands, and which one a refusal names.
#![tactic(auto)]

ghost use Rattle.std.specs.Prelude.{◌≡◌, ◌<◌, drop, IfSome};
ghost use Rattle.std.specs.Option.{is_some};
ghost use Rattle.rom.specs.Geometry.{none};
ghost use Rattle.rom.specs.Numbers.{number_or_none};
ghost use Rattle.leaf.specs.Leaf.{cut, first_from, place_by_stepping};
ghost use Rattle.survey.specs.Survey.{has_block, place_at, place_for, place_or_nowhere, is_refused, refused_for};

use block::shape;
use reader::Arguments;

// A card as it is read: its image, and the arguments of the reading.
#[derive(Clone, Copy)]
pub struct Card<'a> {
    pub image: &'a [u8],
    pub arguments: Arguments,
}

// A block's byte offset in the image, how many bytes its size says that it has, and its kind.
#[derive(Clone, Copy)]
pub struct Place {
    pub start: u16,
    pub size: u16,
    pub kind: u16,
}

// The rest of a leaf behind so many bytes, empty where it has no more.
fn behind(rest: &[u8], size: usize) -> &[u8]
    ensures { result.now ≡ drop size rest.now }
{
    rest.get(size..).unwrap_or(&[])
}

// The place of a block of a leaf, of which the first stands at an offset. Where that is below 1024 every block's offset has 16
// bits, since at most 255 blocks of at most 128 bytes stand before it.
fn find_place(blocks: &[u8], start: usize, row: usize, number: u8) -> Place
    requires { start < 1024 }
    ensures { result ≡ place_at row (place_by_stepping row start number blocks.now) }
{
    let mut rest = blocks;
    let mut at = start;
    for _ in 0..number {
        let size = shape::size_at(rest, row);
        rest = behind(rest, size);
        at += size;
    }
    Place {
        start: at as u16,
        size: shape::size_at(rest, row) as u16,
        kind: shape::kind_at(rest, row),
    }
}

// The number of the first block of a leaf that a reader of a level refuses.
fn first_refused(blocks: &[u8], count: u8, row: usize, level: u8, first_version: bool) -> Option<u8>
    ensures value { number_or_none result ≡ first_from (is_refused first_version row level) 0 (cut row count blocks.now) }
    ensures below { IfSome result (λ number. number < none) }
{
    let mut rest = blocks;
    for k in 0..count {
        match block::judge_in(rest, row, level, first_version) {
            Ok(block) => rest = behind(rest, block.size()),
            Err(_) => return Some(k),
        }
    }
    None
}

impl Card<'_> {
    // Where a block stands, by its number; nowhere where the header is refused or there is no such block.
    pub fn block_place(self, number: u8) -> Option<Place>
        ensures value { place_or_nowhere result ≡ place_for self.entry.image.now self.entry.arguments number }
        ensures found { is_some result ≡ has_block self.entry.image.now self.entry.arguments number }
    {
        let Ok(header) = header::read_header(self.image, self.arguments) else {
            return None;
        };
        if header.blocks <= number {
            return None;
        }
        let rest = header::up_to_leaves_end(self.image, self.arguments.layout, header.start);
        Some(find_place(rest, header.start, header.row, number))
    }

    // The number of the first block that is refused, where the header is not.
    pub fn refused_block(self) -> Option<u8>
        ensures value { number_or_none result ≡ refused_for self.entry.image.now self.entry.arguments }
        ensures below { IfSome result (λ number. number < none) }
    {
        let Ok(header) = header::read_header(self.image, self.arguments) else {
            return None;
        };
        first_refused(
            header::up_to_leaves_end(self.image, self.arguments.layout, header.start),
            header.blocks,
            header.row,
            self.arguments.level,
            header::is_first_version(self.image),
        )
    }
}
