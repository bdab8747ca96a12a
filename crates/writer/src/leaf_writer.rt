// The leaf writer (document 01, 'Leaf and blocks'): it is lent the image from byte 30 on.
ghost use Rattle.std.specs.Prelude.{◌≡◌, ◌+◌, ◌≤◌, length};
ghost use Rattle.rom.specs.Store.{put};
ghost use Rattle.sheet.specs.Sheet.{plain_from};
ghost use Rattle.sheet.specs.Image.{opening_of, encode, encodes, leaf_head_of, leaf_of};
ghost use Rattle.forms.specs.Lent.{entry_of};
ghost use Rattle.writer.specs.Entries.{entries_left};
ghost use Rattle.writer.specs.Inside.{Fits, Holds, Roomy};

use super::counted::CountedSheet;
use super::parts::Entries;
use block::chip;
use forms::LentEntry;
use rom::ByteOffset;
use rom::store::{put_bytes, put_word};

// The first byte of an extended block with an empty body: the top bit, and the length of the type byte alone.
const EMPTY_EXTENDED: u8 = 129;

// Writes an extended block's length and type, and answers where the body starts; others have neither.
fn put_opening(room: &mut [u8], to: usize, entry: LentEntry) -> usize
    requires { Fits room.old to (entry_of entry) (opening_of (entry_of entry)) }
    ensures value { result ≡ to + length (opening_of (entry_of entry.entry)) }
    ensures room_after { room.new ≡ put room.old to (opening_of (entry_of entry.entry)) }
{
    let size = entry.opening_size();
    if size != 0 {
        room[to] = EMPTY_EXTENDED + entry.body.len() as u8;
        room[to + 1] = entry.kind as u8;
    }
    to + size
}

// Writes one block, and answers where the next one starts.
fn put_block(room: &mut [u8], to: usize, entry: LentEntry) -> usize
    requires { Fits room.old to (entry_of entry) (encode (entry_of entry)) }
    ensures value { result ≡ to + length (encode (entry_of entry.entry)) }
    ensures room_after { room.new ≡ put room.old to (encode (entry_of entry.entry)) }
{
    let at = put_opening(room, to, entry);
    put_bytes(room, ByteOffset(at), entry.body);
    at + entry.body.len()
}

// Writes the blocks of entries from a place on.
fn put_entries(room: &mut [u8], start: usize, entries: Entries)
    requires { Holds room.old start (entries_left entries) }
    ensures { room.new ≡ put room.old start (encodes (entries_left entries.entry)) }
{
    let mut to = start;
    for entry in entries {
        to = put_block(room, to, entry);
    }
}

// Writes the connection type, for the 21140 the control byte, and the block count, and answers where the blocks start.
fn put_head(room: &mut [u8], sheet: CountedSheet) -> usize
    requires { 4 ≤ length room.old }
    ensures value { result ≡ length (leaf_head_of (plain_from sheet.entry.blocks sheet.entry.bytes.now)) }
    ensures room_after { room.new ≡ put room.old 0 (leaf_head_of (plain_from sheet.entry.blocks sheet.entry.bytes.now)) }
{
    put_word(room, ByteOffset(0), sheet.connection());
    if sheet.row() == chip::ROW_21140 {
        room[2] = sheet.control();
        room[3] = sheet.blocks;
        return 4;
    }
    room[2] = sheet.blocks;
    3
}

// Writes the leaf of a sheet at the room's front.
pub(crate) fn put_leaf(room: &mut [u8], sheet: CountedSheet)
    requires { Roomy sheet.blocks sheet.bytes.now room.old }
    ensures { room.new ≡ put room.old 0 (leaf_of (plain_from sheet.entry.blocks sheet.entry.bytes.now)) }
{
    let start = put_head(room, sheet);
    put_entries(room, start, sheet.lent_entries());
}
