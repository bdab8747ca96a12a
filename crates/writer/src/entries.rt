// The entries of a sheet: what no image of the chip can hold, and how long the leaf becomes (document 01, 24 to 26).
ghost use Rattle.std.specs.Prelude.{◌≡◌, ◌<◌, length};
ghost use Rattle.rom.specs.Refusal.{first_met};
ghost use Rattle.rom.specs.Numbers.{answer_number};
ghost use Rattle.sheet.specs.Write.{is_other_family, is_bad_body, is_bad};
ghost use Rattle.forms.specs.Lent.{entry_of};
ghost use Rattle.writer.specs.Inside.{entry_causes};
ghost use Rattle.writer.specs.Entries.{entries_left};

use super::parts::Entries;
use block::{KIND_21041, KIND_COMPACT, chip};
use forms::LentEntry;
use rom::{ByteOffset, Refusal};

// A 21041 has blocks of its own kind only, and no other chip has those.
#[tactic(auto, unfolding(sheet::specs::Write::is_other_family, rom::specs::Bytes::pick, format::specs::Block::is21041))]
fn is_other_family(row: usize, kind: u16) -> bool
    ensures { result ≡ is_other_family row kind }
{
    if row == chip::ROW_21041 {
        kind != KIND_21041
    } else {
        kind == KIND_21041
    }
}

// Whether no block of the kind has this body.
#[tactic(auto, unfolding(sheet::specs::Write::is_bad_body, rom::specs::Bytes::pick))]
fn is_bad_body(kind: u16, body: &[u8]) -> bool
    ensures { result ≡ is_bad_body kind body.now }
{
    let first = rom::byte_at(body, ByteOffset(0));
    match kind {
        KIND_21041 => body.len() != block::sia_size(first),
        KIND_COMPACT => body.len() != 4 || 128 <= first,
        _ => sheet::LONGEST_BODY < body.len(),
    }
}

// Whether no image of the chip holds the entry.
#[tactic(auto, unfolding(sheet::specs::Write::is_bad))]
fn is_bad(row: usize, entry: LentEntry) -> bool
    ensures { result ≡ is_bad row (entry_of entry.entry) }
{
    KIND_21041 < entry.kind
        || is_other_family(row, entry.kind)
        || is_bad_body(entry.kind, entry.body)
}

// Refusals 25 and 26 of entries, where the first block stands at `start` and leaves end before `limit`.
pub(crate) fn check_entries(
    entries: Entries,
    row: usize,
    start: usize,
    limit: usize,
) -> Result<(), Refusal>
    requires { (length (entries_left entries) < 256) × (start < 256) }
    ensures { answer_number result ≡ first_met (entry_causes limit row start (entries_left entries.entry)) }
{
    let mut end = start;
    for entry in entries {
        if is_bad(row, entry) {
            return Err(Refusal::SheetEntry);
        }
        end += entry.block_size();
    }
    if limit < end {
        return Err(Refusal::LeafEnd);
    }
    Ok(())
}
