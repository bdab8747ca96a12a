// The autosense walk: which medium of an image's table a controller stands on (document 01, 'The walk'; document 02, requests
// 4, 5 and 12).
#![tactic(auto)]

ghost use Rattle.std.specs.Prelude.{◌≡◌, ◌<◌, ◌||◌, ◌&&◌, eqb, ℕ, List, [], ◌∷◌, true, MatchOption, IfSome, IfOk, Ok};
ghost use Rattle.rom.specs.Geometry.{none};
ghost use Rattle.rom.specs.Numbers.{number_or_none, answer_number};
ghost use Rattle.rom.specs.Refusal.{◌⇒◌, first_met};
ghost use Rattle.format.specs.Block.{the_later_version};
ghost use Rattle.block.specs.declared.Medium.{Medium};
ghost use Rattle.block.specs.Answer.{Listed, block_of};
ghost use Rattle.leaf.specs.Leaf.{cut, block_causes};
ghost use Rattle.autosense.specs.Inside.{choice_from};
ghost use Rattle.walk.specs.Walk.{no_rows, rows_of, fresh_walk, way_of, is_fixed, is_capable, has_medium};
ghost use Rattle.walk.specs.Walk.{flag_at, bad_report, last_below, is_candidate, first_up, stays, fixed_block, choice, sensed, chosen};
ghost use Rattle.walk.specs.Walk.{switched, load_for, look_for, clear_for, walked_from};

use block::{Block, Medium, chip, shape};
use reader::{Arguments, Reading};
use rom::{NONE, Refusal};
use walk::ROW_LENGTH;
pub use walk::{Rows, Walk, Walked, Way};

// ## Connection types that are autosensed (document 01, 'The walk')

const AUTOSENSE: u16 = 0x0800;

const AUTOSENSE_WITH_NWAY: u16 = 0x0900;

const AUTOSENSE_ONCE: u16 = 0x8800;

// Of a card whose maker selected nothing (document 02, request 4).
const EMPTY_CONNECTION: u16 = 0xFFFF;

// ## Connection types that are fixed (document 02, request 5)

// A type whose low byte is below this means that media code.
const MEDIA_CODES: u8 = 9;

// Those that name a capability bit of a PHY.
const MII_10BASET: u16 = 0x0009;

const MII_10BASET_FULL_DUPLEX: u16 = 0x020A;

const MII_100BASETX: u16 = 0x000D;

const MII_100BASETX_FULL_DUPLEX: u16 = 0x020E;

const MII_100BASET4: u16 = 0x000F;

// The bits of a capability word that they name.
const CAPABILITY_10BASET: u16 = 11;

const CAPABILITY_10BASET_FULL_DUPLEX: u16 = 12;

const CAPABILITY_100BASETX: u16 = 13;

const CAPABILITY_100BASETX_FULL_DUPLEX: u16 = 14;

const CAPABILITY_100BASET4: u16 = 15;

// ## Fresh and cleared

// Rows of no block.
#[tactic(auto, unfolding(walk::specs::Walk::no_rows, walk::specs::Walk::no_flags))]
fn no_rows() -> Rows
    ensures { result ≡ no_rows }
{
    Rows {
        listed: [0; ROW_LENGTH],
        active_invalid: [0; ROW_LENGTH],
        fixed: [0; ROW_LENGTH],
    }
}

#[tactic(auto, unfolding(walk::specs::Walk::fresh_walk))]
pub fn fresh() -> Walk
    ensures { result ≡ fresh_walk }
{
    Walk {
        loaded: false,
        connection: 0,
        blocks: 0,
        rows: no_rows(),
        default_number: NONE,
        settled: false,
        selected: NONE,
        looks: 0,
        switches: 0,
    }
}

// Makes a walk that is lent fresh.
#[tactic(auto, unfolding(walk::specs::Walk::clear_for))]
pub fn clear_lent(walk: &mut Walk)
    ensures { walked_from (Ok tt) walk.new ≡ clear_for walk.old }
{
    *walk = fresh();
}

// ## Loading

// Whether capabilities have the bit that a type names.
#[tactic(auto, unfolding(walk::specs::Walk::is_capable, rom::specs::Bytes::pick, rom::specs::Bytes::bit))]
fn is_capable(connection: u16, capabilities: u16) -> bool
    ensures { result ≡ is_capable connection capabilities }
{
    match connection {
        MII_10BASET => (capabilities >> CAPABILITY_10BASET) % 2 == 1,
        MII_10BASET_FULL_DUPLEX => (capabilities >> CAPABILITY_10BASET_FULL_DUPLEX) % 2 == 1,
        MII_100BASETX => (capabilities >> CAPABILITY_100BASETX) % 2 == 1,
        MII_100BASETX_FULL_DUPLEX => (capabilities >> CAPABILITY_100BASETX_FULL_DUPLEX) % 2 == 1,
        MII_100BASET4 => (capabilities >> CAPABILITY_100BASET4) % 2 == 1,
        _ => false,
    }
}

// Whether a listed block has the medium that a type is fixed to.
#[tactic(auto, unfolding(walk::specs::Walk::has_medium, rom::specs::Bytes::pick))]
fn has_medium(medium: Medium, connection: u16) -> bool
    ensures { result ≡ has_medium connection medium.media_code medium.capabilities }
{
    let low = (connection % 256) as u8;
    if low < MEDIA_CODES {
        medium.media_code == low
    } else {
        is_capable(connection, medium.capabilities)
    }
}

// The same, and false where the type is not fixed.
fn has_fixed_medium(medium: Medium, connection: u16) -> bool
    ensures { result ≡ (is_fixed (way_of connection) && has_medium connection medium.media_code medium.capabilities) }
{
    is_fixed(way_of(connection)) && has_medium(medium, connection)
}

// The medium or the PHY of the block at the start of the rest of a leaf, where it is listed.
fn medium_at(rest: &[u8], row: usize, level: u8) -> Option<Medium>
    ensures { MatchOption result
        ((medium : Medium) → block_of row level rest.now ≡ Listed medium → ⊥)
        (λ medium. block_of row level rest.now ≡ Listed medium) }
{
    let Ok(block) = block::judge_block(rest, row, level) else {
        return None;
    };
    if let Block::Listed(medium) = block {
        Some(medium)
    } else {
        None
    }
}

// The rows of a leaf's accepted blocks, under its connection type.
fn rows_of(blocks: &[u8], count: u8, row: usize, level: u8, connection: u16) -> Rows
    requires { first_met (block_causes the_later_version row level (cut row count blocks.now)) ≡ 0 }
    ensures { result ≡ rows_of connection row level (cut row count blocks.now) }
{
    let taken = chip::taken_as(connection);
    let mut rows = no_rows();
    let mut rest = blocks;
    for number in 0..usize::from(count) {
        let size = if let Some(medium) = medium_at(rest, row, level) {
            rows.listed[number] = 1;
            rows.active_invalid[number] = u8::from(medium.active_invalid);
            rows.fixed[number] = u8::from(has_fixed_medium(medium, taken));
            medium.size
        } else {
            shape::size_at(rest, row)
        };
        rest = &rest[size..];
    }
    rows
}

// Loads the leaf that the arguments name into a walk that is lent, if the reader accepts the image, 12 apart.
pub fn load_lent(walk: &mut Walk, image: &[u8], arguments: Arguments) -> Result<(), Refusal>
    ensures { walked_from result walk.new ≡ load_for walk.old image.now arguments }
{
    if walk.loaded {
        return Err(Refusal::Loaded);
    }
    let Reading { header, tally } = reader::judge(image, arguments)?;
    *walk = Walk {
        loaded: true,
        connection: header.connection,
        blocks: header.blocks,
        rows: rows_of(
            header::up_to_leaves_end(image, arguments.layout, header.start),
            header.blocks,
            header.row,
            arguments.level,
            header.connection,
        ),
        default_number: tally.default_number.unwrap_or(NONE),
        settled: false,
        selected: NONE,
        looks: 0,
        switches: 0,
    };
    Ok(())
}

// ## Looking

// The way to walk under a connection type.
#[tactic(auto, unfolding(walk::proofs::Computes::way_computes))]
pub fn way_of(connection: u16) -> Way
    ensures { result ≡ way_of connection }
{
    match connection {
        AUTOSENSE | AUTOSENSE_WITH_NWAY => Way::EveryLook,
        AUTOSENSE_ONCE | EMPTY_CONNECTION => Way::Once,
        _ => Way::Fixed,
    }
}

// Whether looks go by the fixed medium.
pub fn is_fixed(way: Way) -> bool
    ensures { result ≡ is_fixed way }
{
    matches!(way, Way::Fixed)
}

// Whether a block's flag is 1; there is none past the end.
#[tactic(auto, unfolding(walk::specs::Walk::flag_at))]
fn flag_at(row: &[u8], number: u8) -> bool
    ensures { result ≡ flag_at row.now number }
{
    row.get(usize::from(number)) == Some(&1)
}

// Whether a report has not a byte for each block, or one of those bytes is above 1.
fn bad_report(report: &[u8], blocks: u8) -> bool
    ensures { result ≡ bad_report report.now blocks }
{
    match report.get(..usize::from(blocks)) {
        Some(links) => links.iter().any(|link| 1 < *link),
        None => true,
    }
}

// The last block below a count whose flag is 1.
fn last_flagged(row: &[u8], blocks: u8) -> Option<u8>
    ensures value { number_or_none result ≡ last_below (flag_at row.now) blocks }
    ensures below { IfSome result (λ number. (number < blocks) × (number < none)) }
{
    (0..blocks).rfind(|number| flag_at(row, *number))
}

// The first block in table order, from the last block to the first, that has the fixed medium.
#[tactic(auto, unfolding(walk::specs::Walk::fixed_block))]
pub fn fixed_block(walk: &Walk) -> Option<u8>
    ensures value { number_or_none result ≡ fixed_block walk.now }
    ensures below { IfSome result (λ number. (number < walk.now.blocks) × (number < none)) }
{
    last_flagged(&walk.rows.fixed, walk.blocks)
}

// Step 1: whether a walk that is settled with a block selected stays there: it is autosensed once, or the block has
// Active_Invalid, or is up.
#[tactic(auto, unfolding(walk::specs::Walk::stays))]
fn stays_there(walk: &Walk, report: &[u8]) -> bool
    ensures { result ≡ stays walk.now report.now }
{
    walk.settled
        && walk.selected != NONE
        && (matches!(way_of(walk.connection), Way::Once)
            || flag_at(&walk.rows.active_invalid, walk.selected)
            || flag_at(report, walk.selected))
}

// Whether a block is a candidate: listed, and once settled without Active_Invalid.
#[tactic(auto, unfolding(walk::specs::Walk::is_candidate))]
fn is_candidate(rows: &Rows, settled: bool, number: u8) -> bool
    ensures { result ≡ is_candidate rows.now.listed rows.now.active_invalid settled number }
{
    flag_at(&rows.listed, number) && !(settled && flag_at(&rows.active_invalid, number))
}

// Step 2: the first candidate in table order, from the last block to the first, that is up.
#[tactic(auto, unfolding(walk::specs::Walk::first_up))]
fn first_up(rows: &Rows, settled: bool, report: &[u8], blocks: u8) -> Option<u8>
    ensures value { number_or_none result ≡ first_up rows.now.listed rows.now.active_invalid settled report.now blocks }
    ensures below { IfSome result (λ number. number < none) }
{
    (0..blocks).rfind(|number| is_candidate(rows, settled, *number) && flag_at(report, *number))
}

// The switches after a look; at their most they stay, which no look of a walk meets that began fresh.
#[tactic(auto, unfolding(walk::specs::Walk::switched, rom::specs::Bytes::pick))]
fn count_switch(switches: u16, before: u8, after: u8) -> u16
    ensures { result ≡ switched switches before after }
{
    if before == after {
        switches
    } else {
        switches.saturating_add(1)
    }
}

// Steps 1 and 2: the block that a look settles on where the type is autosensed. Where there is none, it selects the default.
#[tactic(auto, using(crate::proofs::Steps::sensed_staying, crate::proofs::Steps::sensed_up), unfolding(walk::specs::Walk::up_in))]
fn sense(walk: &Walk, report: &[u8]) -> Option<u8>
    ensures { choice_from walk.now result ≡ sensed walk.now report.now }
{
    if stays_there(walk, report) {
        Some(walk.selected)
    } else {
        first_up(&walk.rows, walk.settled, report, walk.blocks)
    }
}

// The block that a look settles on where the type is fixed: refused where no listed block has the medium.
#[tactic(auto, unfolding(rom::specs::Refusal::first_met, rom::specs::Bytes::pick, walk::specs::Walk::chosen))]
fn fixed_choice(walk: &Walk) -> Result<Option<u8>, Refusal>
    ensures number { answer_number result
        ≡ first_met ((32 ⇒ is_fixed (way_of walk.now.connection) && eqb (fixed_block walk.now) none) ∷ []) }
    ensures block { (report : List ℕ) → IfOk result (λ fixed. MatchOption fixed
        (sensed walk.now report ≡ chosen walk.now report)
        (λ block. choice true block ≡ chosen walk.now report)) }
{
    if !is_fixed(way_of(walk.connection)) {
        return Ok(None);
    }
    let block = fixed_block(walk).ok_or(Refusal::NoFixedMedium)?;
    Ok(Some(block))
}

// One look at the links by a walk that is lent: a report has a byte for each block, 1 up, 0 down.
#[tactic(auto, unfolding(walk::proofs::Computes::refusal_computes))]
pub fn look_lent(walk: &mut Walk, report: &[u8]) -> Result<(), Refusal>
    ensures { walked_from result walk.new ≡ look_for walk.old report.now }
{
    if !walk.loaded {
        return Err(Refusal::Fresh);
    }
    let fixed = fixed_choice(walk)?;
    let looks = walk.looks.checked_add(1).ok_or(Refusal::Looks)?;
    if bad_report(report, walk.blocks) {
        return Err(Refusal::Report);
    }
    let block = fixed.or_else(|| sense(walk, report));
    let selected = block.unwrap_or(walk.default_number);
    walk.switches = count_switch(walk.switches, walk.selected, selected);
    walk.settled |= block.is_some();
    walk.selected = selected;
    walk.looks = looks;
    Ok(())
}

// ## By value

// A call's number, 0 for acceptance.
fn number_answered(answer: Result<(), Refusal>) -> u8
    ensures { result ≡ answer_number answer }
{
    match answer {
        Ok(()) => 0,
        Err(refusal) => refusal.number(),
    }
}

// Loads the leaf that the arguments name, if the reader accepts the image, 12 apart.
pub fn load(walk: Walk, image: &[u8], arguments: Arguments) -> Walked
    ensures { result ≡ load_for walk image.now arguments }
{
    let mut next = walk;
    let answer = load_lent(&mut next, image, arguments);
    Walked {
        number: number_answered(answer),
        walk: next,
    }
}

// One look at the links: a report has a byte for each block, 1 up, 0 down.
pub fn look(walk: Walk, report: &[u8]) -> Walked
    ensures { result ≡ look_for walk report.now }
{
    let mut next = walk;
    let answer = look_lent(&mut next, report);
    Walked {
        number: number_answered(answer),
        walk: next,
    }
}

// Makes a walk fresh, and always succeeds.
pub fn clear(walk: Walk) -> Walked
    ensures { result ≡ clear_for walk }
{
    let mut next = walk;
    clear_lent(&mut next);
    Walked {
        number: 0,
        walk: next,
    }
}
