// The blocks of a leaf, judged one after another (document 01, 'Leaf and blocks'; document 02, requests 3 and 12).
#![tactic(auto)]

mod sorts;

ghost use Rattle.std.specs.Prelude.{◌≡◌};
ghost use Rattle.leaf.specs.Leaf.{cut};
ghost use Rattle.leaf.specs.Tally.{tally_of};
ghost use Rattle.tally.specs.Answer.{tally_answer};

use rom::Refusal;
pub use sorts::Tally;

// The tally of a leaf's blocks, or the first refusal of one, or 18, or 31: a bit of the mode byte set in two power blocks.
pub fn judge(
    blocks: &[u8],
    count: u8,
    row: usize,
    level: u8,
    first_version: bool,
) -> Result<Tally, Refusal>
    ensures { tally_answer result ≡ tally_of first_version row level (cut row count blocks.now) }
{
    let mut rest = blocks;
    let mut tally = Tally::new();
    // Bits of the mode byte that a power block has set so far, and that two have.
    let mut modes = 0u8;
    let mut repeated = 0u8;
    for number in 0..count {
        let block = block::judge_in(rest, row, level, first_version)?;
        tally = tally.with(block, number);
        let mode = block.mode();
        repeated |= modes & mode;
        modes |= mode;
        let size = block.size();
        rest = &rest[size..];
    }
    if tally.clashes() {
        return Err(Refusal::Clash);
    }
    if repeated != 0 {
        return Err(Refusal::RepeatedMode);
    }
    Ok(tally)
}
