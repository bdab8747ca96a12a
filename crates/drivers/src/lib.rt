// What drivers make of a card: where a walk stands after each look, and what readers of every level see.
#![tactic(auto)]

pub mod looks;
pub mod older;

use arrayvec::ArrayVec;
use text::line::Line;

// How many numbers of links or of blocks one sentence names.
const NAMED: usize = 6;

// The first of such numbers, and one more where there are others.
pub(crate) type Numbers = ArrayVec<usize, 7>;

// The numbers of a sentence.
pub(crate) fn number_words(line: Line, numbers: &[usize]) -> Line {
    let mut line = line;
    for number in numbers.iter().take(NAMED) {
        line = line.with(b" #", [*number as u64, 0, 0, 0]);
    }
    if NAMED < numbers.len() {
        line.text(b" ..")
    } else {
        line
    }
}
