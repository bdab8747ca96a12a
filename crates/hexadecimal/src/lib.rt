// Hexadecimal text as programs print it, back to its bytes. specs/Text.antt says which forms there are.
#![tactic(auto)]

pub mod form;
mod group;
pub mod held;
pub mod mode;
pub mod offset;
mod room;
mod row;

ghost use Rattle.std.specs.Prelude.{◌≡◌};
ghost use Rattle.hexadecimal.specs.Text.{unread, line_read, finished, decoded};

use held::Held;
pub use held::Problem;
use mode::Mode;
use offset::without_blanks;
pub use room::HeldBytes;
use text::{behind_line, first_line};

// What has been read of a text: its bytes, how its lines read, and how many lines that is.
#[derive(Drop)]
pub struct DecodedText {
    pub held: Held,
    pub mode: Mode,
    pub line: u32,
}

#[tactic(auto, unfolding(crate::proofs::Opened::of_texts))]
impl DecodedText {
    fn new() -> DecodedText
        ensures { result ≡ unread }
    {
        DecodedText {
            held: Held::new(),
            mode: Mode::new(),
            line: 0,
        }
    }

    // One line more.
    fn read_line(&mut self, line: &[u8])
        ensures { self.new ≡ line_read line.now self.old }
    {
        let line = without_blanks(line);
        let before = self.mode;
        self.mode = before.after(line);
        self.held.read_line(line, before, self.mode);
        self.line = self.line.wrapping_add(1);
    }

    // A text has a byte at least.
    fn finish(&mut self)
        ensures { self.new ≡ finished self.old }
    {
        if self.held.problem.is_none() && self.held.bytes.is_empty() {
            self.held.fault(Problem::NoBytes);
        }
    }
}

// The bytes of a text, or what is wrong with it and in which line, counted from 1.
#[tactic(auto, using(text::proofs::Lines::lines_behind, text::proofs::Lines::behind_shorter), unfolding(crate::proofs::Opened::of_texts))]
pub fn decode(source: &[u8]) -> DecodedText
    ensures { result ≡ decoded source.now }
{
    let mut reading = DecodedText::new();
    // By rests and no `split`, which gives one line more where a text ends with the end of a line: each line counts.
    let mut rest = source;
    while !rest.is_empty() {
        reading.read_line(first_line(rest));
        if reading.held.problem.is_some() {
            return reading;
        }
        rest = behind_line(rest);
    }
    reading.finish();
    reading
}
