// A line of text, put together from left to right. What does not fit is left out.
ghost use Rattle.std.specs.Prelude.{◌≡◌, ◌≤◌, length};
ghost use Rattle.text.specs.declared.line.TheConstants.{ROOM};

pub use crate::pattern::{fields, of};
use crate::slice::part;
use crate::{decimal, hex};
use arrayvec::ArrayVec;

// The files that are open from the start, by their descriptors.
pub const STDIN: i32 = 0;

pub const STDOUT: i32 = 1;

pub const STDERR: i32 = 2;

const ROOM: usize = 160;

#[derive(Drop)]
pub struct Line {
    bytes: ArrayVec<u8, ROOM>,
    // Their capacity, which no contract sees of them.
    ghost fits: { length bytes.items ≤ ROOM },
}

impl Line {
    ghost use Rattle.std.specs.Prelude.{[], ◌∷◌, ◌++◌};
    ghost use Rattle.text.specs.Numbers.{decimal_of, hex_of};
    ghost use Rattle.text.specs.Written.{text_of, fitted, blanks_to, ending_at};

    pub fn new() -> Line
        ensures { text_of result ≡ [] }
    {
        Line {
            bytes: ArrayVec::new(),
        }
    }

    pub fn byte(self, byte: u8) -> Line
        ensures { text_of result ≡ fitted (text_of self ++ (byte ∷ [])) }
    {
        self.text(&[byte])
    }

    pub fn text(mut self, text: &[u8]) -> Line
        ensures { text_of result ≡ fitted (text_of self ++ text.now) }
    {
        let room = self.bytes.remaining_capacity();
        let _ = self.bytes.try_extend_from_slice(part(text, 0, room));
        self
    }

    // Blanks up to a column.
    pub fn to(mut self, column: usize) -> Line
        ensures { text_of result ≡ fitted (blanks_to column (text_of self)) }
    {
        let length = self.bytes.len();
        for _ in length..column {
            self = self.byte(b' ');
        }
        self
    }

    // A text that ends at a column.
    #[tactic(auto, using(crate::proofs::Building::fitted_front))]
    pub fn right_text(self, text: &[u8], column: usize) -> Line
        ensures { text_of result ≡ fitted (ending_at column text.now (text_of self)) }
    {
        self.to(column.saturating_sub(text.len())).text(text)
    }

    pub fn decimal(self, n: u64) -> Line
        ensures { text_of result ≡ fitted (text_of self ++ decimal_of n) }
    {
        self.text(&decimal(n))
    }

    // A number that ends at a column.
    pub fn right(self, n: u64, column: usize) -> Line
        ensures { text_of result ≡ fitted (ending_at column (decimal_of n) (text_of self)) }
    {
        self.right_text(&decimal(n), column)
    }

    pub fn hex(self, n: u64, width: usize) -> Line
        ensures { text_of result ≡ fitted (text_of self ++ hex_of width n) }
    {
        self.text(&hex(n, width))
    }

    // To a file.
    pub fn show(self, file: i32) {
        io::write_all(file, &self.bytes);
    }

    // To a file, with its end.
    pub fn end(self, file: i32) {
        self.show(file);
        io::write_all(file, b"\n");
    }

    // To standard output, with its end.
    pub fn print(self) {
        self.end(STDOUT);
    }

    // To standard error, with its end.
    pub fn complain(self) {
        self.end(STDERR);
    }
}

// A line without values.
pub fn say(text: &[u8]) {
    Line::new().text(text).print();
}
