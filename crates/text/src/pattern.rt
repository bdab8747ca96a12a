// A pattern is text in which '#' stands for the next value in decimal, '%' for it as two hexadecimal digits, and '@' for it
// as 0x and four.
ghost use Rattle.std.specs.Prelude.{◌≡◌, ◌++◌};
ghost use Rattle.text.specs.Written.{text_of, fitted, is_mark, spelled_as, with_values, value_in, with_fields};

use crate::digit;
use crate::line::Line;
use crate::slice::{byte_at, word_at};

impl Line {
    // A value as a mark of a pattern has it.
    #[tactic(auto, unfolding(crate::specs::Written::spelled_as, rom::specs::Bytes::pick))]
    fn value(self, mark: u8, n: u64) -> Line
        ensures { text_of result ≡ fitted (text_of self ++ spelled_as mark n) }
    {
        match mark {
            b'#' => self.decimal(n),
            b'%' => self.hex(n, 2),
            _ => self.text(b"0x").hex(n, 4),
        }
    }

    // A pattern with its values.
    pub fn with(mut self, pattern: &[u8], values: [u64; 4]) -> Line
        ensures { text_of result ≡ fitted (text_of self ++ with_values values pattern.now) }
    {
        let mut values = values.iter();
        for byte in pattern {
            self = if is_mark(*byte) {
                self.value(*byte, values.next().copied().unwrap_or(0))
            } else {
                self.byte(*byte)
            };
        }
        self
    }
}

#[tactic(auto, unfolding(crate::specs::Written::is_mark))]
fn is_mark(byte: u8) -> bool
    ensures { result ≡ is_mark byte }
{
    matches!(byte, b'#' | b'%' | b'@')
}

// The value of a mark that names a byte.
#[tactic(auto, unfolding(crate::specs::Written::value_in, rom::specs::Bytes::pick))]
fn value_of(mark: u8, bytes: &[u8], at: usize) -> u64
    ensures { result ≡ value_in bytes.now mark at }
{
    if mark == b'@' {
        u64::from(word_at(bytes, at))
    } else {
        u64::from(byte_at(bytes, at))
    }
}

// A pattern over bytes: behind each mark stands the place of its value, a hexadecimal digit. What is none is place 16.
pub fn fields(mut line: Line, pattern: &[u8], bytes: &[u8]) -> Line
    ensures { text_of result ≡ fitted (text_of line ++ with_fields bytes.now pattern.now) }
{
    let mut pattern = pattern.iter();
    while let Some(byte) = pattern.next() {
        line = if is_mark(*byte) {
            let place = pattern.next().copied().unwrap_or(0);
            let at = digit(place).unwrap_or(16);
            line.value(*byte, value_of(*byte, bytes, usize::from(at)))
        } else {
            line.byte(*byte)
        };
    }
    line
}

// A line with up to four values.
pub fn of(pattern: &[u8], values: [u64; 4]) -> Line
    ensures { text_of result ≡ fitted (with_values values pattern.now) }
{
    Line::new().with(pattern, values)
}
