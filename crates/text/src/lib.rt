// Text: lines, tables of words, and numbers.
#![tactic(auto)]

pub mod line;
mod pattern;
pub mod slice;

ghost use Rattle.std.specs.Prelude.{◌≡◌, ◌<◌, [], ◌-◌, get_or, IfSome};
ghost use Rattle.std.specs.Option.{unwrap_or};
ghost use Rattle.text.specs.Lines.{line_of, behind_line, lines_of};
ghost use Rattle.text.specs.Tables.{has_key, words_for};
ghost use Rattle.text.specs.Numbers.{digit_of, no_number, decimal_number, decimal_of, hex_of};
ghost use Rattle.text.specs.Printable.{is_printable, is_text};

use arrayvec::ArrayVec;
use slice::{byte_at, from, part};

// ## Lines

// The first line of a text, without its end.
pub fn first_line(text: &[u8]) -> &[u8]
    ensures { result.now ≡ line_of text.now }
{
    let end = text
        .iter()
        .position(|byte| *byte == b'\n')
        .unwrap_or(text.len());
    &text[..end]
}

// What stands behind the first line and its end.
pub fn behind_line(text: &[u8]) -> &[u8]
    ensures { result.now ≡ behind_line text.now }
{
    from(from(text, first_line(text).len()), 1)
}

// The line of a text with a number, from 1; empty where there is none.
pub fn line_number(text: &[u8], number: u32) -> &[u8]
    ensures { result.now ≡ get_or (lines_of text.now) (number - 1) [] }
{
    text.split(|byte| *byte == b'\n')
        .nth(number.saturating_sub(1) as usize)
        .unwrap_or(&[])
}

// ## Tables: each line is a key, a blank and words

// Whether a line begins with a key and a blank.
#[tactic(auto, unfolding(crate::specs::Tables::has_key, crate::specs::Slices::same_bytes))]
fn has_key(line: &[u8], key: &[u8]) -> bool
    ensures { result ≡ has_key key.now line.now }
{
    byte_at(line, key.len()) == b' ' && part(line, 0, key.len()) == key
}

// The words behind a key; empty where no line has it.
pub fn words<'a>(table: &'a [u8], key: &[u8]) -> &'a [u8]
    ensures { result.now ≡ words_for table.now key.now }
{
    let line = table
        .split(|byte| *byte == b'\n')
        .find(|line| has_key(line, key))
        .unwrap_or(&[]);
    from(from(line, key.len()), 1)
}

// The words behind a decimal number.
pub fn decimal_words(table: &[u8], number: u64) -> &[u8]
    ensures { result.now ≡ words_for table.now (decimal_of number) }
{
    words(table, &decimal(number))
}

// The words behind a number of four hexadecimal digits.
pub fn hex_words(table: &[u8], number: u16) -> &[u8]
    ensures { result.now ≡ words_for table.now (hex_of 4 number) }
{
    words(table, &hex(u64::from(number), 4))
}

// ## Numbers that are spelled

// In decimal.
#[tactic(auto, using(crate::proofs::Places::numeral_is))]
pub(crate) fn decimal(n: u64) -> ArrayVec<u8, 20>
    ensures { result.items ≡ decimal_of n }
{
    let mut digits = [0; 20];
    let count = io::decimal(n, &mut digits);
    let mut digits = ArrayVec::from(digits);
    digits.truncate(count);
    digits
}

// In hexadecimal, with zeros in front up to a width.
#[tactic(auto, using(crate::proofs::Places::numeral_is))]
pub(crate) fn hex(n: u64, width: usize) -> ArrayVec<u8, 16>
    ensures { result.items ≡ hex_of width n }
{
    let mut digits = [0; 16];
    let count = io::hex(n, width, &mut digits);
    let mut digits = ArrayVec::from(digits);
    digits.truncate(count);
    digits
}

// ## Numbers that are read

// The value of a hexadecimal digit.
#[tactic(auto, unfolding(crate::specs::Numbers::digit_of, rom::specs::Bytes::pick))]
pub fn digit(byte: u8) -> Option<u8>
    ensures value { unwrap_or result 16 ≡ digit_of byte }
    ensures below { IfSome result (λ digit. digit < 16) }
{
    match byte {
        b'0'..=b'9' => Some(byte - b'0'),
        b'A'..=b'F' => Some(byte - b'A' + 10),
        b'a'..=b'f' => Some(byte - b'a' + 10),
        _ => None,
    }
}

// A decimal number of one to five digits.
#[tactic(auto, unfolding(crate::specs::Numbers::decimal_number, crate::specs::Numbers::read_on, rom::specs::Bytes::pick))]
pub fn number(text: &[u8]) -> Option<u32>
    ensures value { unwrap_or result no_number ≡ decimal_number text.now }
    ensures below { IfSome result (λ n. n < no_number) }
{
    if text.is_empty() || 5 < text.len() {
        return None;
    }
    let mut number = 0;
    for byte in text {
        let Some(digit @ 0..=9) = digit(*byte) else {
            return None;
        };
        number = 10 * number + u32::from(digit);
    }
    Some(number)
}

// ## Whether it is text

#[tactic(auto, unfolding(crate::specs::Printable::is_printable))]
fn is_printable(byte: u8) -> bool
    ensures { result ≡ is_printable byte }
{
    matches!(byte, b'\n' | b'\r' | b'\t' | b' '..=b'~')
}

// Whether every byte is printable or the end of a line, a carriage return or a tab.
pub fn is_text(bytes: &[u8]) -> bool
    ensures { result ≡ is_text bytes.now }
{
    bytes.iter().all(|byte| is_printable(*byte))
}
