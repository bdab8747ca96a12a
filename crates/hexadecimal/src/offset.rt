// Where a line's offset stands and what it says. A line begins with no blank here.
#![tactic(auto, unfolding(crate::proofs::Opened::of_offsets))]

ghost use Rattle.std.specs.Prelude.{◌≡◌, true, false};
ghost use Rattle.hexadecimal.specs.Offset.{is_blank, is_of, run_of, without_blanks, is_marked, behind_mark};
ghost use Rattle.hexadecimal.specs.Offset.{digits_of, behind_digits, has_colon, row_part, is_offset, value_of, offset_of};
ghost use Rattle.hexadecimal.specs.Offset.{beginning_of, form_by_width, form_of, is_plain};

use crate::form::TextForm;
use text::slice::{from, part};

// ## Characters

pub(crate) fn is_blank(byte: u8) -> bool
    ensures { result ≡ is_blank byte }
{
    matches!(byte, b' ' | b'\t' | b'\r')
}

fn is_digit(byte: u8) -> bool
    ensures { result ≡ is_of true byte }
{
    text::digit(byte).is_some()
}

// How many hexadecimal digits a text begins with.
pub fn digit_run(source: &[u8]) -> usize
    ensures { result ≡ run_of true source.now }
{
    source.iter().take_while(|byte| is_digit(**byte)).count()
}

pub(crate) fn without_blanks(line: &[u8]) -> &[u8]
    ensures { result.now ≡ without_blanks line.now }
{
    let blanks = line.iter().take_while(|byte| is_blank(**byte)).count();
    &line[blanks..]
}

// ## The parts of a line: 0x or not, digits, a colon or not, the row

fn is_marked(line: &[u8]) -> bool
    ensures { result ≡ is_marked line.now }
{
    matches!(line, [b'0', b'x', ..])
}

pub fn behind_mark(line: &[u8]) -> &[u8]
    ensures { result.now ≡ behind_mark line.now }
{
    match line {
        [b'0', b'x', rest @ ..] => rest,
        _ => line,
    }
}

fn digits_of(line: &[u8]) -> &[u8]
    ensures { result.now ≡ digits_of line.now }
{
    let source = behind_mark(line);
    part(source, 0, digit_run(source))
}

fn behind_digits(line: &[u8]) -> &[u8]
    ensures { result.now ≡ behind_digits line.now }
{
    let source = behind_mark(line);
    from(source, digit_run(source))
}

fn has_colon(line: &[u8]) -> bool
    ensures { result ≡ has_colon line.now }
{
    matches!(behind_digits(line), [b':', ..])
}

pub(crate) fn row_part(line: &[u8]) -> &[u8]
    ensures { result.now ≡ row_part line.now }
{
    match behind_digits(line) {
        [b':', row @ ..] => row,
        behind => behind,
    }
}

// Whether a line begins with an offset: up to eight digits, and then a colon, a blank or nothing.
fn is_offset(line: &[u8]) -> bool
    ensures { result ≡ is_offset line.now }
{
    matches!(digits_of(line).len(), 1..=8)
        && match behind_digits(line) {
            [] => true,
            [byte, ..] => *byte == b':' || is_blank(*byte),
        }
}

// The value of hexadecimal digits, of which the last eight count. What is none counts as 16.
pub fn value_of(digits: &[u8]) -> usize
    ensures { result ≡ value_of digits.now }
{
    let mut value = 0;
    for byte in digits {
        let digit = text::digit(*byte).unwrap_or(16);
        value = 16 * (value % 0x1000_0000) + usize::from(digit);
    }
    value
}

// The offset in bytes that a line of a form begins with.
pub(crate) fn offset_of(line: &[u8], form: TextForm) -> usize
    ensures { result ≡ offset_of form line.now }
{
    let value = value_of(digits_of(line)) % 0x1_0000_0000;
    if form == TextForm::Numbered {
        2 * value
    } else {
        value
    }
}

// ## The form of a line

// How a line begins that begins with an offset.
#[derive(Clone, Copy, PartialEq, Eq)]
pub(crate) enum Beginning {
    // With one between 0x and a colon.
    Marked,
    // With a colon behind it.
    Colon,
    // With one alone.
    Alone,
}

pub(crate) fn beginning_of(line: &[u8]) -> Option<Beginning>
    ensures { result ≡ beginning_of line.now }
{
    if !is_offset(line) {
        return None;
    }
    match (is_marked(line), has_colon(line)) {
        (true, true) => Some(Beginning::Marked),
        (true, false) => None,
        (false, true) => Some(Beginning::Colon),
        (false, false) => Some(Beginning::Alone),
    }
}

// The form of a line by the digits of its first byte or word.
fn by_width(width: usize, bytes: TextForm, words: TextForm) -> Option<TextForm>
    ensures { result ≡ form_by_width width bytes words }
{
    match width {
        2 => Some(bytes),
        4 => Some(words),
        _ => None,
    }
}

// The form of a line that begins with an offset. One that stands alone has six digits at least.
pub(crate) fn form_of(line: &[u8]) -> Option<TextForm>
    ensures { result ≡ form_of line.now }
{
    let width = digit_run(without_blanks(row_part(line)));
    match beginning_of(line)? {
        Beginning::Marked => by_width(width, TextForm::Ethtool, TextForm::Numbered),
        Beginning::Colon => by_width(width, TextForm::Xxd, TextForm::Xxd),
        Beginning::Alone if digits_of(line).len() < 6 => None,
        Beginning::Alone => by_width(width, TextForm::Bytes, TextForm::Words),
    }
}

// Whether a line begins with digits and nothing else before a blank.
pub(crate) fn is_plain(line: &[u8]) -> bool
    ensures { result ≡ is_plain line.now }
{
    let count = digit_run(line);
    count != 0
        && match from(line, count) {
            [] => true,
            [byte, ..] => is_blank(*byte),
        }
}
