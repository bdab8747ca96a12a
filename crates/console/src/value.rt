// What an option's value says: a number; six bytes, or a command's word, in hexadecimal; or an edition.
ghost use Rattle.std.specs.Prelude.{◌≡◌, ◌<◌, IfSome, IsSome, IsTrue, ◌↔◌};
ghost use Rattle.std.specs.Option.{unwrap_or};
ghost use Rattle.text.specs.Numbers.{decimal_number};
ghost use Rattle.console.specs.Value.{is_in_place, is_six_bytes, byte_named, six_bytes, spells_word, command_word};
ghost use Rattle.console.specs.Value.{names_first, names_edition};

use hexadecimal::offset::{behind_mark, digit_run, value_of};
use std::array;
use text::slice::part;

// ## Numbers

// A decimal number below 65,536.
pub(crate) fn number(word: &[u8]) -> Option<u16>
    ensures small { IsSome result ↔ (decimal_number word.now < 65536) }
    ensures value { IfSome result (λ number. number ≡ decimal_number word.now) }
{
    u16::try_from(text::number(word)?).ok()
}

// One below 256.
pub(crate) fn byte(word: &[u8]) -> Option<u8> {
    u8::try_from(number(word)?).ok()
}

// ## Six bytes: xx:xx:xx:xx:xx:xx

pub(crate) const BYTES: usize = 6;

// Two digits for each, and a colon between two.
const CHARACTERS: usize = 17;

// Whether a character stands where it belongs: each third is a colon, and the others are digits.
#[tactic(auto, unfolding(crate::specs::Value::is_in_place, rom::specs::Bytes::pick))]
fn is_in_place(byte: u8, place: usize) -> bool
    ensures { result ≡ is_in_place place byte }
{
    if place % 3 == 2 {
        byte == b':'
    } else {
        text::digit(byte).is_some()
    }
}

#[tactic(auto, unfolding(crate::specs::Value::is_six_bytes))]
fn is_six_bytes(word: &[u8]) -> bool
    ensures { result ≡ is_six_bytes word.now }
{
    word.len() == CHARACTERS
        && word
            .iter()
            .enumerate()
            .all(|(place, byte)| is_in_place(*byte, place))
}

// The byte whose two digits stand from a place on.
#[tactic(auto, unfolding(crate::specs::Value::byte_named))]
fn byte_named(word: &[u8], place: usize) -> u8
    ensures { result ≡ byte_named word.now place }
{
    (value_of(part(word, place, 2)) % 256) as u8
}

// The six bytes that a word says.
#[tactic(auto, unfolding(crate::specs::Value::six_bytes))]
pub(crate) fn six_bytes(word: &[u8]) -> Option<[u8; BYTES]>
    ensures said { IsSome result ↔ IsTrue (is_six_bytes word.now) }
    ensures bytes { IfSome result (λ bytes. bytes ≡ six_bytes word.now) }
{
    if is_six_bytes(word) {
        Some(array::from_fn(|k| byte_named(word, 3 * k)))
    } else {
        None
    }
}

// ## A command's word: one to four digits, with 0x before them or not

// Whether a text is one to four digits, and nothing else.
#[tactic(auto, unfolding(crate::specs::Value::spells_word))]
fn spells_word(text: &[u8]) -> bool
    ensures { result ≡ spells_word text.now }
{
    !text.is_empty() && text.len() <= 4 && digit_run(text) == text.len()
}

// The word that they spell.
#[tactic(auto, using(crate::proofs::Digits::word_small), unfolding(crate::specs::Value::command_word, rom::specs::Bytes::pick))]
pub(crate) fn command_word(word: &[u8]) -> Option<u16>
    ensures { unwrap_or result 65536 ≡ command_word word.now }
{
    let digits = behind_mark(word);
    if spells_word(digits) {
        u16::try_from(value_of(digits)).ok()
    } else {
        None
    }
}

// ## An edition of version 1: 1.00 or 1.01

const FIRST: &[u8] = b"1.00";

const SECOND: &[u8] = b"1.01";

// Whether the edition that a word names is the first.
#[tactic(auto, unfolding(crate::specs::Value::names_first, crate::specs::Value::names_edition, text::specs::Slices::same_bytes))]
pub(crate) fn first_edition(word: &[u8]) -> Option<bool>
    ensures named { IsSome result ↔ IsTrue (names_edition word.now) }
    ensures first { IfSome result (λ first. first ≡ names_first word.now) }
{
    if word == FIRST {
        Some(true)
    } else if word == SECOND {
        Some(false)
    } else {
        None
    }
}
