// The forms of a text: how its lines begin, and what its rows are made of.
#![tactic(auto, unfolding(crate::proofs::Opened::of_forms))]

ghost use Rattle.std.specs.Prelude.{◌≡◌};
ghost use Rattle.hexadecimal.specs.Form.{is_words, stands_apart};
ghost use Rattle.hexadecimal.specs.Group.{digits_wanted};
ghost use Rattle.hexadecimal.specs.Offset.{beginning_for};

use crate::offset::Beginning;

#[derive(Clone, Copy, PartialEq, Eq)]
pub enum TextForm {
    // Bytes alone, with any blanks between them: `xxd -p`.
    Plain,
    // An offset between 0x and a colon, and bytes: `ethtool -e`.
    Ethtool,
    // The number of the row's first word between 0x and a colon, and words: diagnostic programs of old.
    Numbered,
    // An offset with a colon, and bytes in pairs, up to two blanks: `xxd`.
    Xxd,
    // An offset alone, and bytes, up to a '|' or a '>': `hexdump -C`, `od -A x -t x1`.
    Bytes,
    // An offset alone, and words: `hexdump`.
    Words,
}

impl TextForm {
    // Whether its rows have words of four digits, low byte last.
    pub(crate) fn is_words(self) -> bool
        ensures { result ≡ is_words self }
    {
        matches!(self, TextForm::Numbered | TextForm::Words)
    }

    // Whether blanks stand before each of a row's bytes or words.
    pub(crate) fn stands_apart(self) -> bool
        ensures { result ≡ stands_apart self }
    {
        !matches!(self, TextForm::Plain | TextForm::Xxd)
    }

    // How many digits each of a row's bytes or words has.
    pub(crate) fn digits_wanted(self) -> u8
        ensures { result ≡ digits_wanted self }
    {
        if self.is_words() { 4 } else { 2 }
    }

    // How its lines begin.
    pub(crate) fn beginning(self) -> Beginning
        ensures { result ≡ beginning_for self }
    {
        match self {
            TextForm::Ethtool | TextForm::Numbered => Beginning::Marked,
            TextForm::Xxd => Beginning::Colon,
            TextForm::Plain | TextForm::Bytes | TextForm::Words => Beginning::Alone,
        }
    }
}
