// The digits of a row, gathered to bytes or words.
#![tactic(auto, unfolding(crate::proofs::Opened::of_groups))]

ghost use Rattle.std.specs.Prelude.{◌≡◌};
ghost use Rattle.hexadecimal.specs.Group.{no_group, at_blank, ends_row, is_joined, with_digit, at_digit, next_group};

use crate::form::TextForm;
use crate::offset::is_blank;

// Where a row stands behind a character.
#[derive(Clone, Copy, PartialEq, Eq)]
pub(crate) enum Standing {
    // In a byte or word, or between two.
    Open,
    // At the last digit of one.
    Whole,
    // Behind the row's end: what follows is not read.
    Ended,
    // At what belongs to no byte or word.
    Wrong,
}

// The last four digits as a number, how many of the byte or word at hand have been read, whether a blank stands before, and
// where the row stands.
#[derive(Clone, Copy)]
pub(crate) struct Group {
    pub value: u16,
    pub digits: u8,
    pub blank: bool,
    pub standing: Standing,
}

impl Group {
    pub(crate) fn new() -> Group
        ensures { result ≡ no_group }
    {
        Group {
            value: 0,
            digits: 0,
            blank: false,
            standing: Standing::Open,
        }
    }

    // Two blanks end a row of xxd; in a byte or word none may stand.
    fn at_blank(self, form: TextForm) -> Group
        ensures { result ≡ at_blank form self }
    {
        if self.digits != 0 {
            return Group {
                standing: Standing::Wrong,
                ..self
            };
        }
        if self.blank && form == TextForm::Xxd {
            return Group {
                standing: Standing::Ended,
                ..self
            };
        }
        Group {
            digits: 0,
            blank: true,
            standing: Standing::Open,
            ..self
        }
    }

    // Whether the characters begin that hexdump -C and od show behind a row.
    fn ends_row(self, byte: u8, form: TextForm) -> bool
        ensures { result ≡ ends_row form byte self }
    {
        form == TextForm::Bytes && self.digits == 0 && matches!(byte, b'|' | b'>')
    }

    // Whether a first digit stands where a blank belongs.
    fn is_joined(self, form: TextForm) -> bool
        ensures { result ≡ is_joined form self }
    {
        form.stands_apart() && self.digits == 0 && !self.blank
    }

    // One digit more.
    fn with_digit(self, digit: u8, form: TextForm) -> Group
        ensures { result ≡ with_digit form digit self }
    {
        let value = 16 * (self.value % 4096) + u16::from(digit % 16);
        let digits = self.digits % 4 + 1;
        if digits == form.digits_wanted() {
            Group {
                value,
                digits: 0,
                blank: false,
                standing: Standing::Whole,
            }
        } else {
            Group {
                value,
                digits,
                blank: false,
                standing: Standing::Open,
            }
        }
    }

    // A character that is no blank and does not end the row.
    fn at_digit(self, byte: u8, form: TextForm) -> Group
        ensures { result ≡ at_digit form byte self }
    {
        match text::digit(byte) {
            Some(digit) if !self.is_joined(form) => self.with_digit(digit, form),
            _ => Group {
                standing: Standing::Wrong,
                ..self
            },
        }
    }

    // The next character of a row.
    pub(crate) fn next(self, byte: u8, form: TextForm) -> Group
        ensures { result ≡ next_group form byte self }
    {
        if matches!(self.standing, Standing::Ended | Standing::Wrong) {
            self
        } else if is_blank(byte) {
            self.at_blank(form)
        } else if self.ends_row(byte, form) {
            Group {
                standing: Standing::Ended,
                ..self
            }
        } else {
            self.at_digit(byte, form)
        }
    }
}
