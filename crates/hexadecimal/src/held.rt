// The bytes of a text as far as it has been read.
#![tactic(auto, unfolding(crate::proofs::Opened::of_bytes_held))]

ghost use Rattle.std.specs.Prelude.{◌≡◌, ◌≤◌};
ghost use Rattle.rom.specs.Bytes.{byte_at};
ghost use Rattle.hexadecimal.specs.Held.{nothing_held, faulted, pushed, with_value, with_group, closed, repeated_from, repeated_to};

use crate::form::TextForm;
use crate::group::{Group, Standing};
use crate::room::HeldBytes;
use text::slice::byte_at;

// The most bytes that a text can have: more than any ROM or sheet.
pub const ROOM: usize = 2048;

// The bytes of a row, for which a '*' stands again.
const ROW: usize = 16;

// What is wrong with a line.
#[derive(Clone, Copy, PartialEq, Eq)]
pub enum Problem {
    // It begins with no offset of the text's form.
    NoOffset = 1,
    // Its offset is not the next byte's.
    WrongOffset,
    // What stands in its row is no byte or word of the form.
    NoByte,
    // The text has more bytes than there is room for.
    TooMany,
    // The text has none.
    NoBytes,
}

#[derive(Clone, Copy)]
pub struct Held {
    pub bytes: HeldBytes,
    pub problem: Option<Problem>,
}

impl Held {
    pub(crate) fn new() -> Held
        ensures { result ≡ nothing_held }
    {
        Held {
            bytes: HeldBytes::new(),
            problem: None,
        }
    }

    pub(crate) fn fault(&mut self, problem: Problem)
        ensures { self.new ≡ faulted problem self.old }
    {
        self.problem = Some(problem);
    }

    fn push(&mut self, byte: u8)
        ensures { self.new ≡ pushed byte self.old }
    {
        if self.bytes.is_full() {
            self.fault(Problem::TooMany);
        } else {
            self.bytes.push(byte);
        }
    }

    // A byte, or a word, low byte first.
    fn push_value(&mut self, value: u16, form: TextForm)
        ensures { self.new ≡ with_value form value self.old }
    {
        let [low, high] = value.to_le_bytes();
        self.push(low);
        if form.is_words() {
            self.push(high);
        }
    }

    // The byte or word that a row has come to the end of, if it has.
    pub(crate) fn push_group(&mut self, group: Group, form: TextForm)
        ensures { self.new ≡ with_group form group self.old }
    {
        if group.standing == Standing::Whole {
            self.push_value(group.value, form);
        }
    }

    // At the end of a row no digit is left over.
    pub(crate) fn close(&mut self, group: Group)
        ensures { self.new ≡ closed group self.old }
    {
        if group.standing == Standing::Wrong || group.digits != 0 {
            self.fault(Problem::NoByte);
        }
    }

    // A byte, 0 past the end.
    fn byte(&self, at: usize) -> u8
        ensures { result ≡ byte_at self.now.bytes.items at }
    {
        byte_at(&self.bytes, at)
    }

    // So many bytes more, each like the one at a place and on.
    fn repeat_from(&mut self, start: usize, count: usize)
        requires { (start ≤ 2048) × (count ≤ 2048) }
        ensures { self.new ≡ repeated_from start count self.old }
    {
        for at in start..start + count {
            self.push(self.byte(at));
        }
    }

    // The row before, again and again, up to an offset.
    pub(crate) fn repeat_to(&mut self, offset: usize)
        ensures { self.new ≡ repeated_to offset self.old }
    {
        let length = self.bytes.len();
        if ROOM < offset {
            self.fault(Problem::TooMany);
        } else if length < ROW {
            self.fault(Problem::WrongOffset);
        } else {
            self.repeat_from(length - ROW, offset.saturating_sub(length));
        }
    }
}
