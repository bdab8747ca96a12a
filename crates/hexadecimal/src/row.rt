// What a line adds to the bytes.
#![tactic(auto, unfolding(crate::proofs::Opened::of_rows))]

ghost use Rattle.std.specs.Prelude.{◌≡◌};
ghost use Rattle.hexadecimal.specs.Text.{row_read, placed_row, with_offset, with_line};

use crate::form::TextForm;
use crate::group::Group;
use crate::held::{Held, Problem};
use crate::mode::{Mode, Stage};
use crate::offset::{beginning_of, offset_of, row_part};

impl Held {
    // The bytes of a row.
    fn read_row(&mut self, row: &[u8], form: TextForm)
        ensures { self.new ≡ row_read form row.now self.old }
    {
        let mut group = Group::new();
        for byte in row {
            group = group.next(*byte, form);
            self.push_group(group, form);
        }
        self.close(group);
    }

    // The row of a line whose offset must be the next byte's.
    fn read_placed(&mut self, line: &[u8], form: TextForm)
        ensures { self.new ≡ placed_row form line.now self.old }
    {
        if self.problem.is_some() {
            return;
        }
        if self.bytes.len() != offset_of(line, form) {
            self.fault(Problem::WrongOffset);
        } else {
            self.read_row(row_part(line), form);
        }
    }

    // A line with an offset, behind a '*' or not.
    fn read_offset(&mut self, line: &[u8], form: TextForm, repeats: bool)
        ensures { self.new ≡ with_offset form repeats line.now self.old }
    {
        if beginning_of(line) != Some(form.beginning()) {
            self.fault(Problem::NoOffset);
            return;
        }
        if repeats {
            self.repeat_to(offset_of(line, form));
        }
        self.read_placed(line, form);
    }

    // A line, by how the text read before it and how it reads behind it.
    pub(crate) fn read_line(&mut self, line: &[u8], before: Mode, after: Mode)
        ensures { self.new ≡ with_line before after line.now self.old }
    {
        if line.is_empty() || after.repeats {
            return;
        }
        match after.stage {
            Stage::Headings | Stage::Ended => {}
            Stage::Rows(TextForm::Plain) => self.read_row(line, TextForm::Plain),
            Stage::Rows(form) => self.read_offset(line, form, before.repeats),
        }
    }
}
