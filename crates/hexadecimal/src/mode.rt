// How the lines of a text read, as far as they tell.
#![tactic(auto, unfolding(crate::proofs::Opened::of_modes))]

ghost use Rattle.std.specs.Prelude.{◌≡◌};
ghost use Rattle.hexadecimal.specs.Text.{unread_mode, first_mode, ends_rows, mode_after};

use crate::form::TextForm;
use crate::offset::{Beginning, beginning_of, form_of, is_plain};

// What a text's lines are.
#[derive(Clone, Copy, PartialEq, Eq)]
pub enum Stage {
    // None has had a form.
    Headings,
    // Rows of a form.
    Rows(TextForm),
    // Behind rows of numbered words: those programs go on with other lines, which are not read.
    Ended,
}

// Besides, whether a line before the rows is none of a form, and whether the line before is a '*'.
#[derive(Clone, Copy)]
pub struct Mode {
    pub stage: Stage,
    pub headed: bool,
    pub repeats: bool,
}

impl Mode {
    pub(crate) fn new() -> Mode
        ensures { result ≡ unread_mode }
    {
        Mode {
            stage: Stage::Headings,
            headed: false,
            repeats: false,
        }
    }

    // By the first line that has a form. What stands before an offset's form is a heading; before bytes alone stands none.
    fn first(self, line: &[u8]) -> Mode
        ensures { result ≡ first_mode self line.now }
    {
        if let Some(form) = form_of(line) {
            Mode {
                stage: Stage::Rows(form),
                headed: self.headed,
                repeats: false,
            }
        } else if is_plain(line) && !self.headed {
            Mode {
                stage: Stage::Rows(TextForm::Plain),
                headed: false,
                repeats: false,
            }
        } else {
            Mode {
                stage: Stage::Headings,
                headed: true,
                repeats: false,
            }
        }
    }

    // Behind a line, of which the blanks before it are gone.
    pub(crate) fn after(self, line: &[u8]) -> Mode
        ensures { result ≡ mode_after self line.now }
    {
        if line.is_empty() {
            return self;
        }
        match self.stage {
            Stage::Headings => self.first(line),
            Stage::Rows(TextForm::Plain) | Stage::Ended => self,
            Stage::Rows(form) if ends_rows(form, line) => Mode {
                stage: Stage::Ended,
                headed: self.headed,
                repeats: false,
            },
            Stage::Rows(_) => Mode {
                repeats: matches!(line, [b'*', ..]),
                ..self
            },
        }
    }
}

// Whether a line stands behind rows of numbered words.
fn ends_rows(form: TextForm, line: &[u8]) -> bool
    ensures { result ≡ ends_rows form line.now }
{
    form == TextForm::Numbered && beginning_of(line) != Some(Beginning::Marked)
}
