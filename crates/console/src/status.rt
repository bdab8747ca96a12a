// What the program ends with.

// A program has no exit status of its own: the launcher reads it here, as a digit.
const FILE: i32 = 3;

#[derive(Clone, Copy, PartialEq, Eq)]
pub enum Status {
    // The image or sheet is accepted.
    Accepted,
    Refused,
    // A word is wrong, or a file cannot be read or written.
    Usage,
}

impl Status {
    pub fn report(self) {
        report(self as u8);
    }
}

// By its number. One past the last counts as the last.
pub fn report(status: u8) {
    io::write_all(
        FILE,
        match status {
            0 => b"0",
            1 => b"1",
            _ => b"2",
        },
    );
}

impl From<bool> for Status {
    ghost use Rattle.std.specs.Prelude.{◌≡◌};
    ghost use Rattle.console.specs.Status.{status_of, status_as_number};

    ghost from_gives = { λ accepted status. status_as_number status ≡ status_of accepted };

    #[tactic(auto, unfolding(crate::specs::Status::status_of, rom::specs::Bytes::pick))]
    fn from(accepted: bool) -> Status {
        if accepted {
            Status::Accepted
        } else {
            Status::Refused
        }
    }
}
