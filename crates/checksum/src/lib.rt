// The checksums of the serial ROM, as definitions (document 01, 'The image'; document 02, requests 1 and 6).
#![tactic(auto)]

ghost use Rattle.std.specs.Prelude.{◌≡◌};
ghost use Rattle.checksum.specs.Answer.{checksum_of};

use rom::Refusal;

// A CRC, or a refusal's number and 0.
#[repr(C)]
#[derive(Drop)]
pub struct Checksum {
    pub number: u8,
    pub value: u16,
}

impl From<Result<u16, Refusal>> for Checksum {
    ghost from_gives = { λ answer checksum. checksum ≡ checksum_of answer };

    fn from(answer: Result<u16, Refusal>) -> Checksum {
        match answer {
            Ok(value) => Checksum { number: 0, value },
            Err(refusal) => Checksum {
                number: refusal.number(),
                value: 0,
            },
        }
    }
}
