// The Magic Packet block of an image, as definitions (000, section 4; document 02, request 1).
#![tactic(auto)]

ghost use Rattle.std.specs.Prelude.{◌≡◌};
ghost use Rattle.packet.specs.Answer.{no_magic, magic_answer_of};

use rom::Refusal;

// What a block says: the SecureON password, the IEEE address that wakes the station, and the Magic command.
#[repr(C)]
#[derive(Clone, Copy, Default)]
pub struct Magic {
    pub password: [u8; 6],
    pub address: [u8; 6],
    pub command: u16,
}

// What is read of a block, or a refusal's number and zeros.
#[repr(C)]
#[derive(Drop)]
pub struct MagicAnswer {
    pub number: u8,
    pub magic: Magic,
}

impl From<Result<Magic, Refusal>> for MagicAnswer {
    ghost from_gives = { λ read answer. answer ≡ magic_answer_of read };

    #[tactic(auto, using(crate::proofs::Zeros::six_zeros), unfolding(crate::specs::Answer::no_magic))]
    fn from(read: Result<Magic, Refusal>) -> MagicAnswer {
        match read {
            Ok(magic) => MagicAnswer { number: 0, magic },
            Err(refusal) => MagicAnswer {
                number: refusal.number(),
                magic: Magic::default(),
            },
        }
    }
}
