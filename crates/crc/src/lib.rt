// The checksums of the serial ROM (document 01, 'The image'; document 02, request 1).
#![tactic(auto)]

mod crc8;
mod srom;

ghost use Rattle.std.specs.Prelude.{◌≡◌};
ghost use Rattle.checksum.specs.Answer.{checksum_of, srom_answer, id_answer, magic_answer};

pub use checksum::Checksum;
use rom::{Layout, Refusal, WordNumber};

// The CRC that the last word of an image's board should hold.
#[tactic(auto, using(crate::proofs::Answered::answering), unfolding(checksum::specs::Answer::srom_answer))]
pub fn srom_crc(image: &[u8], layout: Layout) -> Result<u16, Refusal>
    ensures { checksum_of result ≡ srom_answer layout image.now }
{
    rom::check_length(layout.size, image.len())?;
    Ok(srom::of(image, layout))
}

// The CRC that byte 16 of an image should hold.
#[tactic(auto, using(crate::proofs::Answered::answering), unfolding(checksum::specs::Answer::id_answer, checksum::specs::Crc::id_crc))]
pub fn id_crc(image: &[u8], size: u16) -> Result<u16, Refusal>
    ensures { checksum_of result ≡ id_answer size image.now }
{
    rom::check_length(size, image.len())?;
    Ok(u16::from(crc8::of(image, WordNumber(0), 8)))
}

// The CRC that the last byte but one of an image with a Magic Packet block should hold.
#[tactic(auto, using(crate::proofs::Answered::answering), unfolding(checksum::specs::Answer::magic_answer))]
pub fn magic_crc(image: &[u8], size: u16) -> Result<u16, Refusal>
    ensures { checksum_of result ≡ magic_answer size image.now }
{
    rom::check_length(size, image.len())?;
    Ok(u16::from(crc8::of(image, rom::magic_word(size), 15)))
}
