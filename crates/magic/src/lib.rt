// The Magic Packet block of an image: its reader and its writer (000, section 4; document 02, request 1).
#![tactic(auto)]

ghost use Rattle.std.specs.Prelude.{◌≡◌, ◌+◌, ◌≤◌, ◌==◌, ◌&&◌, not, take, drop, IfOk};
ghost use Rattle.rom.specs.Geometry.{magic_at};
ghost use Rattle.rom.specs.Numbers.{answer_number};
ghost use Rattle.rom.specs.Bytes.{byte_at, all_zero};
ghost use Rattle.packet.specs.Block.{place, zeros_at, last_at, block_with};
ghost use Rattle.packet.specs.Answer.{magic_answer_of, magic_read_number, magic_reading, magic_write_number, magic_written};

pub use packet::{Magic, MagicAnswer};
use rom::store::{put_byte, put_bytes, put_word};
use rom::{ByteOffset, MAGIC_LENGTH, Refusal};

// ## Its fields, counted from its first byte

pub const PASSWORD: u8 = 0;

pub const ADDRESS: u8 = 6;

pub const COMMAND: u8 = 12;

// Sixteen reserved bytes, the CRC, and a reserved byte.
pub const ZEROS: u8 = 14;

pub const CRC: u8 = 30;

pub const LAST: u8 = 31;

// Where a field stands in an image.
#[tactic(auto, using(packet::proofs::Reading::starts_low))]
pub fn field_at(size: u16, field: u8) -> usize
    ensures { result ≡ place size field }
{
    rom::magic_at(size) + usize::from(field)
}

// Where it stands in the block.
fn offset(field: u8) -> ByteOffset
    ensures { result.0 ≡ field }
{
    ByteOffset(usize::from(field))
}

// ## Reading

// Whether a reserved byte is not 0.
fn has_stray(block: &[u8; MAGIC_LENGTH]) -> bool
    ensures { result ≡ not (all_zero (take 16 (drop zeros_at block.now)) && byte_at block.now last_at == 0) }
{
    !rom::all_zero(&block[usize::from(ZEROS)..usize::from(CRC)]) || block[usize::from(LAST)] != 0
}

// The block of an image, its last bytes, where neither its CRC nor a reserved byte is wrong.
#[tactic(auto, using(packet::proofs::Reading::reading))]
fn accepted(image: &[u8], size: u16) -> Result<&[u8; MAGIC_LENGTH], Refusal>
    ensures number { answer_number result ≡ magic_read_number size image.now }
    ensures block { IfOk result (λ block. block.now ≡ drop (magic_at size) image.now) }
{
    rom::check_length(size, image.len())?;
    let block: &[u8; MAGIC_LENGTH] = image.last_chunk().unwrap();
    if u16::from(block[usize::from(CRC)]) != crc::magic_crc(image, size)? {
        return Err(Refusal::MagicCrc);
    }
    if has_stray(block) {
        return Err(Refusal::MagicReserved);
    }
    Ok(block)
}

// Why a block is refused: 1, 29 or 30.
pub fn judge(image: &[u8], size: u16) -> Result<(), Refusal>
    ensures { answer_number result ≡ magic_read_number size image.now }
{
    accepted(image, size)?;
    Ok(())
}

// Six bytes of a block.
fn six_at(block: &[u8; MAGIC_LENGTH], field: u8) -> [u8; 6]
    requires { field + 6 ≤ 32 }
    ensures { result ≡ take 6 (drop field block.now) }
{
    *block[usize::from(field)..].first_chunk().unwrap()
}

// What the block says, or the first refusal.
#[tactic(auto, using(packet::proofs::Reading::answered_reading))]
pub fn read(image: &[u8], size: u16) -> Result<Magic, Refusal>
    ensures { magic_answer_of result ≡ magic_reading size image.now }
{
    let block = accepted(image, size)?;
    Ok(Magic {
        password: six_at(block, PASSWORD),
        address: six_at(block, ADDRESS),
        command: rom::word_at(block, offset(COMMAND)),
    })
}

// ## Writing

// The block's bytes, but for its CRC.
fn block_of(magic: Magic) -> [u8; MAGIC_LENGTH]
    ensures { result ≡ block_with 0 magic }
{
    let mut block = [0; MAGIC_LENGTH];
    put_bytes(&mut block, offset(PASSWORD), &magic.password);
    put_bytes(&mut block, offset(ADDRESS), &magic.address);
    put_word(&mut block, offset(COMMAND), magic.command);
    block
}

// Writes a block behind the board's bytes, which stay as they are.
#[tactic(auto, using(packet::proofs::Writing::writing))]
pub fn write(magic: Magic, image: &mut [u8], size: u16) -> Result<(), Refusal>
    ensures value { answer_number result ≡ magic_write_number size image.old }
    ensures image_after { image.new ≡ magic_written size magic image.old }
{
    rom::check_length(size, image.len())?;
    let start = image.len() - MAGIC_LENGTH;
    put_bytes(image, ByteOffset(start), &block_of(magic));
    let crc = crc::magic_crc(image, size)?;
    put_byte(image, ByteOffset(start + usize::from(CRC)), crc as u8);
    Ok(())
}
