// Bytes of a slice, and parts of it, wherever they would lie.
ghost use Rattle.std.specs.Prelude.{◌≡◌, take, drop};
ghost use Rattle.rom.specs.Bytes.{byte_at, word_at};

use rom::ByteOffset;

// A byte, 0 past the end.
pub fn byte_at(bytes: &[u8], at: usize) -> u8
    ensures { result ≡ byte_at bytes.now at }
{
    rom::byte_at(bytes, ByteOffset(at))
}

// A word, low byte first, with zeros past the end.
pub fn word_at(bytes: &[u8], at: usize) -> u16
    ensures { result ≡ word_at bytes.now at }
{
    rom::word_at(bytes, ByteOffset(at))
}

// As many bytes from a place on as are wanted and there.
pub fn part(bytes: &[u8], start: usize, wanted: usize) -> &[u8]
    ensures { result.now ≡ take wanted (drop start bytes.now) }
{
    let rest = from(bytes, start);
    &rest[..wanted.min(rest.len())]
}

// All bytes from a place on.
pub fn from(bytes: &[u8], start: usize) -> &[u8]
    ensures { result.now ≡ drop start bytes.now }
{
    &bytes[start.min(bytes.len())..]
}
