// Bytes and words laid into others from an offset on. What does not fit changes nothing.
ghost use Rattle.std.specs.Prelude.{◌≡◌, [], ◌∷◌};
ghost use Rattle.rom.specs.Store.{word_bytes, laid};

use super::ByteOffset;

pub fn put_byte(out: &mut [u8], at: ByteOffset, byte: u8)
    ensures { out.new ≡ laid out.old at.0 (byte ∷ []) }
{
    if at.0 < out.len() {
        out[at.0] = byte;
    }
}

pub fn put_bytes(out: &mut [u8], at: ByteOffset, source: &[u8])
    ensures { out.new ≡ laid out.old at.0 source.now }
{
    let start = at.0;
    if start <= out.len() && source.len() <= out.len() - start {
        out[start..start + source.len()].copy_from_slice(source);
    }
}

// Low byte first.
pub fn put_word(out: &mut [u8], at: ByteOffset, word: u16)
    ensures { out.new ≡ laid out.old at.0 (word_bytes word) }
{
    put_bytes(out, at, &word.to_le_bytes());
}
