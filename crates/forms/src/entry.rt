// An entry of a sheet, and the block that it is in an image.
ghost use Rattle.std.specs.Prelude.{◌≡◌, ◌≤◌, length};
ghost use Rattle.sheet.specs.Image.{opening_of, encode};
ghost use Rattle.forms.specs.Lent.{entry_of};

use block::{KIND_21041, KIND_COMPACT};

// Its kind, and its body, lent by a sheet or an image.
#[derive(Clone, Copy)]
pub struct LentEntry<'a> {
    pub kind: u16,
    pub body: &'a [u8],
}

impl LentEntry<'_> {
    // How many bytes stand before its body in the block: length and type of an extended one.
    #[tactic(auto, unfolding(sheet::specs::Image::opening_of, sheet::specs::Image::is_whole, rom::specs::Bytes::pick))]
    pub fn opening_size(self) -> usize
        ensures { (result ≡ length (opening_of (entry_of self.entry))) × (result ≤ 2) }
    {
        if matches!(self.kind, KIND_COMPACT | KIND_21041) {
            0
        } else {
            2
        }
    }

    // How many bytes the block has.
    pub fn block_size(self) -> usize
        ensures { result ≡ length (encode (entry_of self.entry)) }
    {
        self.opening_size() + self.body.len()
    }
}
