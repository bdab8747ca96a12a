// A sheet whose length and sum are right.
ghost use Rattle.std.specs.Prelude.{◌≡◌};
ghost use Rattle.format.specs.Chips.{row_of};
ghost use Rattle.sheet.specs.Sheet.{plain_from};
ghost use Rattle.writer.specs.Inside.{Counted};

use super::parts::Entries;
use block::chip;
use rom::ByteOffset;

// Its bytes from where its places count as in a narrow one, and its block count.
#[derive(Clone, Copy)]
pub(crate) struct CountedSheet<'a> {
    pub bytes: &'a [u8],
    pub blocks: u8,
    ghost counted: { Counted blocks bytes.now },
}

impl<'a> CountedSheet<'a> {
    ghost use Rattle.writer.specs.Entries.{entries_left};

    #[tactic(auto, unfolding(sheet::specs::Sheet::plain_from))]
    pub fn chip(self) -> u16
        ensures { result ≡ (plain_from self.entry.blocks self.entry.bytes.now).chip }
    {
        rom::word_at(self.bytes, ByteOffset(sheet::CHIP_AT))
    }

    pub fn row(self) -> usize
        ensures { result ≡ row_of (plain_from self.entry.blocks self.entry.bytes.now).chip }
    {
        chip::row_of(self.chip())
    }

    #[tactic(auto, unfolding(sheet::specs::Sheet::plain_from))]
    pub fn connection(self) -> u16
        ensures { result ≡ (plain_from self.entry.blocks self.entry.bytes.now).connection }
    {
        rom::word_at(self.bytes, ByteOffset(sheet::CONNECTION_AT))
    }

    #[tactic(auto, unfolding(sheet::specs::Sheet::plain_from))]
    pub fn control(self) -> u8
        ensures { result ≡ (plain_from self.entry.blocks self.entry.bytes.now).control }
    {
        rom::byte_at(self.bytes, ByteOffset(sheet::CONTROL_AT))
    }

    pub fn lent_entries(self) -> Entries<'a>
        ensures { entries_left result ≡ (plain_from self.entry.blocks self.entry.bytes.now).entries }
    {
        let (kinds, rest) = self.bytes[sheet::HEAD_LENGTH..].split_at(2 * usize::from(self.blocks));
        let (sizes, bodies) = rest.split_at(usize::from(self.blocks));
        Entries {
            kinds,
            sizes,
            bodies,
        }
    }
}
