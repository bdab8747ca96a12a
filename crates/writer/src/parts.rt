// The three parallel parts of a sheet that hold its entries.
ghost use Rattle.writer.specs.Inside.{Parts};

use forms::LentEntry;
use rom::ByteOffset;

// What is left of three parallel parts: the kinds of entries, their body sizes, and their bodies.
#[derive(Drop)]
pub(crate) struct Entries<'a> {
    pub kinds: &'a [u8],
    pub sizes: &'a [u8],
    pub bodies: &'a [u8],
    ghost parts: { Parts kinds.now sizes.now bodies.now },
}

impl<'a> Iterator for Entries<'a> {
    ghost use Rattle.std.specs.Iterator.{YieldsFirstBy, item_count};
    ghost use Rattle.forms.specs.Lent.{entry_of};
    ghost use Rattle.writer.specs.Entries.{entries_left};

    type Item = LentEntry<'a>;

    ghost next_gives = { YieldsFirstBy entry_of entries_left };

    ghost remaining = { item_count entries_left };

    fn next(&mut self) -> Option<LentEntry<'a>> {
        let (size, sizes) = self.sizes.split_first()?;
        let (kind, kinds) = self.kinds.split_at(2);
        let (body, bodies) = self.bodies.split_at(usize::from(*size));
        *self = Entries {
            kinds,
            sizes,
            bodies,
        };
        Some(LentEntry {
            kind: rom::word_at(kind, ByteOffset(0)),
            body,
        })
    }
}
