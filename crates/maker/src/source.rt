// An image that is read for a chip, and its sheet, part by part.
ghost use Rattle.std.specs.Prelude.{◌≡◌, ◌+◌, ◌≤◌, length};
ghost use Rattle.rom.specs.Geometry.{image_length};
ghost use Rattle.rom.specs.Store.{put};
ghost use Rattle.reader.specs.Reading.{judged_reading};
ghost use Rattle.reader.specs.Answered.{accepted_as};
ghost use Rattle.sheet.specs.Layout.{id_at, chip_at, head_length};
ghost use Rattle.sheet.specs.Sheet.{body_bytes, content_of};
ghost use Rattle.sheet.specs.Form.{largest};
ghost use Rattle.sheet.specs.Image.{newest_in, image_from, leaf_end};
ghost use Rattle.sheet.specs.Make.{sheet_for};
ghost use Rattle.maker.specs.Inside.{front_bytes, field_bytes, is_tidy_from};

use super::blocks::Blocks;
use super::parts;
use reader::Reading;
use rom::store::{put_byte, put_bytes, put_word};
use rom::{ByteOffset, Layout};
use sheet::Form;

// Its bytes, and the reading at the newest level and for controller 0, in an edition.
#[derive(Clone, Copy)]
pub(crate) struct ReadImage<'a> {
    pub bytes: &'a [u8],
    pub chip: u16,
    pub layout: Layout,
    pub first_edition: bool,
    pub reading: Reading,
    ghost read: { accepted_as reading ≡ judged_reading bytes.now (newest_in layout first_edition chip) },
}

impl<'a> ReadImage<'a> {
    ghost use Rattle.maker.specs.Blocks.{blocks_left, blocks_end, entries_in};

    // The blocks of its leaf.
    pub(crate) fn blocks(self) -> Blocks<'a>
        ensures entries { entries_in (blocks_left result)
            ≡ (image_from self.entry.layout self.entry.chip self.entry.bytes.now).entries }
        ensures start { result.start ≡ self.entry.reading.header.start }
        ensures end { blocks_end result ≡ leaf_end self.entry.layout self.entry.chip self.entry.bytes.now }
        ensures within { length result.leaves.now ≤ image_length self.entry.layout.size }
    {
        Blocks {
            leaves: header::up_to_leaves_end(self.bytes, self.layout, 0),
            start: self.reading.header.start,
            count: self.reading.header.blocks,
            row: self.reading.header.row,
        }
    }

    // Whether it has one controller, its leaf at 30, and zeros from the leaf's end up to where leaves end.
    #[tactic(auto, unfolding(crate::specs::Inside::is_tidy_from, image::specs::Image::controller_count, image::specs::Image::leaf_at))]
    pub(crate) fn is_tidy(self, end: usize) -> bool
        ensures { result ≡ is_tidy_from self.entry.layout end self.entry.bytes.now }
    {
        rom::byte_at(self.bytes, ByteOffset(rom::CONTROLLER_COUNT_AT)) == 1
            && usize::from(rom::word_at(self.bytes, ByteOffset(sheet::LEAF_OFFSET_AT)))
                == sheet::LEAF_START
            && rom::all_zero(header::up_to_leaves_end(self.bytes, self.layout, end))
    }

    // Bytes 2 to 26, as a narrow sheet has them: the ID bytes, the version, the address and the device number.
    fn put_front(self, shifted: &mut [u8])
        requires { head_length ≤ length shifted.old }
        ensures { shifted.new ≡ put shifted.old id_at (front_bytes self.entry.bytes.now) }
    {
        put_bytes(
            shifted,
            ByteOffset(sheet::ID_AT),
            &self.bytes[..rom::ID_CRC_AT],
        );
        put_bytes(
            shifted,
            ByteOffset(sheet::SHEET_LAST_ID_AT),
            &self.bytes[rom::LAST_ID_AT..rom::CONTROLLER_COUNT_AT],
        );
        put_bytes(
            shifted,
            ByteOffset(sheet::SHEET_ADDRESS_AT),
            &self.bytes[rom::ADDRESS_AT..sheet::LEAF_OFFSET_AT],
        );
    }

    // Bytes 27 to 33, as a narrow sheet has them: the chip, the connection type, the control byte and the maker's bytes.
    fn put_fields(self, shifted: &mut [u8])
        requires { head_length ≤ length shifted.old }
        ensures { shifted.new
            ≡ put shifted.old chip_at (field_bytes self.entry.layout self.entry.chip (accepted_as self.entry.reading).answer
            self.entry.bytes.now) }
    {
        put_word(shifted, ByteOffset(sheet::CHIP_AT), self.chip);
        put_word(
            shifted,
            ByteOffset(sheet::CONNECTION_AT),
            self.reading.header.connection,
        );
        put_byte(
            shifted,
            ByteOffset(sheet::CONTROL_AT),
            self.reading.header.control,
        );
        put_bytes(
            shifted,
            ByteOffset(sheet::MAKER_AT),
            &self.bytes[self.layout.leaves_end()..self.layout.checked_length()],
        );
    }

    // All that follows the counts of its sheet.
    fn put_content(self, shifted: &mut [u8])
        requires { id_at + length (content_of (image_from self.layout self.chip self.bytes.now)) ≤ length shifted.old }
        ensures { shifted.new
            ≡ put shifted.old id_at (content_of (image_from self.entry.layout self.entry.chip self.entry.bytes.now)) }
    {
        self.put_front(shifted);
        self.put_fields(shifted);
        parts::put_parts(shifted, self.blocks());
    }

    // Its sheet with the total of its body bytes, which the form can state, into a buffer that has room for it.
    pub(crate) fn put_sheet(self, sheet: &mut [u8], form: Form, total: u16)
        requires bodies { (total ≡ length (body_bytes (image_from self.layout self.chip self.bytes.now).entries)) × (total ≤ largest form) }
        requires room { length (sheet_for form self.layout self.bytes.now self.chip) ≤ length sheet.old }
        ensures { sheet.new ≡ put sheet.old 0 (sheet_for form self.entry.layout self.entry.bytes.now self.entry.chip) }
    {
        forms::put_counts(sheet, form, u16::from(self.reading.header.blocks), total);
        self.put_content(&mut sheet[form.shift()..]);
    }
}
