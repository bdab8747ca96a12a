// A sheet's block count and total of body bytes in each form (document 01, 'The sheet'; document 02, request 7), and whether its
// length and sum are right.
#![tactic(auto)]

mod entry;

ghost use Rattle.std.specs.Prelude.{◌≡◌, ◌<◌, ◌≤◌, length, sum};
ghost use Rattle.rom.specs.Store.{laid};
ghost use Rattle.sheet.specs.Form.{shifted, largest, count_in, total_in, counts_of};
ghost use Rattle.sheet.specs.Sheet.{is_sheet};
ghost use Rattle.forms.specs.Counts.{stated_as};

pub use entry::LentEntry;
use rom::ByteOffset;
use rom::store::put_bytes;
use sheet::Form;

// A sheet's bytes, and the form that its caller names.
#[derive(Clone, Copy)]
pub struct RawSheet<'a> {
    pub bytes: &'a [u8],
    pub form: Form,
}

impl<'a> RawSheet<'a> {
    // From where its further places count as in a narrow sheet, as part of it.
    pub fn shifted(self) -> &'a [u8]
        ensures { result.now ≡ shifted self.entry.form self.entry.bytes.now }
    {
        self.bytes.get(self.form.shift()..).unwrap_or(&[])
    }

    // The block count, 0 past the end.
    pub fn count(self) -> u16
        ensures { (result ≡ count_in self.entry.form self.entry.bytes.now) × (result ≤ largest self.entry.form) }
    {
        match self.form {
            Form::Narrow => u16::from(rom::byte_at(self.bytes, ByteOffset(0))),
            Form::Wide => rom::word_at(self.bytes, ByteOffset(0)),
        }
    }

    // The total of body bytes, 0 past the end.
    pub fn total(self) -> u16
        ensures { result ≡ total_in self.entry.form self.entry.bytes.now }
    {
        match self.form {
            Form::Narrow => u16::from(rom::byte_at(self.bytes, ByteOffset(1))),
            Form::Wide => rom::word_at(self.bytes, ByteOffset(2)),
        }
    }

    // Whether its length is right, and its total the sum of its body sizes.
    pub fn is_sheet(self) -> bool
        ensures { result ≡ is_sheet self.entry.form self.entry.bytes.now }
    {
        let start = self.form.shift() + sheet::HEAD_LENGTH;
        let count = usize::from(self.count());
        let total = usize::from(self.total());
        let sizes = start + 2 * count;
        let bodies = start + 3 * count;
        self.bytes.len() == bodies + total && total == sum_of(&self.bytes[sizes..bodies])
    }
}

// Lays block count and total in at a sheet's front; a narrow sheet keeps their low bytes.
#[tactic(auto, unfolding(rom::specs::Store::word_bytes))]
pub fn put_counts(out: &mut [u8], form: Form, count: u16, total: u16)
    ensures { out.new ≡ laid out.old 0 (counts_of form (stated_as form count) (stated_as form total)) }
{
    let [low, high] = count.to_le_bytes();
    let [total_low, total_high] = total.to_le_bytes();
    match form {
        Form::Narrow => put_bytes(out, ByteOffset(0), &[low, total_low]),
        Form::Wide => put_bytes(out, ByteOffset(0), &[low, high, total_low, total_high]),
    }
}

// The sum of body sizes.
fn sum_of(sizes: &[u8]) -> usize
    requires { length sizes.now < 65536 }
    ensures { result ≡ sum sizes.now }
{
    sizes.iter().map(|size| usize::from(*size)).sum()
}
