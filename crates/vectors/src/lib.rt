// What the test programs read and print alike.
#![tactic(auto)]

ghost use Rattle.std.specs.Prelude.{◌≡◌, ◌≤◌, ◌==◌, IfSome};
ghost use Rattle.rom.specs.Bytes.{byte_at, word_at};
ghost use Rattle.arrayvec.specs.ArrayVec.{array_vec_len};

use arrayvec::ArrayVec;
use image::Arguments;
use rom::{Layout, Refusal};
use text::line::{Line, STDIN, STDOUT};
use text::slice::{byte_at, part, word_at};

// More records than any input has.
pub const RECORDS: u32 = 1_000_000;

// The most bytes behind a head.
const ROOM: usize = 4096;

// A record of the input: a head, whose first word says how many bytes follow it, and those.
#[derive(Drop)]
pub struct Record<const HEAD: usize> {
    pub head: [u8; HEAD],
    pub rest: ArrayVec<u8, ROOM>,
}

// The next bytes of the input, with zeros where it ends, or where they are more than there is room for.
pub fn next_bytes<const N: usize>(length: usize) -> ArrayVec<u8, N>
    ensures { array_vec_len result ≤ N }
{
    let mut room = [0u8; N];
    if length <= N {
        io::read_full(STDIN, &mut room[..length]);
    }
    let mut bytes = ArrayVec::new();
    let _ = bytes.try_extend_from_slice(part(&room, 0, length));
    bytes
}

// The next record; none at the end of the input.
pub fn next_record<const HEAD: usize>() -> Option<Record<HEAD>>
    ensures { IfSome result (λ next. array_vec_len next.rest ≤ 4096) }
{
    let mut head = [0u8; HEAD];
    if io::read_full(STDIN, &mut head) < HEAD {
        return None;
    }
    let length = usize::from(word_at(&head, 0));
    Some(Record {
        head,
        rest: next_bytes(length),
    })
}

// The arguments of a reading, in a head: the chip (word), controller, level, stated size (word), layout (1 with a Magic Packet
// block, 0 without) and edition (1 for 1.00, 0 for 1.01).
pub fn arguments_in(head: &[u8]) -> Arguments
    ensures chip { result.chip ≡ word_at head.now 2 }
    ensures controller { result.controller ≡ byte_at head.now 4 }
    ensures level { result.level ≡ byte_at head.now 5 }
    ensures size { result.layout.size ≡ word_at head.now 6 }
    ensures magic { result.layout.magic ≡ (byte_at head.now 8 == 1) }
    ensures first_edition { result.first_edition ≡ (byte_at head.now 9 == 1) }
{
    Arguments {
        chip: word_at(head, 2),
        controller: byte_at(head, 4),
        level: byte_at(head, 5),
        layout: Layout {
            size: word_at(head, 6),
            magic: byte_at(head, 8) == 1,
        },
        first_edition: byte_at(head, 9) == 1,
    }
}

pub fn print(text: &[u8]) {
    io::write_all(STDOUT, text);
}

pub fn print_number(n: u64) {
    io::print_decimal(STDOUT, n);
}

pub fn print_refusal(refusal: Refusal) {
    print(b"refused ");
    print_number(u64::from(refusal.number()));
}

// Bytes in hexadecimal, two digits each, 64 bytes at a time.
pub fn print_bytes(bytes: &[u8]) {
    for row in bytes.chunks(64) {
        let mut line = Line::new();
        for byte in row {
            line = line.hex(u64::from(*byte), 2);
        }
        line.show(STDOUT);
    }
}
