// The reading of each record on standard input, one line a record: the image's length (word), chip (word), controller, level,
// stated size (word), layout (1 with a Magic Packet block, 0 without), edition (1 for 1.00, 0 for 1.01), image. Each entry of the
// table is printed as kind@offset:block.
#![tactic(auto)]

use reader::{Answer, Arguments};
use text::line::STDOUT;
use vectors::{print, print_bytes, print_number};

// The bytes of a record before the image's.
const HEAD: usize = 10;

fn print_answer(answer: Answer) {
    print(b"accepted ");
    io::print_hex(STDOUT, u64::from(answer.connection), 4);
    print(b" ");
    io::print_hex(STDOUT, u64::from(answer.control), 2);
    print(b" ");
    io::print_hex(STDOUT, answer.address, 12);
    for count in [
        answer.blocks,
        answer.listed,
        answer.resets,
        answer.skipped,
        answer.power,
        answer.default_number,
    ] {
        print(b" ");
        print_number(u64::from(count));
    }
}

fn print_entry(kind: u16, offset: u16) {
    print(b" ");
    print_number(u64::from(kind));
    print(b"@");
    print_number(u64::from(offset));
}

// The entries of the table, each with its block as the view hands it back.
fn print_table(image: &[u8], arguments: Arguments, kinds: &[u16], offsets: &[u16]) {
    for (entry, (kind, offset)) in kinds.iter().zip(offsets).enumerate() {
        print_entry(*kind, *offset);
        print(b":");
        print_bytes(reader::view(image, arguments, entry));
    }
}

fn print_reading(image: &[u8], arguments: Arguments) {
    let mut kinds = [0; 255];
    let mut offsets = [0; 255];
    match reader::read(image, arguments, &mut kinds, &mut offsets) {
        Ok(reading) => {
            let listed = usize::from(reading.tally.listed);
            print_answer(Answer::from(Ok(reading)));
            print_table(image, arguments, &kinds[..listed], &offsets[..listed]);
        }
        Err(refusal) => vectors::print_refusal(refusal),
    }
    print(b"\n");
}

fn main() {
    for _ in 0..vectors::RECORDS {
        let Some(record) = vectors::next_record::<HEAD>() else {
            return;
        };
        print_reading(&record.rest, vectors::arguments_in(&record.head));
    }
}
