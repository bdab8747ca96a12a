// The CRCs of each record's image on standard input, one line a record: SROM CRC and ID CRC, the SROM CRC beside a Magic Packet
// block and the block's own, and then what the block says; or a refusal. A record is the image's length (word), its stated size
// (word), and the image.
#![tactic(auto)]

use packet::Magic;
use rom::{Layout, Refusal};
use text::line::STDOUT;
use text::slice::word_at;
use vectors::{print, print_bytes};

// The bytes of a record before the image's.
const HEAD: usize = 4;

fn print_crc(crc: u16, digits: usize) {
    io::print_hex(STDOUT, u64::from(crc), digits);
    print(b" ");
}

fn print_magic(magic: Magic) {
    print_bytes(&magic.password);
    print(b" ");
    print_bytes(&magic.address);
    print(b" ");
    io::print_hex(STDOUT, u64::from(magic.command), 4);
}

fn print_crcs(image: &[u8], size: u16) -> Result<(), Refusal> {
    let plain = Layout { size, magic: false };
    let beside = Layout { size, magic: true };
    print_crc(crc::srom_crc(image, plain)?, 4);
    print_crc(crc::id_crc(image, size)?, 2);
    print_crc(crc::srom_crc(image, beside)?, 4);
    print_crc(crc::magic_crc(image, size)?, 2);
    print_magic(magic::read(image, size)?);
    Ok(())
}

fn print_line(image: &[u8], size: u16) {
    if let Err(refusal) = print_crcs(image, size) {
        vectors::print_refusal(refusal);
    }
    print(b"\n");
}

fn main() {
    for _ in 0..vectors::RECORDS {
        let Some(record) = vectors::next_record::<HEAD>() else {
            return;
        };
        print_line(&record.rest, word_at(&record.head, 2));
    }
}
