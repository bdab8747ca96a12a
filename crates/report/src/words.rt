// Words for numbers: the one list of each. Media, connection types, the bits of a Magic command and those of a mode byte are
// named as 000 names them.
ghost use Rattle.std.specs.Prelude.{◌≡◌, ◌++◌, map, IfSome};
ghost use Rattle.rom.specs.Numbers.{refusal_number};
ghost use Rattle.text.specs.Written.{text_of, fitted};
ghost use Rattle.report.specs.Words.{media_words, connection_words, kind_words, medium_words};
ghost use Rattle.report.specs.Words.{set_names, command_words, mode_words};

use block::chip;
use rom::Refusal;
use std::io::{Cursor, Write};
use text::hex_words;
use text::line::Line;
use text::slice::{byte_at, part};

// The words of every refusal are shorter.
const ROOM: usize = 128;

// The refusal with a number.
pub(crate) fn refusal_of(number: u8) -> Option<Refusal>
    ensures { IfSome result (λ refusal. refusal_number refusal ≡ number) }
{
    Refusal::ALL
        .iter()
        .copied()
        .find(|refusal| refusal.number() == number)
}

// The words of a number end what they stand in, and go to a file. 0 is acceptance; that of no refusal has none.
pub fn show_refusal(number: u8, file: i32) {
    let mut cursor = Cursor::new([0u8; ROOM]);
    let _ = match refusal_of(number) {
        Some(refusal) => write!(cursor, "{refusal}"),
        None if number == 0 => write!(cursor, "accepted"),
        None => Ok(()),
    };
    let length = cursor.position() as usize;
    let room = cursor.into_inner();
    io::write_all(file, part(&room, 0, length));
}

fn medium_name(code: u8) -> &'static [u8]
    ensures { result.now ≡ media_words code }
{
    match code {
        0 => b"10BaseT",
        1 => b"10Base2 (BNC)",
        2 => b"10Base5 (AUI)",
        3 => b"100BaseTx",
        4 => b"10BaseT full duplex",
        5 => b"100BaseTx full duplex",
        6 => b"100BaseT4",
        7 => b"100BaseFx",
        8 => b"100BaseFx full duplex",
        _ => b"",
    }
}

pub fn media_words(line: Line, code: u8) -> Line
    ensures { text_of result ≡ fitted (text_of line ++ media_words code) }
{
    line.text(medium_name(code))
}

// A connection type's code; one of edition 1.00 with what it is since.
#[tactic(auto, using(crate::proofs::Names::two, crate::proofs::Names::none_more), unfolding(crate::proofs::Computes::connection_computes))]
pub fn connection_words(line: Line, connection: u16) -> Line
    ensures { text_of result ≡ fitted (text_of line ++ connection_words connection) }
{
    let taken = chip::taken_as(connection);
    let line = line.with(b"@", [u64::from(connection), 0, 0, 0]);
    if taken == connection {
        return line;
    }
    line.with(
        b", in edition 1.00 what @ is since",
        [u64::from(taken), 0, 0, 0],
    )
}

// The line in which more is said of a connection type: behind its code, or where two codes fill a line, below them.
pub fn connection_line(name: &[u8], connection: u16) -> Line {
    let line = connection_words(Line::new().text(name), connection).byte(b',');
    if chip::taken_as(connection) == connection {
        return line.byte(b' ');
    }
    line.print();
    Line::new().to(name.len())
}

// Connection types, as 000 names them.
const CONNECTIONS: &[u8] = b"0000 10BaseT
0100 10BaseT with Nway
0204 10BaseT full duplex
0400 10BaseT without link pass test
0001 10Base2 (BNC)
0002 10Base5 (AUI)
0003 100BaseTx
0205 100BaseTx full duplex
0006 100BaseT4
0007 100BaseFx
0208 100BaseFx full duplex
0009 MII 10BaseT
020a MII 10BaseT full duplex
000d MII 100BaseTx
020e MII 100BaseTx full duplex
000f MII 100BaseT4
0010 MII 100BaseFx
0211 MII 100BaseFx full duplex
0800 autosense, at power-up and later
8800 autosense at power-up only
0900 autosense with Nway
ffff none selected
";

// Ends a line with a connection type, by what it is taken as.
pub fn show_connection(line: Line, connection: u16) {
    line.text(hex_words(CONNECTIONS, chip::taken_as(connection)))
        .print();
}

// A block's kind: an extended type, or one of the two forms without.
#[tactic(auto, using(crate::proofs::Names::two), unfolding(crate::specs::Words::kind_words, rom::specs::Bytes::pick))]
pub fn kind_words(line: Line, kind: u16) -> Line
    ensures { text_of result ≡ fitted (text_of line ++ kind_words kind) }
{
    match kind {
        block::KIND_COMPACT => line.text(b"compact"),
        block::KIND_21041 => line.text(b"21041"),
        _ => line.text(b"type ").decimal(u64::from(kind)),
    }
}

// What a listed block stands for: a medium by its code, or a PHY by its number.
#[tactic(auto, unfolding(crate::specs::Words::medium_words, rom::specs::Bytes::pick))]
pub fn medium_words(line: Line, bytes: &[u8], kind: u16) -> Line
    ensures { text_of result ≡ fitted (text_of line ++ medium_words bytes.now kind) }
{
    if block::KIND_COMPACT <= kind {
        media_words(line, byte_at(bytes, 0) % 64)
    } else if kind % 2 == 1 {
        line.with(b"MII PHY #", [u64::from(byte_at(bytes, 2)), 0, 0, 0])
    } else {
        media_words(line, byte_at(bytes, 2) % 64)
    }
}

// The names of bits, from bit 0 on. One that must be 0 has its number alone.
const COMMAND_BITS: [&[u8]; 16] = [
    b"MAGIC_DIS",
    b"Sec_ON_En",
    b"bit 2",
    b"BNC",
    b"AUI/HR",
    b"TP10",
    b"MII",
    b"SYM",
    b"LOCK",
    b"bit 9",
    b"bit 10",
    b"bit 11",
    b"bit 12",
    b"bit 13",
    b"bit 14",
    b"bit 15",
];

const MODE_BITS: [&[u8]; 8] = [
    b"link fail",
    b"D1",
    b"D2",
    b"D3",
    b"bit 4",
    b"bit 5",
    b"bit 6",
    b"bit 7",
];

// The names of the bits that are set: the first behind one text, the others behind another.
fn bit_words<'a>(line: Line, bits: u16, names: &[&[u8]], first: &'a [u8], other: &'a [u8]) -> Line
    ensures { text_of result ≡ fitted (text_of line ++ set_names (map (λ n. n.now) names.now) first.now other.now bits) }
{
    let mut line = line;
    let mut before = first;
    let mut bits = bits;
    for name in names {
        if bits % 2 == 1 {
            line = line.text(before).text(name);
            before = other;
        }
        bits /= 2;
    }
    line
}

// The bits of a Magic command that are set.
pub fn command_words(line: Line, command: u16) -> Line
    ensures { text_of result ≡ fitted (text_of line ++ command_words command) }
{
    bit_words(line, command, &COMMAND_BITS, b" ", b" ")
}

// When a power block applies: the bits of its mode byte that are set.
pub fn mode_words(line: Line, mode: u8) -> Line
    ensures { text_of result ≡ fitted (text_of line ++ mode_words mode) }
{
    if mode == 0 {
        return line.text(b" none");
    }
    bit_words(line, u16::from(mode), &MODE_BITS, b" ", b", ")
}
