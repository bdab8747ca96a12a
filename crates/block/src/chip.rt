// The chips and what each takes: one row a chip, at the same place in every table (document 01, 'Leaf and blocks'; document 02,
// requests 3 and 12).
ghost use Rattle.std.specs.Prelude.{◌≡◌};
ghost use Rattle.rom.specs.Bytes.{is_in};
ghost use Rattle.format.specs.Chips.{row_of, first_chips, is_connection, taken_as, is_read, is_permitted};

use super::{KIND_21041, KIND_COMPACT};

// How many there are: the row of what is no chip.
pub const CHIP_COUNT: usize = 5;

// The chip with a block form of its own.
pub const ROW_21041: usize = 0;

// The chip whose leaf has a general purpose control byte.
pub const ROW_21140: usize = 1;

// Connection types.
const CONNECTION_TYPES: [&[u16]; CHIP_COUNT] = [
    CONNECTIONS_21041,
    CONNECTIONS_21140,
    CONNECTIONS_21142,
    CONNECTIONS_21142,
    CONNECTIONS_21142,
];

const CONNECTIONS_21041: &[u16] = &[
    0x0000, 0x0100, 0x0204, 0x0400, 0x0001, 0x0002, 0x0800, 0x0900, 0xFFFF,
];

const CONNECTIONS_21140: &[u16] = &[
    0x0000, 0x0100, 0x0204, 0x0001, 0x0003, 0x0205, 0x0006, 0x0007, 0x0208, 0x0009, 0x020A, 0x000D,
    0x020E, 0x000F, 0x0010, 0x0211, 0x0800, 0x8800, 0xFFFF,
];

// The 21140's list and 0x0002, on the 21142, 21143 and 21145.
const CONNECTIONS_21142: &[u16] = &[
    0x0000, 0x0100, 0x0204, 0x0001, 0x0003, 0x0205, 0x0006, 0x0007, 0x0208, 0x0009, 0x020A, 0x000D,
    0x020E, 0x000F, 0x0010, 0x0211, 0x0800, 0x8800, 0xFFFF, 0x0002,
];

// Permitted kinds of blocks. A row that lists fewer repeats its first kind.
static PERMITTED: [[u16; 5]; CHIP_COUNT] = [
    [KIND_21041; 5],
    [KIND_COMPACT, 0, 1, 5, KIND_COMPACT],
    [2, 3, 5, 2, 2],
    [2, 3, 4, 5, 6],
    [2, 3, 4, 5, 6],
];

// The row of a chip by its decimal number, or 5 where it is none of them. The 21140A counts as 21140.
#[tactic(auto, unfolding(crate::proofs::Computes::row_computes))]
pub fn row_of(chip: u16) -> usize
    ensures { result ≡ row_of chip }
{
    match chip {
        21041 => ROW_21041,
        21140 => ROW_21140,
        21142 => 2,
        21143 => 3,
        21145 => 4,
        _ => CHIP_COUNT,
    }
}

// Whether version 1 has the chip.
#[tactic(auto, unfolding(format::specs::Chips::first_chips, rom::specs::Bytes::is_in))]
pub fn is_first_chip(chip: u16) -> bool
    ensures { result ≡ is_in chip first_chips }
{
    matches!(chip, 21041 | 21140)
}

// Whether the chip at a row takes the connection type. Past the last row none does.
#[tactic(auto, unfolding(crate::proofs::Computes::connections_compute))]
pub fn is_connection(row: usize, code: u16) -> bool
    ensures { result ≡ is_connection row code }
{
    row < CHIP_COUNT && CONNECTION_TYPES[row].contains(&code)
}

// What a connection type is taken as: a code of edition 1.00 as what 1.01 has in its place, every other as itself.
#[tactic(auto, unfolding(format::specs::Chips::taken_as, rom::specs::Bytes::pick))]
pub fn taken_as(code: u16) -> u16
    ensures { result ≡ taken_as code }
{
    match code {
        0x0200 => 0x0204,
        0x0203 => 0x0205,
        _ => code,
    }
}

// Whether an edition reads the connection type for the chip at a row: 1.00 its own codes and not those that 1.01 has in their place.
#[tactic(auto, unfolding(crate::proofs::Computes::read_computes))]
pub fn is_read(first_edition: bool, row: usize, code: u16) -> bool
    ensures { result ≡ is_read first_edition row code }
{
    if first_edition {
        !matches!(code, 0x0204 | 0x0205) && is_connection(row, taken_as(code))
    } else {
        is_connection(row, code)
    }
}

// Whether the chip at a row permits blocks of the kind.
#[tactic(auto, unfolding(format::specs::Chips::is_permitted, format::specs::Chips::permitted_rows, rom::specs::Bytes::is_in))]
pub fn is_permitted(row: usize, kind: u16) -> bool
    ensures { result ≡ is_permitted row kind }
{
    if CHIP_COUNT <= row {
        return false;
    }
    let [a, b, c, d, e] = PERMITTED[row];
    kind == a || kind == b || kind == c || kind == d || kind == e
}
