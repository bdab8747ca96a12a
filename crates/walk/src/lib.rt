// The autosense walk: its record, and what a call answers (document 01, 'The walk'; document 02, requests 4 and 5).
#![tactic(auto)]

// The length of a row: a leaf has at most 255 blocks (document 02, request 6).
pub const ROW_LENGTH: usize = 256;

// A flag for each block, by its number: whether it is listed, whether it is and has Active_Invalid, and whether it is and has
// the medium that the connection type is fixed to.
#[repr(C)]
#[derive(Clone, Copy)]
pub struct Rows {
    pub listed: [u8; ROW_LENGTH],
    pub active_invalid: [u8; ROW_LENGTH],
    pub fixed: [u8; ROW_LENGTH],
}

// A walk, fresh or loaded. No block is selected before the first look.
#[repr(C)]
#[derive(Clone, Copy)]
pub struct Walk {
    pub loaded: bool,
    pub connection: u16,
    pub blocks: u8,
    pub rows: Rows,
    pub default_number: u8,
    pub settled: bool,
    pub selected: u8,
    pub looks: u16,
    pub switches: u16,
}

// A call's number, 0 for acceptance, and the walk after it, which a refusal leaves as it was.
#[repr(C)]
#[derive(Clone, Copy)]
pub struct Walked {
    pub number: u8,
    pub walk: Walk,
}

// How a walk goes by its connection type: autosensed at every look, autosensed once, or fixed.
#[derive(Clone, Copy)]
pub enum Way {
    EveryLook,
    Once,
    Fixed,
}
