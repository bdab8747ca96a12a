// Why a call is refused.
ghost use Rattle.std.specs.Prelude.{◌≡◌};
ghost use Rattle.rom.specs.Numbers.{refusal_number};

use std::error::Error;
use std::fmt;

// Each with its number in documents 01 and 02, where 0 is acceptance; each call has its own order of them.
#[derive(Clone, Copy, Debug, PartialEq, Eq)]
pub enum Refusal {
    ImageLength = 1,
    Version = 2,
    SromCrc = 3,
    IdCrc = 4,
    ControllerCount = 5,
    Controller = 6,
    Chip = 7,
    Level = 8,
    Address = 9,
    LeafHeader = 10,
    ConnectionType = 11,
    ArrayLength = 12,
    BlockEnd = 13,
    BlockType = 14,
    BlockLength = 15,
    BlockCode = 16,
    Advertisement = 17,
    Clash = 18,
    Report = 19,
    Fresh = 20,
    Loaded = 21,
    Looks = 23,
    Sheet = 24,
    SheetEntry = 25,
    LeafEnd = 26,
    Untidy = 27,
    MagicCrc = 29,
    MagicReserved = 30,
    RepeatedMode = 31,
    NoFixedMedium = 32,
    SheetTooLarge = 33,
    FirstVersionChip = 38,
}

impl Refusal {
    // In the order of their numbers.
    pub const ALL: [Refusal; 32] = [
        Refusal::ImageLength,
        Refusal::Version,
        Refusal::SromCrc,
        Refusal::IdCrc,
        Refusal::ControllerCount,
        Refusal::Controller,
        Refusal::Chip,
        Refusal::Level,
        Refusal::Address,
        Refusal::LeafHeader,
        Refusal::ConnectionType,
        Refusal::ArrayLength,
        Refusal::BlockEnd,
        Refusal::BlockType,
        Refusal::BlockLength,
        Refusal::BlockCode,
        Refusal::Advertisement,
        Refusal::Clash,
        Refusal::Report,
        Refusal::Fresh,
        Refusal::Loaded,
        Refusal::Looks,
        Refusal::Sheet,
        Refusal::SheetEntry,
        Refusal::LeafEnd,
        Refusal::Untidy,
        Refusal::MagicCrc,
        Refusal::MagicReserved,
        Refusal::RepeatedMode,
        Refusal::NoFixedMedium,
        Refusal::SheetTooLarge,
        Refusal::FirstVersionChip,
    ];

    pub fn number(self) -> u8
        ensures { result ≡ refusal_number self }
    {
        self as u8
    }
}

// In words that fit every layout.
impl fmt::Display for Refusal {
    fn fmt<W: fmt::Write>(&self, f: &mut fmt::Formatter<W>) -> fmt::Result {
        f.write_str(match self {
            Refusal::ImageLength => "the image's length or its stated size is wrong",
            Refusal::Version => "the format version is neither 1, 3 nor 4",
            Refusal::SromCrc => "the SROM CRC is wrong",
            Refusal::IdCrc => "the ID CRC is wrong",
            Refusal::ControllerCount =>
                "the controller count is 0 or too high, or the reserved byte is not 0",
            Refusal::Controller => "the card has no such controller",
            Refusal::Chip => "no such chip",
            Refusal::Level => "the level is over 7",
            Refusal::Address => "the controller's address is over 48 bits",
            Refusal::LeafHeader => "the leaf's header is outside its bounds",
            Refusal::ConnectionType =>
                "the connection type is none of the chip's, or of the other edition",
            Refusal::ArrayLength => "the room that is lent is too short",
            Refusal::BlockEnd => "the block runs into the maker's bytes",
            Refusal::BlockType =>
                "the block's length is 0, or chip or version does not permit its type",
            Refusal::BlockLength => "the block's length is wrong for its type",
            Refusal::BlockCode => "the block's media code or one of its reserved bits is wrong",
            Refusal::Advertisement => "the PHY advertises what it is not capable of",
            Refusal::Clash => "two resets, a reset and a PHY's own, or two default media",
            Refusal::Report => "the report is too short, or has a byte above 1",
            Refusal::Fresh => "the walk is fresh: nothing is loaded",
            Refusal::Loaded => "the walk is loaded already",
            Refusal::Looks => "65,535 looks have been taken",
            Refusal::Sheet => "the sheet's length is wrong, or the sum of its sizes is",
            Refusal::SheetEntry => "a kind, a body or the control byte is wrong in the sheet",
            Refusal::LeafEnd => "the leaf would run into the maker's bytes",
            Refusal::Untidy => "the image is not tidy, so a sheet would lose some of it",
            Refusal::MagicCrc => "the CRC of the Magic Packet block is wrong",
            Refusal::MagicReserved => "a reserved byte of the Magic Packet block is not 0",
            Refusal::RepeatedMode => "a bit of the mode byte is set in two power blocks",
            Refusal::NoFixedMedium => "no listed block has the fixed medium",
            Refusal::SheetTooLarge =>
                "the sheet has over 255 blocks, or too many body bytes to be narrowed",
            Refusal::FirstVersionChip =>
                "the format version is 1, which has the 21041 and the 21140 alone",
        })
    }
}

impl Error for Refusal {}
