// The two forms of a sheet and where things stand in it (document 01, 'The sheet'; document 02, request 7), for the writer, the
// sheet maker and the converters.
#![tactic(auto)]

ghost use Rattle.std.specs.Prelude.{◌≡◌};
ghost use Rattle.sheet.specs.Form.{form_named, is_wide, is_beyond, other, shift};
ghost use Rattle.sheet.specs.Make.{made_of};

use rom::Refusal;

// How a sheet states its block count and its total of body bytes: as bytes, or as words.
#[derive(Clone, Copy, PartialEq, Eq)]
pub enum Form {
    Narrow,
    Wide,
}

// The form that a caller names.
impl From<bool> for Form {
    ghost from_gives = { λ wide form. form ≡ form_named wide };

    fn from(wide: bool) -> Form {
        if wide { Form::Wide } else { Form::Narrow }
    }
}

impl Form {
    pub fn is_wide(self) -> bool
        ensures { result ≡ is_wide self }
    {
        self == Form::Wide
    }

    // The form that a sheet of this one is converted to.
    pub fn other(self) -> Form
        ensures { result ≡ other self }
    {
        match self {
            Form::Narrow => Form::Wide,
            Form::Wide => Form::Narrow,
        }
    }

    // How much later all that follows the counts stands than in a narrow sheet.
    pub fn shift(self) -> usize
        ensures { result ≡ shift self }
    {
        match self {
            Form::Narrow => 0,
            Form::Wide => 2,
        }
    }

    // Whether a stated size is beyond the form: the narrow one keeps to the smaller size.
    #[tactic(auto, unfolding(crate::specs::Form::is_beyond, rom::specs::Geometry::other_size))]
    pub fn is_beyond(self, size: u16) -> bool
        ensures { result ≡ is_beyond self size }
    {
        self == Form::Narrow && size != rom::SMALL_SIZE
    }
}

// The most that a byte states: the blocks of a leaf, and either count of a narrow sheet.
pub const MOST_STATED: u16 = 255;

// What a call answers that lays out a sheet: the sheet's length, or a refusal's number and 0.
#[repr(C)]
#[derive(Drop)]
pub struct Made {
    pub number: u8,
    pub length: usize,
}

impl From<Result<usize, Refusal>> for Made {
    ghost from_gives = { λ answer made. made ≡ made_of answer };

    fn from(answer: Result<usize, Refusal>) -> Made {
        match answer {
            Ok(length) => Made { number: 0, length },
            Err(refusal) => Made {
                number: refusal.number(),
                length: 0,
            },
        }
    }
}

// ## Places in a narrow sheet; in a wide one all of them are two bytes later

// ID bytes 0 to 15, then ID byte 17.
pub const ID_AT: usize = 2;

pub const SHEET_LAST_ID_AT: usize = 18;

pub const SHEET_VERSION_AT: usize = 19;

pub const SHEET_ADDRESS_AT: usize = 20;

pub const DEVICE_AT: usize = 26;

pub const CHIP_AT: usize = 27;

pub const CONNECTION_AT: usize = 29;

pub const CONTROL_AT: usize = 31;

pub const MAKER_AT: usize = 32;

// The arrays of kinds and body sizes, and then the bodies, stand behind these bytes.
pub const HEAD_LENGTH: usize = 34;

// The longest body of an extended block: its length byte counts the type byte too, and has seven bits.
pub const LONGEST_BODY: usize = 126;

// Where the writer puts the leaf in an image, and a tidy image has it.
pub const LEAF_START: usize = 30;

// Where the only controller's leaf offset stands in an image, behind its device number.
pub const LEAF_OFFSET_AT: usize = 27;
