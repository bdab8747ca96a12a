// An image: its header and the header of a controller's leaf, and why it is refused before its blocks are judged, as definitions
// (document 01, 'The image'; document 02, request 12).
#![tactic(auto)]

use rom::Layout;

// What a reading is told beside the image: the chip by its decimal number, the controller from 0, the reader's level, how the
// image is laid out, and whether one of version 1 is of edition 1.00, else 1.01.
#[repr(C)]
#[derive(Clone, Copy)]
pub struct Arguments {
    pub chip: u16,
    pub controller: u8,
    pub level: u8,
    pub layout: Layout,
    pub first_edition: bool,
}
