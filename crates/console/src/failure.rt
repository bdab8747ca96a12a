// What the system says of a file that it refuses.
ghost use Rattle.std.specs.Prelude.{◌≤◌, length};

use crate::arguments::Complained;
use arrayvec::ArrayVec;
use std::io::{Error, ErrorKind, Result, Write};
use std::str;
use text::line::STDERR;

// The longest reason that is shown.
const ROOM: usize = 256;

// A file's name as text, which it is opened by.
pub(crate) fn text_of(name: &[u8]) -> Result<&str> {
    str::from_utf8(name).map_err(|_| Error::from(ErrorKind::InvalidFilename))
}

// How long an error's words are without its number, which stands behind them in brackets.
fn reason_length(words: &[u8]) -> usize
    ensures { result ≤ length words.now }
{
    words
        .windows(2)
        .position(|pair| matches!(pair, b" ("))
        .unwrap_or(words.len())
}

// Writes a line to standard error: a file's name, a colon and the reason.
pub(crate) fn show(name: &[u8], error: Error) -> Complained {
    let mut words = ArrayVec::<u8, ROOM>::new();
    let _ = write!(words, "{error}");
    io::write_all(STDERR, name);
    io::write_all(STDERR, b": ");
    io::write_all(STDERR, &words[..reason_length(&words)]);
    io::write_all(STDERR, b"\n");
    Complained
}
