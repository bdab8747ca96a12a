// A file that holds an image or a sheet: raw, or as hexadecimal text, which is told apart by itself.
ghost use Rattle.io.specs.Counts.{IsPrefixLen};

use crate::arguments::{Complained, complain};
use crate::typed::PATH_MAX;
use crate::{failure, typed};
use arrayvec::ArrayVec;
use hexadecimal::Problem;
use hexadecimal::held::ROOM;
use std::fs;
use std::io::Read;
use std::rt::{Env, Files};
use text::line;
use text::slice::part;

// The most bytes of a file: the longest sheet has fewer in every form of text.
const LONGEST: usize = 8192;

const TOO_MANY: &[u8] = b"found more than 2,048 bytes";

// The bytes of a file.
pub type Input = ArrayVec<u8, ROOM>;

fn refuse(rt: &impl Env, what: &[u8], place: usize) -> Complained {
    complain(rt, what, place).suggest(
        b"expected raw bytes, or hexadecimal text; ./card help names its forms",
    )
}

fn problem_words(problem: Problem) -> &'static [u8] {
    match problem {
        Problem::NoOffset => b"found a line that no offset begins",
        Problem::WrongOffset => b"found an offset that is not the next byte's",
        Problem::NoByte => b"found no byte or word where one belongs",
        Problem::TooMany => TOO_MANY,
        Problem::NoBytes => b"found text that is not hexadecimal",
    }
}

// The line with which something is wrong.
fn show_line(source: &[u8], number: u32) {
    line::of(b"      found in line #: ", [u64::from(number), 0, 0, 0])
        .text(part(text::line_number(source, number), 0, 54))
        .complain();
}

// The bytes as they are, if there is room for them.
fn raw(rt: &impl Env, bytes: &[u8], place: usize) -> Result<Input, Complained> {
    ArrayVec::try_from(bytes).map_err(|_| refuse(rt, TOO_MANY, place))
}

fn decoded(rt: &impl Env, source: &[u8], place: usize) -> Result<Input, Complained> {
    let reading = hexadecimal::decode(source);
    let Some(problem) = reading.held.problem else {
        return raw(rt, &reading.held.bytes, place);
    };
    let complained = refuse(rt, problem_words(problem), place);
    if problem != Problem::NoBytes {
        show_line(source, reading.line);
    }
    Err(complained)
}

fn told_apart(rt: &impl Env, source: &[u8], place: usize) -> Result<Input, Complained> {
    if source.is_empty() {
        return Err(refuse(rt, b"found an empty file", place));
    }
    if text::is_text(source) {
        return decoded(rt, source, place);
    }
    raw(rt, source, place)
}

// A read of no bytes tells a file from what is none, as a directory.
fn is_readable(file: &mut impl Read) -> bool {
    file.read(&mut []).is_ok()
}

// How many bytes a read brings to the front of the room: none where it fails.
fn bytes_read(file: &mut impl Read, room: &mut [u8]) -> usize
    ensures { IsPrefixLen result room.new }
{
    file.read(room).unwrap_or(0)
}

// Fills the front of the room, up to the file's end, and answers how far.
fn fill(file: &mut impl Read, room: &mut [u8]) -> usize
    ensures { IsPrefixLen result room.new }
{
    // A `while`: the place goes on by what a read brings, and no `for` or method does that more plainly.
    let mut done = 0;
    while done < room.len() {
        let read = bytes_read(file, &mut room[done..]);
        if read == 0 {
            return done;
        }
        done += read;
    }
    done
}

fn read_from(file: &mut impl Read, rt: &impl Env, place: usize) -> Result<Input, Complained> {
    if !is_readable(file) {
        return Err(refuse(rt, b"found no file that can be read", place));
    }
    let mut room = [0; LONGEST];
    let length = fill(file, &mut room);
    if 0 < bytes_read(file, &mut [0]) {
        return Err(refuse(rt, b"found more than 8,192 bytes", place));
    }
    told_apart(rt, &room[..length], place)
}

// Opens the file of a name for reading.
fn open<R: Files>(rt: &R, name: &[u8]) -> std::io::Result<R::File> {
    fs::open(rt, failure::text_of(name)?)
}

// The file that a word names, '-' for standard input.
pub fn read_file(
    rt: &(impl Files + std::io::Input + Env),
    place: usize,
) -> Result<Input, Complained> {
    let name = typed::word::<PATH_MAX>(rt, place);
    if matches!(name.as_slice(), b"-") {
        return read_from(&mut rt.reader(), rt, place);
    }
    let mut file = open(rt, &name).map_err(|error| failure::show(&name, error))?;
    read_from(&mut file, rt, place)
}
