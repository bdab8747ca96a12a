// A file that is written whole or not at all: a temporary one beside it takes the bytes, and at the end its name.
use crate::arguments::{Complained, complain};
use crate::typed::PATH_MAX;
use crate::{failure, typed};
use arrayvec::ArrayVec;
use std::fs::{File, OpenOptions, Permissions};
use std::io::{ErrorKind, Write};
use std::os::fd::AsRawFd;
use std::os::unix::fs::{OpenOptionsExt, PermissionsExt};
use std::rt::{Env, Files};
use std::{fs, io};

// Paths are shorter, so that there is room for a temporary file's ending.
const PATH_LIMIT: usize = 4000;

// The last number that the ending can have.
const LAST: u32 = 999_999;

// Who may read and write a file: its owner alone until it is whole, and what the system asks for else.
const PRIVATE: u32 = 0o600;

const PUBLIC: u32 = 0o666;

type FilePath = ArrayVec<u8, PATH_MAX>;

// A temporary file that is open for writing: the descriptor that its bytes go to, its path, and the place of the word that names the
// file that it becomes.
#[derive(Drop)]
pub struct Output {
    pub descriptor: i32,
    file: File,
    path: FilePath,
    place: usize,
}

// The path of a temporary file with a number, beside a file of a name.
fn numbered(name: &[u8], number: u32) -> io::Result<FilePath> {
    let mut path = FilePath::new();
    path.write_all(name)?;
    write!(path, ".{number:06}")?;
    Ok(path)
}

// Makes a file, where there is none of its name.
fn create(rt: &impl Files<File = File>, name: &[u8], mode: u32) -> io::Result<File> {
    OpenOptions::new()
        .write(true)
        .create_new(true)
        .mode(mode)
        .open(rt, failure::text_of(name)?)
}

fn make_numbered(
    rt: &impl Files<File = File>,
    name: &[u8],
    number: u32,
) -> io::Result<(File, FilePath)> {
    let path = numbered(name, number)?;
    let file = create(rt, &path, PRIVATE)?;
    Ok((file, path))
}

// Makes the temporary file whose path has the first number that no file has.
fn make(rt: &impl Files<File = File>, name: &[u8]) -> io::Result<(File, FilePath)> {
    for number in 0..LAST {
        match make_numbered(rt, name, number) {
            Err(error) if error.kind() == ErrorKind::AlreadyExists => {}
            made => return made,
        }
    }
    make_numbered(rt, name, LAST)
}

// Gives the temporary file a name, over a file that has it only where that is forced.
fn rename(rt: &impl Files<File = File>, path: &[u8], name: &[u8], force: bool) -> io::Result<()> {
    if !force {
        create(rt, name, PUBLIC)?;
    }
    fs::rename(rt, failure::text_of(path)?, failure::text_of(name)?)
}

fn remove(rt: &impl Files, path: &[u8]) -> io::Result<()> {
    fs::remove_file(rt, failure::text_of(path)?)
}

impl Output {
    // Makes the temporary file beside the one that a word names.
    pub fn begin(rt: &(impl Files<File = File> + Env), place: usize) -> Result<Output, Complained> {
        let mut name = typed::word::<PATH_MAX>(rt, place);
        if PATH_LIMIT <= name.len() {
            return Err(complain(rt, b"the path is too long", place));
        }
        match make(rt, &name) {
            Ok((file, path)) => {
                let _ = file.set_permissions(Permissions::from_mode(0o644));
                Ok(Output {
                    descriptor: file.as_raw_fd(),
                    file,
                    path,
                    place,
                })
            }
            Err(error) => {
                let _ = name.write_all(b".XXXXXX");
                Err(failure::show(&name, error))
            }
        }
    }

    // Gives the temporary file, where it is whole, the name that the word is, or removes it.
    pub fn finish(
        self,
        rt: &(impl Files<File = File> + Env),
        whole: bool,
        force: bool,
    ) -> Result<(), Complained> {
        let Output {
            descriptor: _,
            file,
            path,
            place,
        } = self;
        let name = typed::word::<PATH_MAX>(rt, place);
        let kept = file.sync_all().is_ok();
        drop(file);
        let finished = if !kept {
            Err(complain(rt, b"not all could be kept", place))
        } else if !whole {
            Err(complain(rt, b"not all could be written", place))
        } else {
            rename(rt, &path, &name, force).map_err(|error| failure::show(&name, error))
        };
        if finished.is_err() {
            let _ = remove(rt, &path);
        }
        finished
    }
}
