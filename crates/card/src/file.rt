// A file that a command writes.
use console::arguments::Complained;
use console::output::Output;
use console::status::Status;
use std::fs::File;
use std::rt::{Env, Files};
use text::line;

// Writes bytes to the file that a word names.
pub fn save(
    rt: &(impl Files<File = File> + Env),
    bytes: &[u8],
    place: usize,
    force: bool,
) -> Result<Status, Complained> {
    let output = Output::begin(rt, place)?;
    let whole = io::write_all(output.descriptor, bytes);
    output.finish(rt, whole, force)?;
    line::of(
        b"ACCEPTED  # bytes are written",
        [bytes.len() as u64, 0, 0, 0],
    )
    .print();
    Ok(Status::Accepted)
}
