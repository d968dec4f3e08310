// Cases of the reader and of the comment lookup: a file is read, and the line says what came.
use crate::say::Shown;
use crate::{say, subject};
use std::io;

pub fn plain(rt: &impl Print, file: &[u8], label: &[u8]) -> io::Result<()> {
    answer(rt, file)?;
    say::label(rt, label)
}

// The line has the file's length too.
pub fn sized(rt: &impl Print, file: &[u8], label: &[u8]) -> io::Result<()> {
    answer(rt, file)?;
    print!(rt; ", of {} bytes", file.len())?;
    say::label(rt, label)
}

// Reads a file, and writes its table or its refusal.
fn answer(rt: &impl Print, file: &[u8]) -> io::Result<()> {
    match subject::read(file) {
        Ok(t) => print!(rt; "read {}", Shown(t)),
        Err(why) => print!(rt; "{why}"),
    }
}

// Looks a comment up, and writes its place and the part shown, up to 40 bytes of it.
pub fn comment(rt: &impl Print, file: &[u8], k: u64, label: &[u8]) -> io::Result<()> {
    print!(rt; "comment {k}")?;
    match subject::comment_at(file, k) {
        Ok(place) => print!(rt; " at {} of {}", place.start, place.length)?,
        Err(why) => print!(rt; " {why}")?,
    }
    let part = subject::comment(file, k);
    print!(rt; ", shows {} <", part.len())?;
    rt.write_all(&part[..part.len().min(40)])?;
    rt.write_all(b">")?;
    say::label(rt, label)
}
