// The cases of the script, one after another: each line's verb says what is done with its content.
use crate::build::File;
use crate::{reading, say, script};
use std::io;

// Runs every case, and counts them.
pub fn all(rt: &impl Print, text: &[u8]) -> io::Result<u64> {
    let mut count: u64 = 0;
    for line in text.split(|byte| *byte == b'\n') {
        if one(rt, line)? {
            count = count.wrapping_add(1);
        }
    }
    Ok(count)
}

// Runs a line, and says whether it is a case. Verbs are told apart by their first letter: read, long and comment.
fn one(rt: &impl Print, line: &[u8]) -> io::Result<bool> {
    let Some(verb) = line.first() else {
        return Ok(false);
    };
    if *verb == b'=' {
        say::line(rt, line)?;
        return Ok(false);
    }
    if *verb < b'a' {
        return Ok(false);
    }
    let mut space = File::empty();
    space.store(script::content(line));
    let file = space.bytes();
    let label = script::label(line);
    match verb {
        b'c' => reading::comment(rt, file, script::argument(line), label)?,
        b'l' => reading::sized(rt, file, label)?,
        _ => reading::plain(rt, file, label)?,
    }
    Ok(true)
}
