// The test program of the file layer: the reader and the comment lookup on the cases and edges that 01 names ("The
// file", "Refused, by the place of the check", "Edges") and 02 adds (R-1). The cases are in the file `stdin` beside
// `src/`, one to a line, whose head says how a line is written. Each writes a line with what it got; the file
// `stdout` has what 01 asks for, and the check compares the two. So a new case is a line in each of the two files,
// and costs no proof. tests/compare puts the same cases to the C library, and those that read with a cutoff or write.
#![tactic(auto)]

use program_input::read_input;
use std::io;

mod build;
mod cases;
mod reading;
mod say;
mod script;
mod subject;

fn main(rt: HostRuntime) -> io::Result<()> {
    let mut space = [0; 65536];
    let script = read_input(&mut rt.stdin(), &mut space)?;
    let count = cases::all(&rt, script)?;
    println!(rt; "{count} cases")
}
