// The listing program: reads a file on standard input and writes each maximal chain (01: ladder) of the gauge run by
// the writer, one after another, on standard output; for a refused file `refused n`. It holds one file and one block
// of output, however many ladders there are, and writes block by block as it goes. What is in the blocks is proved in
// crate `blocks`; what is read and written is tested, not proved. A read or write that fails is said on standard
// error, so that a list that was cut short is never taken for a whole one; a reader that went away ends the program
// quietly. The program ends with status 0 in every case: with any argument it says on standard error how it ended in
// every case, in one line (`say_end`), from which the script `ladders` makes one. A second argument is a cutoff (02,
// R-5): then a file of either kind is taken, and the table is that of the test at the cutoff.
#![tactic(auto)]

ghost use Rattle.std.specs.Prelude.{◌≡◌, ◌+◌, ◌*◌, ◌≤◌, min};
ghost use Rattle.ladders.specs.Cutoff.{cutoff_of};

use preference::GaugeOrder;
use program_input::read_input;
use refusals::Refusal;
use runs::GaugeRun;
use std::env::{Env, FillError};
use std::io::ErrorKind;
use std::{fmt, io};
use table::Table;

// The greatest cutoff, and the number in place of every one above it.
const MOST_CUTOFF: u64 = 1_000_000;

const ABOVE: u64 = 1_000_001;

// Why the ladders of a file were not all listed.
// The error enum of a program: each variant is a way to fail, `Refused` one of them.
#[derive(Clone, Copy, PartialEq, Eq)]
enum Stop {
    Refused(Refusal),
    Reading,
    Writing,
    Closed,
    Lost,
}

// In the words of the line that says how the program ended.
impl fmt::Display for Stop {
    fn fmt<W: fmt::Write>(&self, f: &mut fmt::Formatter<W>) -> fmt::Result {
        match self {
            Stop::Refused(why) => write!(f, "{why}"),
            Stop::Reading => f.write_str("reading failed"),
            Stop::Writing => f.write_str("writing failed, the output is not complete"),
            Stop::Closed => f.write_str("nobody reads"),
            Stop::Lost => f.write_str("the list is not complete"),
        }
    }
}

fn main(rt: HostRuntime) {
    // One byte more than the longest file: a longer input is refused without reading it all.
    let mut space = [0; 65537];
    let ended = match read_input(&mut rt.stdin(), &mut space) {
        Ok(file) => answer(&rt, file),
        Err(_) => Err(Stop::Reading),
    };
    say_end(&rt, ended, has_argument(&rt, 1));
}

// Whether the program was given an argument of this number, however long; 0 is its own name.
fn has_argument(rt: &impl Env, number: usize) -> bool {
    let mut space = [0; 1];
    match rt.arg(number, &mut space) {
        Ok(_) | Err(FillError::TooLong) => true,
        Err(FillError::NotPresent) => false,
    }
}

// Lists what a file has, or says its refusal: "for a refused file `refused n` with LF" (01).
fn answer(rt: &(impl Env + Print), file: &[u8]) -> Result<(), Stop> {
    match table_of(rt, file) {
        Ok(t) => list(rt, t),
        Err(why) => {
            println!(rt; "{why}").map_err(cut_short)?;
            Err(Stop::Refused(why))
        }
    }
}

// The table of a file of pairs; with a second argument that of a file of either kind, at the cutoff that it is.
fn table_of(rt: &impl Env, file: &[u8]) -> Result<Table, Refusal> {
    if !has_argument(rt, 2) {
        return file_reader::read(file);
    }
    let recording = file_reader::read_test(file, cutoff(rt))?;
    Ok(recording.table)
}

// The cutoff that the second argument is. The longest argument that the system hands to a program has a byte less
// than the space (Linux: 32 pages of 4,096 bytes with its end), so a number of any length is read whole.
fn cutoff(rt: &impl Env) -> u64 {
    let mut space = [0u8; 131072];
    match rt.arg(2, &mut space) {
        Ok(n) => number(&space[..n]),
        Err(_) => 0,
    }
}

// The cutoff that a word is in decimal; 0, which is no cutoff, where it is none.
fn number(word: &[u8]) -> u64
    ensures { result ≡ cutoff_of word.now }
{
    let mut n: u64 = 0;
    for byte in word {
        let d = file_text::digit_of(*byte);
        if 9 < d {
            return 0;
        }
        n = more(n, d);
    }
    if MOST_CUTOFF < n {
        return 0;
    }
    n
}

// A number with a digit more; what is above the greatest cutoff stays above it, whatever follows.
fn more(n: u64, d: u64) -> u64
    requires { (n ≤ 1000001) × (d ≤ 9) }
    ensures { result ≡ min (n * 10 + d) 1000001 }
{
    let next = n * 10 + d;
    if MOST_CUTOFF < next {
        return ABOVE;
    }
    next
}

// Lists the table's maximal chains in gauge order, the plain one. A proved loop has to end, and the number of ladders
// is bounded only by 64!: the loop makes up to a number of blocks that no run comes to; if one did, that is said.
fn list(rt: &impl Print, t: Table) -> Result<(), Stop> {
    let mut run = GaugeRun::start(t, GaugeOrder::plain(t.gauges), false).map_err(|_| Stop::Lost)?;
    let mut space = [0; 65536];
    for _ in 0..u64::MAX {
        let block = blocks::fill(run, &mut space).map_err(|_| Stop::Lost)?;
        let bytes = space.get(..block.used).ok_or(Stop::Lost)?;
        rt.write_all(bytes).map_err(cut_short)?;
        if block.over {
            return Ok(());
        }
        run = block.run;
    }
    Err(Stop::Lost)
}

// The last write failed: nobody reads any more, or it could not be made.
fn cut_short(error: io::Error) -> Stop {
    match error.kind() {
        ErrorKind::BrokenPipe => Stop::Closed,
        _ => Stop::Writing,
    }
}

// Says how it ended; what is no failure only where that was asked for. The library's contracts rule `Lost` out;
// should it happen all the same, it is said.
fn say_end(rt: &impl Eprint, ended: Result<(), Stop>, asked: bool) {
    let _ = match ended {
        Err(stop @ (Stop::Reading | Stop::Writing | Stop::Lost)) => eprintln!(rt;
            "ladders: {stop}"
        ),
        Err(stop) if asked => eprintln!(rt; "ladders: {stop}"),
        Ok(()) if asked => eprintln!(rt; "ladders: listed"),
        _ => Ok(()),
    };
}
