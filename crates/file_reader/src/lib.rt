// Reads a Matrix Market file that is lent as bytes, tells which line decides, and looks up comment lines (01, "The
// file"; 02, R-5; refusals 1 to 9, 17, 20 and 21): a file of pairs to its table, or a file of either kind to the
// recorded test and its table at a cutoff. The first failing line decides; what one line says is in `kinds`, and one
// loop goes through the lines of either kind. No public function has a `requires`, and none changes lent memory. The
// time is linear in the file. What is promised is said by the lines of the file, in specs/Promises.antt; the private
// steps go by specs/private.
#![tactic(auto)]

ghost use Rattle.std.specs.Prelude.{◌≡◌, ◌≤◌, ◌+◌, length, drop};
ghost use Rattle.table.specs.Tables.{no_rows, made};
ghost use Rattle.recorded.specs.Tests.{no_readings};
ghost use Rattle.file_text.specs.Lines.{lines};
ghost use Rattle.file_reader.specs.private.Reading.{refused_file, with_case, read_entries, read_head, read_recorded};
ghost use Rattle.file_reader.specs.Promises.{TableOfFile, TestOfFile, recording, LineOfFile, CommentOfFile, ShownComment};
ghost use Rattle.file_reader.specs.Comments.{found, comment_from};
ghost use Rattle.file_reader.specs.private.Gathering.{Gathers};
ghost use Rattle.file_reader.specs.private.Stopping.{stop_entries, stop_head, stop_line};

use file_kinds::{EntryLine, HeadLine};
use recorded::{Kind, Test};
use refusals::Refusal;
use table;
use table::{Case, Gauge, Table};

// 01: "a file at most 65,536" bytes.
const MOST_FILE: usize = 65536;

// 02: "a cutoff from 1 to 1,000,000".
const MOST_CUTOFF: u64 = 1_000_000;

// A recorded test and its table at a cutoff.
#[derive(Clone, Copy, PartialEq, Eq)]
pub struct Recording {
    pub test: Test,
    pub table: Table,
}

// Where a comment line is in the file.
#[derive(Clone, Copy, Debug, PartialEq, Eq)]
pub struct Found {
    pub start: usize,
    pub len: usize,
}

// What a file's banner and size line say: its kind, the last gauge, the last case and the number of entries.
#[derive(Clone, Copy)]
struct Shape {
    kind: Kind,
    gauges: Gauge,
    cases: Case,
    count: u64,
}

// Why a file is refused, and the number of the line that failed.
#[derive(Clone, Copy)]
struct Failed {
    pub why: Refusal,
    pub line: u64,
}

impl From<Failed> for Refusal {
    ghost from_gives = { λ failed why. why ≡ failed.why };

    fn from(failed: Failed) -> Refusal {
        failed.why
    }
}

// The table that a file of pairs holds, or its refusal. An integer file is refused with 2.
pub fn read(file: &[u8]) -> Result<Table, Refusal>
    ensures { TableOfFile file.now (made result) }
{
    let test = read_recorded(file, false)?;
    let rows = test.entries;
    Ok(Table {
        gauges: test.gauges,
        cases: test.cases,
        rows,
    })
}

// The test that a file of either kind holds, with its table at a cutoff; 21, or the file's refusal.
pub fn read_test(file: &[u8], cutoff: u64) -> Result<Recording, Refusal>
    ensures { TestOfFile file.now cutoff (recording result) }
{
    if !table::in_range(cutoff, MOST_CUTOFF) {
        return Err(Refusal::CutoffRange);
    }
    let test = read_recorded(file, true)?;
    // a test that was read is legal and the cutoff is in range, so that nothing is refused
    let table = recorded::table_at(test, cutoff).unwrap();
    Ok(Recording { test, table })
}

// The number of the line that decides, from 1, for the reader with a cutoff, which takes integer files too, or for
// 01's; one past the last line's where the end of the file decides; 0 where the file is accepted, or longer than
// 65,536. It takes as long as reading does.
pub fn locate(file: &[u8], integers: bool) -> u64
    ensures { LineOfFile integers file.now result }
{
    match read_recorded(file, integers) {
        Ok(_) => 0,
        Err(failed) => failed.line,
    }
}

// The `k`-th comment line of a file, from 1, without its end; the empty part where `comment_at` refuses. No comment
// is empty.
pub fn comment(file: &[u8], k: u64) -> &[u8]
    ensures { ShownComment file.entry k result }
{
    let Ok(place) = comment_at(file, k) else {
        return &file[..0];
    };
    &file[place.start..place.start + place.len]
}

// Where the `k`-th comment line of a file is, or the refusal of the reader of either kind, or 17.
pub fn comment_at(file: &[u8], k: u64) -> Result<Found, Refusal>
    ensures { CommentOfFile file.now k (found result) }
{
    read_recorded(file, true)?;
    let span = file_text::line_at(file, 0);
    find_comment(file, span.next, k)
}

// A file whose first line is the banner of a file of pairs or, where `integers` says so, of an integer file.
fn read_recorded(file: &[u8], integers: bool) -> Result<Test, Failed>
    ensures { Gathers (read_recorded integers file.now) (stop_line integers file.now) result }
{
    if MOST_FILE < file.len() {
        return refuse(Refusal::FileTooLong, 0);
    }
    let start = 0;
    let span = file_text::line_at(file, start);
    let end = span.end;
    let next = span.next;
    let Some(kind) = file_kinds::first_line(&file[start..end], integers) else {
        return refuse(Refusal::NotTheBanner, 1);
    };
    read_head(file, next, kind, 2)
}

// The lines from a place on, of which the size line is still to come; `number` is the number of the line there.
fn read_head(file: &[u8], from: usize, kind: Kind, number: u64) -> Result<Test, Failed>
    requires { (length file.now ≤ 65536) × (number ≤ from + 2) }
    ensures { Gathers (read_head kind (lines (drop from file.now))) (stop_head kind number (lines (drop from file.now))) result }
{
    let mut at = from;
    let mut line = number;
    // By the place and not by an iterator: `line_at` gives a line's end and where the next one starts, so that an iterator would be these lines once more.
    while at < file.len() {
        let span = file_text::line_at(file, at);
        let end = span.end;
        let next = span.next;
        let head = file_kinds::head_line(&file[at..end]);
        match head {
            HeadLine::Skip => {
                line += 1;
                at = next;
            }
            HeadLine::Bad(why) => {
                return refuse(why, line);
            }
            HeadLine::Size(gauges, cases, count) => {
                let shape = Shape {
                    kind,
                    gauges,
                    cases,
                    count,
                };
                return read_entries(file, next, shape, line + 1);
            }
        }
    }
    refuse(Refusal::SizeFields, line)
}

// The entry lines of a file of a shape from a place on; `number` is the number of the line there.
fn read_entries(file: &[u8], from: usize, shape: Shape, number: u64) -> Result<Test, Failed>
    requires { (shape.gauges.0 ≤ 64) × (shape.cases.0 ≤ 64) × (length file.now ≤ 65536) × (number ≤ from + 2) }
    ensures { Gathers (read_entries shape.kind shape.gauges shape.cases shape.count no_rows no_readings (lines (drop from file.now)))
        (stop_entries shape.kind shape.gauges shape.cases shape.count no_rows number (lines (drop from file.now))) result }
{
    let mut rows = [0u64; 64];
    let mut values = [0i32; 4096];
    let mut left = shape.count;
    let mut at = from;
    let mut line = number;
    // By the place and not by an iterator: `line_at` gives a line's end and where the next one starts, so that an iterator would be these lines once more.
    while at < file.len() {
        let span = file_text::line_at(file, at);
        let end = span.end;
        let next = span.next;
        let entry = file_kinds::entry_line(&file[at..end], shape.kind, shape.gauges, shape.cases);
        match entry {
            EntryLine::Skip => {
                line += 1;
                at = next;
            }
            EntryLine::Bad(why) => {
                return refuse(why, line);
            }
            EntryLine::Entry(g, c, v) => {
                let i = (g.0 - 1) as usize;
                let k = (c.0 - 1) as usize;
                let row = rows[i];
                if sets::has(row, c.0 - 1) {
                    return refuse(Refusal::PairRepeated, line);
                }
                if left == 0 {
                    return refuse(Refusal::PairCount, line);
                }
                rows[i] = with_case(row, c);
                let p = i * 64 + k;
                values[p] = v;
                left -= 1;
                line += 1;
                at = next;
            }
        }
    }
    if left != 0 {
        return refuse(Refusal::PairCount, line);
    }
    Ok(Test {
        kind: shape.kind,
        gauges: shape.gauges.0,
        cases: shape.cases.0,
        entries: rows,
        readings: values,
    })
}

// The row with the bit of a case (01: "bit c-1").
fn with_case(row: u64, c: Case) -> u64
    requires { (1 ≤ c.0) × (c.0 ≤ 64) }
    ensures { result ≡ with_case row c }
{
    row | (1u64 << (c.0 - 1))
}

// A refusal, with the line that failed.
fn refuse(why: Refusal, line: u64) -> Result<Test, Failed>
    ensures { Gathers (refused_file why) line result }
{
    Err(Failed { why, line })
}

// The `k`-th comment line from a place on.
fn find_comment(file: &[u8], from: usize, k: u64) -> Result<Found, Refusal>
    ensures { found result ≡ comment_from k from (lines (drop from file.now)) }
{
    let mut at = from;
    let mut left = k;
    // By the place and not by an iterator: `line_at` gives a line's end and where the next one starts, so that an iterator would be these lines once more.
    while at < file.len() {
        let span = file_text::line_at(file, at);
        let end = span.end;
        let next = span.next;
        if file_kinds::is_comment(&file[at..end]) {
            if 1 < left {
                left -= 1;
                at = next;
            } else {
                if left == 1 {
                    return Ok(Found {
                        start: at,
                        len: end - at,
                    });
                }
                return Err(Refusal::NoSuchComment);
            }
        } else {
            at = next;
        }
    }
    Err(Refusal::NoSuchComment)
}
