// Reading and writing files of pairs, finding the line that decides and looking up comments, on lent words and bytes: what the C library's entries of these
// names do. Any slices are taken: a slice of words shorter than its layout is refused with 100 before anything else, and a refusal leaves all lent memory
// as it was. No function has a `requires`.
#![tactic(auto)]

ghost use Rattle.std.specs.Prelude.{◌≡◌};
ghost use Rattle.file_writer.specs.Writing.{written as written_as};
ghost use Rattle.c_files.specs.Serving.{Reads, Locates, ShowsComment, WritesTable};

use file_reader;
use file_writer;
use refusals::Refusal;
use words;
use words::{SHORT, TABLE};

// The words of a comment's place, and of a length or a line's number.
const SPAN: usize = 2;

const LENGTH: usize = 1;

// Puts the table that a file of pairs holds into `table`.
pub fn read(file: &[u8], table: &mut [u64]) -> u64
    ensures { Reads file.now table.old table.new result }
{
    if table.len() < TABLE {
        return SHORT;
    }
    match file_reader::read(file) {
        Err(why) => why.number(),
        Ok(t) => {
            words::put_table(table, 0, t);
            0
        }
    }
}

// Puts into `line` the number of the line that decides, from 1, for the reader of files of pairs where `either` is 0, else for the one with a cutoff, which
// takes either kind: one past the last line's where the end of the file decides, 0 where the file is accepted or longer than 65,536.
pub fn locate(file: &[u8], either: u64, line: &mut [u64]) -> u64
    ensures { Locates file.now either line.old line.new result }
{
    if line.len() < LENGTH {
        return SHORT;
    }
    let n = file_reader::locate(file, either != 0);
    words::put_word(line, 0, n);
    0
}

// Puts into `span` where comment line `k` of a file of either kind starts, and its length.
pub fn comment(file: &[u8], k: u64, span: &mut [u64]) -> u64
    ensures { ShowsComment file.now k span.old span.new result }
{
    if span.len() < SPAN {
        return SHORT;
    }
    match file_reader::comment_at(file, k) {
        Err(why) => why.number(),
        Ok(found) => {
            words::put_word(span, 0, found.start as u64);
            words::put_word(span, 1, found.len as u64);
            0
        }
    }
}

// Writes the table to the front of `bytes` as a file of pairs, and its length to `length`.
pub fn write(table: &[u64], bytes: &mut [u8], length: &mut [u64]) -> u64
    ensures { WritesTable table.now bytes.old length.old bytes.new length.new result }
{
    if table.len() < TABLE {
        return SHORT;
    }
    if length.len() < LENGTH {
        return SHORT;
    }
    let t = words::table_at(table, 0);
    let written = file_writer::write(t, bytes);
    let n = written_number(written);
    if n != 0 {
        return n;
    }
    words::put_word(length, 0, written_length(written));
    0
}

// The number of the refusal that the writer's answer is, else 0. Both this and `written_length` are public, and `c_recorded` rests on their clauses: so
// they stay, and no `match` in `write` takes their place.
pub fn written_number(written: Result<usize, Refusal>) -> u64
    ensures { result ≡ (written_as written).refusal }
{
    words::verdict_number(written.and(Ok(())))
}

// The length of the file that was written, or 0.
pub fn written_length(written: Result<usize, Refusal>) -> u64
    ensures { result ≡ (written_as written).value }
{
    match written {
        Err(_) => 0,
        Ok(n) => n as u64,
    }
}
