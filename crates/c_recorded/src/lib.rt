// Recorded tests on lent words, readings and bytes: what the C library's entries of these names do. A test is lent as two slices, its kind, shape and
// entries in words and its readings beside them. Any slices are taken: one shorter than its layout is refused with 100 before anything else, and a
// refusal leaves all lent memory as it was. No function has a `requires`.
#![tactic(auto)]

ghost use Rattle.std.specs.Prelude.{◌≡◌, true, cond, ◌↔◌, set};
ghost use Rattle.recorded.specs.Tests.{reading};
ghost use Rattle.words.specs.Layouts.{Put};
ghost use Rattle.c_recorded.specs.Layouts.{is_kind, kind_of, kind_word, readings_at, readings_beside, test_at, test_words};
ghost use Rattle.c_recorded.specs.private.Putting.{PutReadings};
ghost use Rattle.c_recorded.specs.Serving.{ShortTest, ReadsTest, WritesTest, Equals};

use c_files;
use file_reader;
use file_writer;
use recorded;
use recorded::{Kind, Test};
use words;
use words::{SHORT, TABLE};

// The words of a test, its readings, and the words of a length or an answer.
const TEST: usize = 67;

const READINGS: usize = 4096;

const ONE: usize = 1;

// Where a test has its rows.
const AT_ROWS: u32 = 3;

// Puts the test that a file of either kind holds into `test` and `readings`, and its table at a cutoff into `table`.
pub fn read_test(
    file: &[u8],
    cutoff: u64,
    test: &mut [u64],
    readings: &mut [i32],
    table: &mut [u64],
) -> u64
    ensures { ReadsTest file.now cutoff test.old readings.old table.old test.new
        readings.new table.new result }
{
    if test.len() < TEST {
        return SHORT;
    }
    if readings.len() < READINGS {
        return SHORT;
    }
    if table.len() < TABLE {
        return SHORT;
    }
    match file_reader::read_test(file, cutoff) {
        Err(why) => why.number(),
        Ok(recording) => {
            let t = recording.test;
            put_test(test, t);
            put_readings(readings, t.readings);
            words::put_table(table, 0, recording.table);
            0
        }
    }
}

// Writes the test to the front of `bytes` as a file of its kind, and its length to `length`.
pub fn write_test(test: &[u64], readings: &[i32], bytes: &mut [u8], length: &mut [u64]) -> u64
    ensures { WritesTest test.now readings.now bytes.old length.old bytes.new
        length.new result }
{
    if too_short(test, readings) {
        return SHORT;
    }
    if length.len() < ONE {
        return SHORT;
    }
    let t = test_at(test, readings);
    let written = file_writer::write_test(t, bytes);
    let n = c_files::written_number(written);
    if n != 0 {
        return n;
    }
    words::put_word(length, 0, c_files::written_length(written));
    0
}

// Whether two tests are equal, 1 or 0, into `answer`: what the C library's entry of this name does on slices, where no derived `==` applies.
pub fn equal(
    test: &[u64],
    readings: &[i32],
    other: &[u64],
    values: &[i32],
    answer: &mut [u64],
) -> u64
    ensures { Equals test.now readings.now other.now values.now answer.old
        answer.new result }
{
    if too_short(test, readings) {
        return SHORT;
    }
    if too_short(other, values) {
        return SHORT;
    }
    if answer.len() < ONE {
        return SHORT;
    }
    let a = test_at(test, readings);
    let b = test_at(other, values);
    match recorded::equal_tests(a, b) {
        Err(why) => why.number(),
        Ok(same) => {
            words::put_word(answer, 0, yes_no(same));
            0
        }
    }
}

// Whether the slices of a test are shorter than their layouts.
fn too_short(w: &[u64], v: &[i32]) -> bool
    ensures { (result ≡ true) ↔ ShortTest w.now v.now }
{
    if w.len() < TEST {
        return true;
    }
    v.len() < READINGS
}

// The test in the words of a slice and the readings of another.
fn test_at(w: &[u64], v: &[i32]) -> Test
    ensures { result ≡ test_at w.now v.now }
{
    let word = words::word_at(w, 0);
    let gauges = words::word_at(w, 1);
    let cases = words::word_at(w, 2);
    let entries = words::rows_at(w, AT_ROWS);
    let readings = readings_beside(word, v);
    Test {
        kind: kind_of(word),
        gauges: gauges,
        cases: cases,
        entries: entries,
        readings: readings,
    }
}

// The readings of a slice beside the word of a kind; beside a word that is none, a reading that no pattern test may have.
fn readings_beside(word: u64, v: &[i32]) -> [i32; 4096]
    ensures { result ≡ readings_beside word v.now }
{
    if is_kind(word) {
        return readings_at(v);
    }
    let mut stray = [0i32; 4096];
    stray[0] = 1;
    stray
}

// The first 4,096 readings of a slice.
fn readings_at(v: &[i32]) -> [i32; 4096]
    ensures { result ≡ readings_at v.now }
{
    let mut readings = [0i32; 4096];
    for i in 0..READINGS {
        readings[i] = reading_at(v, i);
    }
    readings
}

// The reading at a place.
fn reading_at(v: &[i32], at: usize) -> i32
    ensures { result ≡ reading v.now at }
{
    if v.len() <= at {
        return 0;
    }
    v[at]
}

// Puts the words of a test over the front of a slice.
fn put_test(out: &mut [u64], t: Test)
    ensures { Put out.old 0 (test_words t) out.new }
{
    let kind = t.kind;
    let entries = t.entries;
    words::put_word(out, 0, kind_word(kind));
    words::put_word(out, 1, t.gauges);
    words::put_word(out, 2, t.cases);
    words::put_rows(out, AT_ROWS, entries);
}

// Puts readings over the front of a slice.
fn put_readings(out: &mut [i32], readings: [i32; 4096])
    ensures { PutReadings out.old readings out.new }
{
    for i in 0..READINGS {
        let v = readings[i];
        put_reading(out, i, v);
    }
}

// Puts a reading at a place. `words::put_word` does it with words: one function over both would be generic over a number, and want `Default` for a place
// behind the end, for two lines.
fn put_reading(out: &mut [i32], at: usize, v: i32)
    ensures { out.new ≡ set out.old at v }
{
    if out.len() <= at {
        return;
    }
    out[at] = v;
}

// Whether a word is that of a kind: 1 for entries alone, 2 for entries with readings.
fn is_kind(word: u64) -> bool
    ensures { result ≡ is_kind word }
{
    if word == 1 {
        return true;
    }
    word == 2
}

fn kind_of(word: u64) -> Kind
    ensures { result ≡ kind_of word }
{
    if word == 2 {
        return Kind::Integer;
    }
    Kind::Pattern
}

fn kind_word(kind: Kind) -> u64
    ensures { result ≡ kind_word kind }
{
    match kind {
        Kind::Pattern => 1,
        Kind::Integer => 2,
    }
}

fn yes_no(b: bool) -> u64
    ensures { result ≡ cond b 1 0 }
{
    if b {
        return 1;
    }
    0
}
