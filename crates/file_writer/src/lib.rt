// Writes a response table, or a recorded test, as a Matrix Market file to a lent buffer (01, "The file"; 02, R-5; refusals 10, 11, 20 and
// 16). A table goes the way of a pattern test: one way of counting and writing lines serves both kinds of file. The length is counted first, so
// that a refusal leaves the buffer as it was; no byte behind the file is touched. The public functions have no `requires`.
#![tactic(auto)]

ghost use Rattle.std.specs.Prelude.{◌≡◌, ◌+◌, ◌^◌, ◌≤◌, ◌<◌, nat_abs, length};
ghost use Rattle.table.specs.Tables.{Legal};
ghost use Rattle.recorded.specs.declared.Kind.TheVariants.{Integer as kind_integer};
ghost use Rattle.file_writer.specs.Writing.{digits, row_pairs, pair_text, written, room_answer, room_buffer, write_answer, buffer_after};
ghost use Rattle.file_writer.specs.TestFiles.{reading_text, value_at, entry_text, file_of, test_answer, test_buffer};
ghost use Rattle.file_writer.specs.private.StoreSteps.{Wrote, field_bytes, pair_bytes, entry_bytes, size_bytes, rows_from, banner_bytes, file_bytes};
ghost use Rattle.file_writer.specs.private.StoreSteps.{Room, Width, IsTotals, AllTotals, Suits, value_bytes, reading_bytes, pair_at, row_lines};

use recorded;
use recorded::{Kind, Test};
use refusals::Refusal;
use sets::Places;
use table::{Case, Gauge, Table};

// The digit 0; a digit's byte is this and its value.
const ZERO: u64 = 48;

// What is below it is a set of the cases of one digit, 1 to 9: 2 ^ 9.
const ONE_DIGIT: u64 = 512;

// The bytes of every file beside its numbers and entries: the banner's line, and two spaces and an LF in the size line.
const FIXED: u64 = 52;

// How many entries, and how many bytes their lines take.
#[derive(Clone, Copy)]
struct Totals {
    pub count: u64,
    pub size: u64,
}

// What a file says of its entries beside their pairs: its kind, and in an integer file their readings. It is lent, since a ghost field
// leaves no `Copy`.
#[derive(Drop)]
struct Entries<'a> {
    kind: Kind,
    readings: &'a [i32],
    ghost suits: { Suits kind readings.now },
}

// Writes a table to the front of a buffer and gives the length of its file.
#[tactic(auto, using(crate::proofs::Files::check_refused))]
pub fn write(t: Table, out: &mut [u8]) -> Result<usize, Refusal>
    ensures result_value { written result ≡ write_answer t (length out.old) }
    ensures buffer { out.new ≡ buffer_after t out.old }
{
    table::check_table(t)?;
    let none = [0i32; 1];
    let entries = Entries {
        kind: Kind::Pattern,
        readings: &none,
    };
    write_kind(out, t, &entries)
}

// Writes a recorded test to the front of a buffer, as a file of its kind, and gives the length of that; 10, 11, 20, then 16 are refused.
#[tactic(auto, using(crate::proofs::Files::check_refused))]
pub fn write_test(t: Test, out: &mut [u8]) -> Result<usize, Refusal>
    ensures result_value { written result ≡ test_answer t (length out.old) }
    ensures buffer { out.new ≡ test_buffer t out.old }
{
    recorded::check_test(t)?;
    let rows = t.entries;
    let readings = t.readings;
    let listed = Table {
        gauges: t.gauges,
        cases: t.cases,
        rows,
    };
    let entries = Entries {
        kind: t.kind,
        readings: &readings,
    };
    write_kind(out, listed, &entries)
}

// Writes a file of a kind, of entries that are the pairs of a table, where the buffer is long enough.
fn write_kind(out: &mut [u8], t: Table, entries: &Entries) -> Result<usize, Refusal>
    requires { Legal t }
    ensures result_value { written result ≡ room_answer 0 (file_of entries.now.kind entries.now.readings.now t) (length out.old) }
    ensures buffer { out.new ≡ room_buffer 0 (file_of entries.now.kind entries.now.readings.now t) out.old }
{
    let totals = all_totals(t, entries);
    let count = totals.count;
    let size = file_size(t, entries, totals);
    if (out.len() as u64) < size {
        return Err(Refusal::BufferTooShort);
    }
    let n = put_file(out, t, entries, count);
    Ok(n)
}

// The entries of a table, counted.
fn all_totals(t: Table, entries: &Entries) -> Totals
    requires { t.gauges ≤ 64 }
    ensures { AllTotals entries.now.kind entries.now.readings.now t result }
{
    let gauges = t.gauges;
    let rows = t.rows;
    let mut count: u64 = 0;
    let mut size: u64 = 0;
    for i in 0..gauges {
        let one = line_totals(Gauge(i + 1), rows[i as usize], entries);
        count += one.count;
        size += one.size;
    }
    Totals { count, size }
}

// The entries of a gauge, counted: the lines of its pairs, and in an integer file their readings.
// That a gauge or a case is one of 64 stands in each clause from here on: `Gauge` and `Case` are public types that take any number (01), and a private one
// with a ghost field would be no plainer, since it would be made anew from each of the 4,096 places and taken apart at each use.
fn line_totals(g: Gauge, row: u64, entries: &Entries) -> Totals
    requires { (1 ≤ g.0) × (g.0 ≤ 64) }
    ensures { IsTotals (entry_text entries.now.kind entries.now.readings.now) (row_pairs g 64 1 row) result }
{
    let pairs = row_totals(g, row);
    match entries.kind {
        Kind::Pattern => pairs,
        Kind::Integer => {
            let more = row_readings(g, row, entries.readings);
            Totals {
                count: pairs.count,
                size: pairs.size + more,
            }
        }
    }
}

// The pairs of a gauge, counted: a line has the digits of its gauge, two bytes beside the numbers, and two digits for its case, or one.
fn row_totals(g: Gauge, row: u64) -> Totals
    requires { g.0 ≤ 64 }
    ensures { IsTotals pair_text (row_pairs g 64 1 row) result }
{
    let width = number_width(g.0);
    let count = sets::count(row) as u64;
    let short = sets::count(row % ONE_DIGIT) as u64;
    Totals {
        count: count,
        size: count * (width + 4) - short,
    }
}

// The bytes of a gauge's readings, with the space ahead of each.
fn row_readings(g: Gauge, row: u64, readings: &[i32]) -> u64
    requires { (1 ≤ g.0) × (g.0 ≤ 64) × Suits kind_integer readings.now }
    ensures { result ≡ value_bytes readings.now (row_pairs g 64 1 row) }
{
    let mut size: u64 = 0;
    for k in Places(row) {
        let v = reading_at(readings, g, Case(k as u64 + 1));
        size = size + 1 + reading_width(v);
    }
    size
}

// The reading of gauge `g` under case `c`.
fn reading_at(readings: &[i32], g: Gauge, c: Case) -> i32
    requires { (1 ≤ g.0) × (g.0 ≤ 64) × (1 ≤ c.0) × (c.0 ≤ 64) × (length readings.now ≡ 4096) }
    ensures { result ≡ value_at readings.now (pair_at g c) }
{
    let place = (g.0 - 1) * 64 + (c.0 - 1);
    readings[place as usize]
}

// The bytes of a reading: the digits of its magnitude, and a sign where it is negative.
fn reading_width(v: i32) -> u64
    requires { nat_abs v ≤ 1000000 }
    ensures { result ≡ length (reading_text v) }
{
    let width = number_width(recorded::magnitude(v));
    if v < 0 {
        return width + 1;
    }
    width
}

// The digits of a number. That it has at most 9 stands in three clauses: a type for such numbers would be made anew at each call, and be no plainer.
fn number_width(n: u64) -> u64
    requires { n < 10 ^ 9 }
    ensures { Width n result }
{
    if n < 10 {
        return 1;
    }
    number_width(n / 10) + 1
}

// The length of the file of a kind with its totals.
fn file_size(t: Table, entries: &Entries, totals: Totals) -> u64
    requires { Legal t × AllTotals entries.now.kind entries.now.readings.now t totals }
    ensures { result ≡ length (file_of entries.now.kind entries.now.readings.now t) }
{
    let gauges = t.gauges;
    let cases = t.cases;
    let count = totals.count;
    FIXED + number_width(gauges) + number_width(cases) + number_width(count) + totals.size
}

// Writes the file of a kind with its count of entries.
fn put_file(out: &mut [u8], t: Table, entries: &Entries, count: u64) -> usize
    requires { (t.gauges ≤ 64) × (t.cases ≤ 64) × (count < 10000) × Room out.old 0 (file_bytes entries.now.kind entries.now.readings.now t count) }
    ensures { Wrote out.old 0 (file_bytes entries.now.kind entries.now.readings.now t count) out.new result }
{
    let gauges = t.gauges;
    let cases = t.cases;
    let rows = t.rows;
    let p = put_banner(out, entries.kind);
    let q = put_size(out, p, Gauge(gauges), Case(cases), count);
    put_rows(out, q, rows, Gauge(gauges), entries)
}

// Writes the banner of a kind.
fn put_banner(out: &mut [u8], kind: Kind) -> usize
    requires { Room out.old 0 (banner_bytes kind) }
    ensures { Wrote out.old 0 (banner_bytes kind) out.new result }
{
    match kind {
        Kind::Pattern => put_bytes(
            out,
            0,
            b"%%MatrixMarket matrix coordinate pattern general\n",
        ),
        Kind::Integer => put_bytes(
            out,
            0,
            b"%%MatrixMarket matrix coordinate integer general\n",
        ),
    }
}

// Writes bytes.
fn put_bytes(out: &mut [u8], at: usize, bytes: &[u8]) -> usize
    requires { Room out.old at bytes.now }
    ensures { Wrote out.old at bytes.now out.new result }
{
    let end = at + bytes.len();
    out[at..end].copy_from_slice(bytes);
    end
}

// Writes the size line, of the last gauge, the last case and the number of pairs.
fn put_size(out: &mut [u8], at: usize, gauges: Gauge, cases: Case, count: u64) -> usize
    requires { (gauges.0 ≤ 64) × (cases.0 ≤ 64) × (count < 10000) × Room out.old at (size_bytes gauges cases count) }
    ensures { Wrote out.old at (size_bytes gauges cases count) out.new result }
{
    let p = put_place(out, at, gauges.0, b' ');
    let q = put_place(out, p, cases.0, b' ');
    put_field(out, q, count, b'\n')
}

// Writes the entries of the gauges up to the last.
fn put_rows(out: &mut [u8], at: usize, rows: [u64; 64], gauges: Gauge, entries: &Entries) -> usize
    requires { (gauges.0 ≤ 64) × Room out.old at (rows_from entries.now.kind entries.now.readings.now gauges rows 0) }
    ensures { Wrote out.old at (rows_from entries.now.kind entries.now.readings.now gauges rows 0) out.new result }
{
    let most = gauges.0;
    let mut p = at;
    for i in 0..most {
        p = put_row(out, p, Gauge(i + 1), rows[i as usize], entries);
    }
    p
}

// Writes the entries of a gauge: the cases of its row, from the lowest on.
// `own` says what `entries` says. It is a value of this function, so its kind is looked at once a row; behind the loan it would be at each case.
fn put_row(out: &mut [u8], at: usize, g: Gauge, row: u64, entries: &Entries) -> usize
    requires { (1 ≤ g.0) × (g.0 ≤ 64) × Room out.old at (row_lines entries.now.kind entries.now.readings.now g row) }
    ensures { Wrote out.old at (row_lines entries.now.kind entries.now.readings.now g row) out.new result }
{
    let own = Entries {
        kind: entries.kind,
        readings: entries.readings,
    };
    let mut p = at;
    for k in Places(row) {
        p = put_entry(out, p, g, Case(k as u64 + 1), &own);
    }
    p
}

// Writes the line of an entry.
fn put_entry(out: &mut [u8], at: usize, g: Gauge, c: Case, entries: &Entries) -> usize
    requires { (1 ≤ g.0) × (g.0 ≤ 64) × (1 ≤ c.0) × (c.0 ≤ 64) × Room out.old at (entry_bytes entries.now.kind entries.now.readings.now g c) }
    ensures { Wrote out.old at (entry_bytes entries.now.kind entries.now.readings.now g c) out.new result }
{
    match entries.kind {
        Kind::Pattern => put_pair(out, at, g, c, b'\n'),
        Kind::Integer => {
            let p = put_pair(out, at, g, c, b' ');
            put_reading(out, p, reading_at(entries.readings, g, c))
        }
    }
}

// Writes a pair, and the space or LF behind it.
fn put_pair(out: &mut [u8], at: usize, g: Gauge, c: Case, end: u8) -> usize
    requires { (g.0 ≤ 64) × (c.0 ≤ 64) × Room out.old at (pair_bytes g c end) }
    ensures { Wrote out.old at (pair_bytes g c end) out.new result }
{
    let p = put_place(out, at, g.0, b' ');
    put_place(out, p, c.0, end)
}

// Writes a reading, a sign where it is negative and then its magnitude, and the LF behind it.
fn put_reading(out: &mut [u8], at: usize, v: i32) -> usize
    requires { (nat_abs v ≤ 1000000) × Room out.old at (reading_bytes v) }
    ensures { Wrote out.old at (reading_bytes v) out.new result }
{
    let size = recorded::magnitude(v);
    if v < 0 {
        out[at] = b'-';
        return put_field(out, at + 1, size, b'\n');
    }
    put_field(out, at, size, b'\n')
}

// Writes a number of one digit or two, and the space or LF behind it.
fn put_place(out: &mut [u8], at: usize, n: u64, end: u8) -> usize
    requires { (n < 100) × Room out.old at (field_bytes n end) }
    ensures { Wrote out.old at (field_bytes n end) out.new result }
{
    if n < 10 {
        out[at] = (ZERO + n) as u8;
        out[at + 1] = end;
        return at + 2;
    }
    out[at] = (ZERO + n / 10) as u8;
    out[at + 1] = (ZERO + n % 10) as u8;
    out[at + 2] = end;
    at + 3
}

// Writes a number, and the space or LF behind it.
fn put_field(out: &mut [u8], at: usize, n: u64, end: u8) -> usize
    requires { (n < 10 ^ 9) × Room out.old at (field_bytes n end) }
    ensures { Wrote out.old at (field_bytes n end) out.new result }
{
    let q = put_number(out, at, n);
    out[q] = end;
    q + 1
}

// Writes a number in decimal, and gives the place behind it.
fn put_number(out: &mut [u8], at: usize, n: u64) -> usize
    requires { (n < 10 ^ 9) × Room out.old at (digits n) }
    ensures { Wrote out.old at (digits n) out.new result }
{
    if n < 10 {
        out[at] = (ZERO + n) as u8;
        return at + 1;
    }
    let p = put_number(out, at, n / 10);
    out[p] = (ZERO + n % 10) as u8;
    p + 1
}
