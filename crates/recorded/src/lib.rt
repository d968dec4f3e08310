// Recorded tests with readings in microstrain, and the table that a cutoff gives (02, R-5): the check of a test handed in (10, 11, 20), its
// table at a cutoff (21 before all else), and whether two tests are equal (02, R-11), which no cutoff enters. No public function has a `requires`,
// and none is lent memory. Signed arithmetic is done in `magnitude` alone.
#![tactic(auto)]

ghost use Rattle.std.specs.Prelude.{◌≡◌, ◌↔◌, true, ◌<◌, nat_abs};
ghost use Rattle.sets.specs.Lists.{all_below, tabulate};
ghost use Rattle.table.specs.Pairs.{row as row_of};
ghost use Rattle.table.specs.Tables.{made};
ghost use Rattle.refusals.specs.Answers.{verdict};
ghost use Rattle.recorded.specs.Tests.{readable as readable_of, place_fits, fits_at, within_at, test_refusal};
ghost use Rattle.recorded.specs.Tests.{reaches as reaches_of, row_at, rows_at, table_at};
ghost use Rattle.recorded.specs.Cutoffs.{CutoffClaims};
ghost use Rattle.recorded.specs.Equality.{ComparedAs};

use refusals::Refusal;
use sets;
use table;
use table::Table;

// The greatest magnitude of a reading, and the greatest cutoff.
const MOST_READING: u64 = 1_000_000;

// A reading for each place of 64 rows of 64 cases.
const READINGS: usize = 4096;

// The rows of a test, and the places of a row.
const ROWS: usize = 64;

const PLACES: u64 = 64;

// The kind of a test's file: entries alone, or entries with readings.
#[derive(Clone, Copy, PartialEq, Eq)]
pub enum Kind {
    Pattern,
    Integer,
}

// A recorded test: its shape, its entries as rows of case bits, and a reading for each place, 0 where there is no entry. The reading of
// gauge g under case c is number (g - 1) * 64 + (c - 1). Arrays beside the shape, and no `Vec`: fixed memory, no heap, and C lends them as so many words.
#[derive(Clone, Copy, PartialEq, Eq)]
pub struct Test {
    pub kind: Kind,
    pub gauges: u64,
    pub cases: u64,
    pub entries: [u64; 64],
    pub readings: [i32; 4096],
}

// The check of a test handed in: 10, then 11, then 20.
#[tactic(auto, using(refusals::proofs::Answering::number_pos), unfolding(crate::specs::Tests::test_refusal))]
pub fn check_test(t: Test) -> Result<(), Refusal>
    ensures { verdict result ≡ test_refusal t }
{
    let kind = t.kind;
    let entries = t.entries;
    let readings = t.readings;
    let listed = Table {
        gauges: t.gauges,
        cases: t.cases,
        rows: entries,
    };
    table::check_table(listed)?;
    let rows = readable(kind, entries);
    if !readings_fit(&rows, &readings) {
        return Err(Refusal::TableRows);
    }
    if !readings_within(&readings) {
        return Err(Refusal::ReadingRange);
    }
    Ok(())
}

// The table of a test at a cutoff; 21, then 10, 11 and 20 are refused. Raising the cutoff never adds a pair.
#[tactic(auto, using(refusals::proofs::Answering::number_pos, crate::proofs::Cutoffs::cutoff_claims), unfolding(crate::specs::Tests::cutoff_refusal))]
pub fn table_at(t: Test, cutoff: u64) -> Result<Table, Refusal>
    ensures result_value { made result ≡ table_at t cutoff }
    ensures claims { verdict result ≡ 0 → CutoffClaims t cutoff (made result).value.rows }
{
    if !table::in_range(cutoff, MOST_READING) {
        return Err(Refusal::CutoffRange);
    }
    check_test(t)?;
    let kind = t.kind;
    let entries = t.entries;
    let readings = t.readings;
    let rows = rows_at(kind, entries, readings, cutoff);
    Ok(Table {
        gauges: t.gauges,
        cases: t.cases,
        rows,
    })
}

// Whether two tests are equal: of one kind and shape, with the same entries and the same readings; no cutoff enters. 10, 11 and 20 of the first test
// and then of the second are refused.
// No derived `==` stands for it: a test that is handed in is refused before it is compared.
pub fn equal_tests(a: Test, b: Test) -> Result<bool, Refusal>
    ensures { ComparedAs a b result }
{
    check_test(a)?;
    check_test(b)?;
    Ok(same_parts(a, b))
}

// How far a reading is from zero.
pub fn magnitude(v: i32) -> u64
    ensures { result ≡ nat_abs v }
{
    u64::from(v.unsigned_abs())
}

// The entries that may have a reading.
fn readable(kind: Kind, entries: [u64; 64]) -> [u64; 64]
    ensures { result ≡ readable_of kind entries }
{
    match kind {
        Kind::Pattern => [0u64; 64],
        Kind::Integer => entries,
    }
}

// No reading but zero where none may be.
#[tactic(auto, using(sets::proofs::Tabulated::all_none, sets::proofs::Tabulated::all_more, sets::proofs::Tabulated::all_fails, crate::proofs::Turns::fits_place))]
fn readings_fit(rows: &[u64; 64], readings: &[i32; 4096]) -> bool
    ensures { result ≡ all_below (fits_at rows.now readings.now) 4096 }
{
    for p in 0..READINGS {
        let i = p / 64;
        let k = (p % 64) as u64;
        if !place_fits(rows[i], k, readings[p]) {
            return false;
        }
    }
    true
}

// A reading at place `k` of a row: zero, or at an entry.
#[tactic(auto, unfolding(crate::specs::Tests::place_fits))]
fn place_fits(row: u64, k: u64, v: i32) -> bool
    ensures { result ≡ place_fits row k v }
{
    magnitude(v) == 0 || sets::has(row, k)
}

// Every reading from -1,000,000 to 1,000,000.
#[tactic(auto, using(sets::proofs::Tabulated::all_none, sets::proofs::Tabulated::all_more, sets::proofs::Tabulated::all_fails, crate::proofs::Turns::within_no, crate::proofs::Turns::within_yes))]
fn readings_within(readings: &[i32; 4096]) -> bool
    ensures { result ≡ all_below (within_at readings.now) 4096 }
{
    for p in 0..READINGS {
        if MOST_READING < magnitude(readings[p]) {
            return false;
        }
    }
    true
}

// The rows at a cutoff.
fn rows_at(kind: Kind, entries: [u64; 64], readings: [i32; 4096], cutoff: u64) -> [u64; 64]
    ensures { result ≡ rows_at kind entries readings cutoff }
{
    match kind {
        Kind::Pattern => entries,
        Kind::Integer => reaching_rows(&entries, &readings, cutoff),
    }
}

// The rows of the entries whose readings reach a cutoff.
fn reaching_rows(entries: &[u64; 64], readings: &[i32; 4096], cutoff: u64) -> [u64; 64]
    ensures { result ≡ tabulate (λ i. row_at cutoff (row_of entries.now i) readings.now i) 64 }
{
    let mut rows = [0u64; 64];
    for i in 0..ROWS {
        rows[i] = reaching_row(entries[i], readings, i, cutoff);
    }
    rows
}

// The entries of row `i` whose readings reach a cutoff.
fn reaching_row(row: u64, readings: &[i32; 4096], i: usize, cutoff: u64) -> u64
    requires { i < 64 }
    ensures { result ≡ row_at cutoff row readings.now i }
{
    let mut set: u64 = 0;
    for k in 0..PLACES {
        let p = i * 64 + k as usize;
        if reaches(row, k, readings[p], cutoff) {
            set += 1 << k;
        }
    }
    set
}

// Whether place `k` of a row is an entry whose reading reaches a cutoff.
#[tactic(auto, unfolding(crate::specs::Tests::reaches))]
fn reaches(row: u64, k: u64, v: i32, cutoff: u64) -> bool
    ensures { result ≡ reaches_of cutoff row k v }
{
    sets::has(row, k) && cutoff <= magnitude(v)
}

// Whether two tests are the same in every part. A listed zero is an entry, so the entries are compared too, and not the readings alone.
// One derived comparison, in a function of its own: a must-fail edit changes it, and its clause says it for whole tests.
fn same_parts(a: Test, b: Test) -> bool
    ensures { (result ≡ true) ↔ (a ≡ b) }
{
    a == b
}
