// Response tables and chains as values: the types, making a table, and the checks of a table and of a chain handed in (01, refusals 10
// to 13), which answer `Ok` or the refusal. No public function has a `requires`. Refusals are in `refusals`, exchanged sides in `transpose`.
#![tactic(auto)]

ghost use Rattle.std.specs.Prelude.{◌≡◌, ◌↔◌, Bool, true, false, ℕ, ◌≤◌, ◌<◌, ◌==◌, bit_and, min, length};
ghost use Rattle.std.specs.List.{list_all, zip};
ghost use Rattle.table.specs.Pairs.{row as row_of, Has};
ghost use Rattle.table.specs.Unions.{union_of};
ghost use Rattle.table.specs.Tables.{in_range, rows_fit, table_refusal, rows_within, chain_refusal, make_table, blank_table, blank_chain, made};
ghost use Rattle.refusals.specs.Answers.{verdict};

use refusals::Refusal;
use sets;

// A gauge's number, from 1. A gauge number never stands where a case number belongs (01): the two node classes of source 003. So gauges and
// cases are two types of one shape; what holds of either side is written once, over `Side`.
#[derive(Clone, Copy, Debug, PartialEq, Eq)]
pub struct Gauge(pub u64);

// A load case's number, from 1.
#[derive(Clone, Copy, Debug, PartialEq, Eq)]
pub struct Case(pub u64);

// A side of a table: its gauges or its cases. Which one it is stands as a constant, so that what is proved of a mark serves either side, and a
// branch on it is gone once the code is made for a side.
pub trait Side: Copy {
    ghost CASES: { Bool };

    // Whether it is the side of the cases.
    const CASES: bool;

    ghost number: { Self → ℕ };

    fn from_number(n: u64) -> Self
        ensures { number result ≡ n };

    fn number(self) -> u64
        ensures { result ≡ number self };
}

impl Side for Gauge {
    ghost CASES = { false };

    const CASES: bool = false;

    ghost number = { λ g. g.0 };

    fn from_number(n: u64) -> Gauge {
        Gauge(n)
    }

    fn number(self) -> u64 {
        let Gauge(n) = self;
        n
    }
}

impl Side for Case {
    ghost CASES = { true };

    const CASES: bool = true;

    ghost number = { λ c. c.0 };

    fn from_number(n: u64) -> Case {
        Case(n)
    }

    fn number(self) -> u64 {
        let Case(n) = self;
        n
    }
}

// A response table: its gauges, its cases, and a row of case bits for each gauge; rows past the last gauge are zero. Its rows are no `Vec`:
// a table and a chain each hold their 64 rows as one value (01), nothing here uses a heap, and C lends them as so many words.
#[derive(Clone, Copy, Debug, PartialEq, Eq)]
pub struct Table {
    pub gauges: u64,
    pub cases: u64,
    pub rows: [u64; 64],
}

// A set of pairs of a table, by gauge rows; its row count is the table's number of gauges. It holds 64 rows for the same reason as a table.
#[derive(Clone, Copy, Debug, PartialEq, Eq)]
pub struct Chain {
    pub gauges: u64,
    pub rows: [u64; 64],
}

// The rows that a table holds, one for each gauge that it can have.
const ROWS: usize = Table::MOST_GAUGES as usize;

impl Table {
    // The greatest G and L (01: they "belong to the table type").
    pub const MOST_GAUGES: u64 = 64;

    pub const MOST_CASES: u64 = 64;

    // A table from its rows; 10 and 11 are refused.
    pub fn from_rows(gauges: u64, cases: u64, rows: [u64; 64]) -> Result<Table, Refusal>
        ensures { made result ≡ make_table gauges cases rows }
    {
        check_rows(gauges, cases, &rows)?;
        Ok(Table {
            gauges,
            cases,
            rows,
        })
    }

    // Whether gauge `g` responds under case `c`, as the rows say; other numbers than 1 to 64 name no pair.
    pub fn has(self, g: Gauge, c: Case) -> bool
        ensures { (result ≡ true) ↔ Has self.rows g.0 c.0 }
    {
        if !in_range(g.0, Table::MOST_GAUGES) {
            return false;
        }
        if c.0 < 1 {
            return false;
        }
        let row = self.rows[(g.0 - 1) as usize];
        sets::has(row, c.0 - 1)
    }
}

// The check of a table handed in: 10, then 11.
pub fn check_table(t: Table) -> Result<(), Refusal>
    ensures { verdict result ≡ table_refusal t }
{
    check_rows(t.gauges, t.cases, &t.rows)
}

// The check of what a table is made of.
#[tactic(auto, unfolding(crate::specs::Tables::table_refusal))]
fn check_rows(gauges: u64, cases: u64, rows: &[u64; 64]) -> Result<(), Refusal>
    ensures { verdict result ≡ table_refusal record { gauges = gauges; cases = cases; rows = rows.now } }
{
    if !in_range(gauges, Table::MOST_GAUGES) {
        return Err(Refusal::TableShape);
    }
    if !in_range(cases, Table::MOST_CASES) {
        return Err(Refusal::TableShape);
    }
    if !rows_fit(rows, gauges, cases) {
        return Err(Refusal::TableRows);
    }
    Ok(())
}

// The check of a chain after its table: 10, 11, then 12, then 13.
#[tactic(auto, using(refusals::proofs::Answering::number_pos), unfolding(crate::specs::Tables::chain_refusal))]
pub fn check_chain(t: Table, s: Chain) -> Result<(), Refusal>
    ensures { verdict result ≡ chain_refusal t s }
{
    check_table(t)?;
    if s.gauges != t.gauges {
        return Err(Refusal::ChainCount);
    }
    if !rows_within(&t.rows, &s.rows) {
        return Err(Refusal::ChainPairs);
    }
    Ok(())
}

// The table and the chain that stand for none.
pub fn blank_table() -> Table
    ensures { result ≡ blank_table }
{
    let empty = [0; 64];
    Table {
        gauges: 0,
        cases: 0,
        rows: empty,
    }
}

pub fn blank_chain() -> Chain
    ensures { result ≡ blank_chain }
{
    let none = [0; 64];
    Chain {
        gauges: 0,
        rows: none,
    }
}

// A number from 1 to `most`.
pub fn in_range(n: u64, most: u64) -> bool
    ensures { result ≡ in_range most n }
{
    (1..=most).contains(&n)
}

// Whether two arrays have the same rows. Of 64 rows each they are then the same (`rows_same` in proofs/Agreement.antt). The comparison is
// the derived one; the function stays, since it is public and its clause says what a caller may rest on.
pub fn same_rows(a: &[u64; 64], b: &[u64; 64]) -> bool
    ensures { (result ≡ true) ↔ ((i : ℕ) → i < 64 → row_of a.now i ≡ row_of b.now i) }
{
    a == b
}

// The cases of the rows from `from` up to, not with, `to`, at most 64.
pub fn union_of(rows: &[u64; 64], from: usize, to: usize) -> u64
    ensures { result ≡ union_of rows.now from to }
{
    let mut seen = 0;
    for i in from..at_most_rows(to) {
        seen |= rows[i];
    }
    seen
}

// `n`, or 64 where it is larger.
pub fn at_most_rows(n: usize) -> usize
    ensures { result ≡ min n 64 }
{
    n.min(ROWS)
}

// No bit past the last case, and no row past the last gauge: two unions of rows, with no branch for each row.
fn rows_fit(rows: &[u64; 64], gauges: u64, cases: u64) -> bool
    requires { (gauges ≤ 64) × (cases ≤ 64) × (length rows.now ≡ 64) }
    ensures { result ≡ rows_fit gauges cases rows.now }
{
    let g = gauges as usize;
    let used = union_of(rows, 0, g);
    let rest = union_of(rows, g, ROWS);
    if !sets::subset(used, sets::lowest(cases)) {
        return false;
    }
    rest == 0
}

// Every pair of `rows` is in `outer`.
fn rows_within(outer: &[u64; 64], rows: &[u64; 64]) -> bool
    ensures { result ≡ rows_within outer.now rows.now }
{
    each_within(outer, rows)
}

// The same, as the chain reads.
fn each_within(outer: &[u64; 64], rows: &[u64; 64]) -> bool
    ensures { result ≡ list_all (λ p. bit_and p.1 p.0 == p.1) (zip outer.now rows.now) }
{
    outer.iter().zip(rows).all(|(most, row)| row & most == *row)
}
