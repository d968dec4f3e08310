// The two judges: whether a set of pairs is a chain of its table, and whether it is a maximal chain (01: a ladder). Each takes any
// table and any chain, however malformed, and refuses 10 to 13 in 01's order. At most 64 * 64 steps on sets of cases. Beside them, for the second
// and for others: how wide a row of a chain can be.
#![tactic(auto)]

ghost use Rattle.std.specs.Prelude.{◌≡◌, ◌≤◌, length};
ghost use Rattle.std.specs.List.{list_all};
ghost use Rattle.table.specs.Chains.{IsChain, IsMaximal};
ghost use Rattle.table.specs.Tables.{table_rows, chain_rows, chain_refusal};
ghost use Rattle.judge.specs.Judging.{Judged};
ghost use Rattle.judge.specs.WidestRows.{narrowed as narrowed_to, widest_of};
ghost use Rattle.judge.specs.private.RowTests.{nested as is_nested, all_nested, all_widest};

use refusals::Refusal;
use sets;
use table;
use table::{Chain, Table};

// The rows that a table and a chain hold.
const ROWS: usize = Table::MOST_GAUGES as usize;

// Whether `s` is a chain of `t`.
pub fn judge_chain(t: Table, s: Chain) -> Result<bool, Refusal>
    ensures { Judged (chain_refusal t s) (IsChain (chain_rows s)) result }
{
    table::check_chain(t, s)?;
    let pairs = s.rows;
    let n = s.gauges as usize;
    Ok(all_nested(&pairs[..n]))
}

// Whether `s` is a maximal chain of `t`.
pub fn judge_maximal(t: Table, s: Chain) -> Result<bool, Refusal>
    ensures { Judged (chain_refusal t s) (IsMaximal (table_rows t) (chain_rows s)) result }
{
    table::check_chain(t, s)?;
    let outer = t.rows;
    let rows = s.rows;
    let n = s.gauges as usize;
    if !all_nested(&rows[..n]) {
        return Ok(false);
    }
    Ok(all_widest(&outer, &rows, n))
}

// The widest that row `i` can be within `most`, among the first `n` rows; `most` where there is no row `i`, or not `n` rows.
pub fn widest(rows: &[u64; 64], most: u64, i: usize, n: usize) -> u64
    ensures { result ≡ widest_of rows.now most i n }
{
    if ROWS <= i {
        return most;
    }
    if ROWS < n {
        return most;
    }
    let own = rows[i];
    let mut wide = most;
    for j in 0..n {
        wide = narrowed(wide, own, rows[j]);
    }
    wide
}

// Any two of the rows are nested.
fn all_nested(rows: &[u64]) -> bool
    ensures { result ≡ all_nested rows.now (length rows.now) }
{
    rows.iter().all(|&own| nested_with(own, rows))
}

// A set is nested with each of the rows.
fn nested_with(own: u64, rows: &[u64]) -> bool
    ensures { result ≡ list_all (is_nested own) rows.now }
{
    rows.iter().all(|&other| nested(own, other))
}

// One of two sets includes the other.
fn nested(a: u64, b: u64) -> bool
    ensures { result ≡ is_nested a b }
{
    sets::subset(a, b) || sets::subset(b, a)
}

// Each of the first `n` rows is the widest that the table and the rows above it allow.
fn all_widest(outer: &[u64; 64], rows: &[u64; 64], n: usize) -> bool
    requires { n ≤ 64 }
    ensures { result ≡ all_widest outer.now rows.now n }
{
    for i in 0..n {
        let most = widest(rows, outer[i], i, n);
        if most != rows[i] {
            return false;
        }
    }
    true
}

// `wide` narrowed to `other` where that strictly contains `own`.
fn narrowed(wide: u64, own: u64, other: u64) -> u64
    ensures { result ≡ narrowed_to wide own other }
{
    if !sets::subset(own, other) {
        return wide;
    }
    if own == other {
        return wide;
    }
    wide & other
}
