// Pair by pair (02, R-9): an order in which the pairs that a chain lacks of a ladder can be added one at a time, with a chain after each. The order is
// written to a lent buffer, two bytes a pair. Any table, any two chains and any buffer are taken: 10 to 14, 25 and 16 are refused in 02's order,
// and a refusal leaves the buffer as it was; no byte behind the order is touched. *Ladder* is 02's word for a maximal chain. A pair takes at
// most 65 * 64 steps on sets of cases: for each gauge, what the other rows leave to it.
#![tactic(auto)]

ghost use Rattle.std.specs.Prelude.{◌≡◌, [], ◌∷◌, ◌+◌, ◌*◌, ◌≤◌, ◌<◌, length, take};
ghost use Rattle.std.specs.Int.Count.{ones};
ghost use Rattle.std.proofs.lemmas.List.Edits.{sets as stored};
ghost use Rattle.table.specs.Tables.{chain_refusal};
ghost use Rattle.refusals.specs.Answers.{verdict};
ghost use Rattle.search.specs.Finding.{FirstOf};
ghost use Rattle.pair_orders.specs.Adding.{OrderClaims};
ghost use Rattle.pair_orders.specs.private.Growing.{beyond as beyond_own, FirstRow, pairs_in};
ghost use Rattle.wiring.specs.Wiring.{ordered, Wires};
ghost use Rattle.wiring.specs.private.Steps.{Checked, LadderChecked, includes, place_or, Waiting, NextPlace, Ready, StoresOrder};

use judge;
use refusals::Refusal;
use sets;
use table::{Case, Chain, Gauge, Table};

// A pair by its places, counted from 0: the row, and the bit in it.
#[derive(Clone, Copy)]
struct Place {
    pub row: usize,
    pub bit: u64,
}

// The places of a set of cases.
const PLACES: u64 = 64;

// Writes to the front of a buffer the pairs that `s` lacks of the ladder, each the first that can come next, and gives their number.
pub fn write_order(t: Table, s: Chain, ladder: Chain, out: &mut [u8]) -> Result<usize, Refusal>
    ensures wires { Wires t s ladder out.old (ordered result) out.new }
    ensures claims { OrderClaims }
{
    check(t, s, ladder)?;
    let goal = ladder.rows;
    let rows = s.rows;
    let n = t.gauges as usize;
    let count = pairs_in(&goal, n) - pairs_in(&rows, n);
    let size = 2 * count;
    if out.len() < size {
        return Err(Refusal::BufferTooShort);
    }
    put_order(out, &goal, rows, n, count);
    Ok(count)
}

// The checks ahead of the buffer: 10 to 14 for the chain, then those of the ladder.
fn check(t: Table, s: Chain, ladder: Chain) -> Result<(), Refusal>
    ensures { Checked t s ladder (verdict result) }
{
    let chain = judge::judge_chain(t, s)?;
    if !chain {
        return Err(Refusal::NotAChain);
    }
    check_ladder(t, s, ladder)
}

// The checks of the ladder: 12 and 13, then 25 where it is none or lacks a pair of `s`.
fn check_ladder(t: Table, s: Chain, ladder: Chain) -> Result<(), Refusal>
    requires { chain_refusal t s ≡ 0 }
    ensures { LadderChecked t s ladder (verdict result) }
{
    let maximal = judge::judge_maximal(t, ladder)?;
    if !maximal {
        return Err(Refusal::NotMaximal);
    }
    let outer = ladder.rows;
    let rows = s.rows;
    let n = t.gauges as usize;
    if contains(&outer, &rows, n) {
        return Ok(());
    }
    Err(Refusal::NotMaximal)
}

// Each of the first `n` rows is within that of `outer`.
// `n ≤ 64` stays a clause of three: `judge::widest`, which `next_row` calls, is public and takes an array of 64 rows with their number, so that slices here
// would be no plainer: each would be made beside the arrays.
fn contains(outer: &[u64; 64], rows: &[u64; 64], n: usize) -> bool
    requires { n ≤ 64 }
    ensures { result ≡ includes outer.now rows.now n }
{
    for i in 0..n {
        if !sets::subset(rows[i], outer[i]) {
            return false;
        }
    }
    true
}

// How many pairs the first `n` rows have.
fn pairs_in(rows: &[u64; 64], n: usize) -> usize
    requires { n ≤ 64 }
    ensures { (result ≡ pairs_in rows.now n) × (result ≤ 4096) }
{
    let mut total: usize = 0;
    for i in 0..n {
        total += case_count(rows[i]);
    }
    total
}

// How many cases a row has.
fn case_count(row: u64) -> usize
    ensures { (result ≡ ones row) × (result ≤ 64) }
{
    sets::count(row) as usize
}

// Writes the order from `chain` to `outer`, which has `count` pairs.
fn put_order(out: &mut [u8], outer: &[u64; 64], chain: [u64; 64], n: usize, count: usize)
    requires { Ready outer.now chain n (2 * count) out.old }
    ensures { StoresOrder (take n outer.now) (take n chain) out.old out.new }
{
    let mut rows = chain;
    for turn in 0..count {
        let next = next_pair(outer, &rows, n);
        let i = next.row;
        let k = next.bit;
        rows[i] = sets::with(rows[i], k);
        put_pair(out, 2 * turn, Gauge(i as u64 + 1), Case(k + 1));
    }
}

// Writes a pair, "gauge then case".
fn put_pair(out: &mut [u8], at: usize, g: Gauge, c: Case)
    requires { (at + 2 ≤ length out.old) × (g.0 < 256) × (c.0 < 256) }
    ensures { out.new ≡ stored out.old at (g.0 ∷ c.0 ∷ []) }
{
    out[at] = g.0 as u8;
    out[at + 1] = c.0 as u8;
}

// The pair that comes next: the first row that can take a case, and the lowest case that it can take.
fn next_pair(outer: &[u64; 64], rows: &[u64; 64], n: usize) -> Place
    requires { Waiting outer.now rows.now n }
    ensures { NextPlace outer.now rows.now n result.row result.bit }
{
    // a pair is missing, so that there is such a row, and a case for it
    let i = next_row(outer, rows, n).unwrap();
    let free = judge::widest(rows, outer[i], i, n);
    let k = lowest_beyond(free, rows[i]).unwrap();
    Place { row: i, bit: k }
}

// The first of the first `n` rows that can take a case.
fn next_row(outer: &[u64; 64], rows: &[u64; 64], n: usize) -> Option<usize>
    requires { n ≤ 64 }
    ensures { FirstRow outer.now rows.now n (place_or n result) }
{
    for i in 0..n {
        let wide = judge::widest(rows, outer[i], i, n);
        if !sets::subset(wide, rows[i]) {
            return Some(i);
        }
    }
    None
}

// The lowest place of `wide` that is not in `own`.
fn lowest_beyond(wide: u64, own: u64) -> Option<u64>
    ensures { FirstOf (beyond_own wide own) 0 64 (place_or 64 result) }
{
    for k in 0..PLACES {
        if beyond(wide, own, k) {
            return Some(k);
        }
    }
    None
}

// Whether place `k` is in `wide` and not in `own`.
fn beyond(wide: u64, own: u64, k: u64) -> bool
    ensures { result ≡ beyond_own wide own k }
{
    if !sets::has(wide, k) {
        return false;
    }
    !sets::has(own, k)
}
