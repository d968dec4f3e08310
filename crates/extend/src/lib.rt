// Extending a chain of a table to the first maximal chain, in gauge order under a preference, that contains it (01: "Growing"; 02, R-12). Any table,
// order and chain are taken, however malformed; 10, 11, 27 and 12 to 14 are refused in this order, in place of a chain.
// No maximal chains are listed: each turn picks the lowest candidate that still leaves room for the rest of the chain, at most 64 turns of at
// most 64 * 64 steps, on the rows as the order has them.
#![tactic(auto)]

ghost use Rattle.std.specs.Prelude.{◌≡◌, ◌≤◌, ◌<◌};
ghost use Rattle.table.specs.Chains.{IsChain};
ghost use Rattle.table.specs.Tables.{chain_rows};
ghost use Rattle.table.proofs.Legality.{ChainFacts};
ghost use Rattle.preference.specs.Preferences.{order_of};
ghost use Rattle.extend.specs.Extending.{extended, grow_refusal, FirstRows, Extends};
ghost use Rattle.extend.specs.private.FirstByNumber.{FirstByNumber};
ghost use Rattle.extend.specs.private.PickSteps.{fits_in, FirstPlace};

use judge;
use preference;
use preference::GaugeOrder;
use refusals::Refusal;
use search;
use sets;
use table;
use table::{Chain, Table};

// The first maximal chain of `t` that contains `s`, by an order of the gauges.
pub fn extend_chain(t: Table, order: GaugeOrder, s: Chain) -> Result<Chain, Refusal>
    ensures { Extends t order.numbers s (extended result) }
{
    let numbers = order.numbers;
    preference::check(t, t.gauges, numbers)?;
    if !judge::judge_chain(t, s)? {
        return Err(Refusal::NotAChain);
    }
    let rows = first_by_place(t, numbers, s);
    Ok(Chain {
        gauges: t.gauges,
        rows,
    })
}

// The rows of the first maximal chain by place: the first by number of the rows as the order has them, and back.
fn first_by_place(t: Table, numbers: [u8; 64], s: Chain) -> [u64; 64]
    requires { (grow_refusal t numbers s ≡ 0) × IsChain (chain_rows s) }
    ensures { FirstRows t (order_of t.gauges numbers) s result }
{
    let n = t.gauges as usize;
    let given = t.rows;
    let rows = preference::gather(&given, &numbers, n);
    let arranged = Table {
        gauges: t.gauges,
        cases: t.cases,
        rows,
    };
    let part = s.rows;
    let asked = preference::gather(&part, &numbers, n);
    let chain = Chain {
        gauges: t.gauges,
        rows: asked,
    };
    let first = first_rows(arranged, chain);
    // the preference was checked, so that each number has a place
    let places = preference::place_all(numbers, n).unwrap();
    preference::gather(&first, &places, n)
}

// The rows of the first maximal chain, by number, that contains `s`. `owed` has the rows of `s` whose gauges are still to be picked: a pick whose
// remainder does not contain them all would leave a pair of `s` out.
fn first_rows(t: Table, s: Chain) -> [u64; 64]
    requires { ChainFacts t s × IsChain (chain_rows s) }
    ensures { FirstByNumber t s result }
{
    let n = t.gauges as usize;
    let outer = t.rows;
    let mut unpicked = sets::lowest(t.gauges);
    let mut owed = s.rows;
    let mut left = sets::lowest(Table::MOST_CASES);
    let mut rows = [0u64; 64];
    for _turn in 0..n {
        let all_owed = table::union_of(&owed, 0, n);
        let Some(g) = next_fitting(&outer, unpicked, left, n, all_owed) else {
            return rows;
        };
        left = outer[g] & left;
        rows[g] = left;
        unpicked = sets::without(unpicked, g as u64);
        owed[g] = 0;
    }
    rows
}

// The lowest place of a gauge that fits, of the first `n`.
fn next_fitting(rows: &[u64; 64], unpicked: u64, left: u64, n: usize, owed: u64) -> Option<usize>
    requires { n ≤ 64 }
    ensures { FirstPlace (fits_in rows.now unpicked left owed) n result }
{
    for g in 0..n {
        if fits(rows, unpicked, left, owed, g) {
            return Some(g);
        }
    }
    None
}

// Whether the gauge at place `g` is a candidate whose remainder contains `owed`.
fn fits(rows: &[u64; 64], unpicked: u64, left: u64, owed: u64, g: usize) -> bool
    requires { g < 64 }
    ensures { result ≡ fits_in rows.now unpicked left owed g }
{
    if !sets::subset(owed, rows[g] & left) {
        return false;
    }
    search::is_candidate_of(rows, unpicked, left, g)
}
