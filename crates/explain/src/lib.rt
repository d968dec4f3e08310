// Ladders that explain themselves (02, R-6): why a pair of the table is not in the ladder that a paused run has handed
// out. A ladder is a maximal chain. The run is of either side, `Gauge` or `Case`; a side looks for the first of its picks
// that lacks the pair's other number, on its own rows: where the sides part is which number is the pair's own, and what
// the rows are. Any paused value and any numbers are taken: 10, 11, 27, 15, 19 and 22 are refused, and nothing is lent.
// The pick sequence itself is in the answer of a run call, crate `runs`.
#![tactic(auto)]

ghost use Rattle.std.specs.Prelude.{◌≡◌};
ghost use Rattle.table.specs.Tables.{Legal};
ghost use Rattle.refusals.specs.Answers.{verdict};
ghost use Rattle.conflicts.specs.Tests.{has_pair};
ghost use Rattle.runs.specs.Paused.{value_of};
ghost use Rattle.runs.specs.Sides.{side_of};
ghost use Rattle.explain.specs.Reasons.{question_of, Explained, HasReasons, reason_of};
ghost use Rattle.explain.specs.private.Asking.{own_of, AsksAt, RowsOf, Numbered, found_in, Tells};

use refusals::Refusal;
use runs::Run;
use sets;
use table::{Case, Gauge, Side, Table};
use transpose;

// Why the pair of gauge `g` and case `c` is not in the ladder of the run `p`, whose phase is Handed: of a gauge run the
// first picked gauge whose table row lacks the case, of a case run the first picked case that the pair's gauge does not
// respond under. It comes before the pair's own number among the picks, if that was picked.
pub fn explain<S: Side>(p: Run<S>, g: Gauge, c: Case) -> Result<S, Refusal>
    ensures explained { Explained (side_of S.CASES) (question_of S.CASES) (value_of S.number p) g.0 c.0 (reason_of S.number result) }
    ensures reasons { HasReasons (side_of S.CASES) (question_of S.CASES) (value_of S.number p) }
{
    check(p, g, c)?;
    let rows = side_rows::<S>(p.table);
    let picks = p.picks.numbers;
    let own = own_number::<S>(g.0, c.0);
    let other = own_number::<S>(c.0, g.0);
    match first_lacking(&rows, &picks, p.count as usize, own, other - 1) {
        Some(found) => Ok(S::from_number(found)),
        // no pick lacks it, so the pair is in the ladder
        None => Err(Refusal::PairInChain),
    }
}

// The checks before the picks are looked at: those of the value, whose phase is Handed, and 19.
fn check<S: Side>(p: Run<S>, g: Gauge, c: Case) -> Result<(), Refusal>
    ensures { AsksAt (side_of S.CASES) (value_of S.number p) (has_pair p.table.rows g.0 c.0) (verdict result) }
{
    p.check_handed()?;
    if !p.table.has(g, c) {
        return Err(Refusal::PairAbsent);
    }
    Ok(())
}

// The rows that a side's picks are made from.
fn side_rows<S: Side>(t: Table) -> [u64; 64]
    ensures { Legal t → RowsOf (side_of S.CASES t) result }
{
    let given = t.rows;
    if S::CASES {
        return transpose::transposed(&given, t.gauges as usize, t.cases as usize);
    }
    given
}

// The number of a pair that belongs to the side: its gauge or its case.
fn own_number<S: Side>(gauge: u64, case: u64) -> u64
    ensures { result ≡ own_of S.CASES gauge case }
{
    if S::CASES { case } else { gauge }
}

// The first of the first `count` picks whose row lacks place `k`, by number; none where the pick `own` comes first, or
// the last has gone by.
fn first_lacking(rows: &[u64; 64], picks: &[u8; 64], count: usize, own: u64, k: u64) -> Option<u64>
    requires { Numbered picks.now count }
    ensures { Tells (found_in rows.now k picks.now count own) result }
{
    for i in 0..count {
        let x = u64::from(picks[i]);
        if x == own {
            return None;
        }
        let at = (x - 1) as usize;
        if !sets::has(rows[at], k) {
            return Some(x);
        }
    }
    None
}
