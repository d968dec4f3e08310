// The core's calls on a side of a table, written once for both sides: the case run has the table's rows turned, and a
// run that omits its essential pairs, by the rows of its side. What a call gives on a paused run is in paused.rt, and a
// batch in batches.rt; below are ordered.rt, the core's call under an order, and
// listing.rt, its batch.
ghost use Rattle.std.specs.Prelude.{◌≡◌, true, List, ℕ};
ghost use Rattle.table.specs.Tables.{Legal};
ghost use Rattle.runs.specs.Paused.{mode_phase};
ghost use Rattle.runs.specs.Sides.{side_of};
ghost use Rattle.runs.specs.private.Working.{Works};
ghost use Rattle.runs.specs.private.Sided.{table_of, Wants, WantsWhere, CallsSide, ListsSide};

use crate::engine::Report;
use crate::listing::Tally;
use crate::work::{Asked, Walk, Work};
use crate::{listing, ordered};
use essentials;
use refusals::Refusal;
use table::{Side, Table};
use transpose;

// The table of a run, which passed the checks, and whether the run omits.
#[derive(Drop)]
pub struct Checked<'a> {
    pub table: &'a Table,
    pub omit: bool,
    ghost legal: { Legal table.now },
}

// A run call on the side `S` of the table. The walk has then the chain of the picks after the moves, by the rows of the side, and the picks of the next
// value. The essential pairs are looked for only where the run omits. That is not inlined: then this
// one is small, becomes part of both sides' calls, and a run that omits nothing copies no row.
pub fn call<S: Side>(
    on: &Checked,
    order: &[u8; 64],
    walk: &mut Walk,
    asked: Asked,
) -> Result<Report, Refusal>
    ensures { CallsSide S.CASES on.now.table.now on.now.omit order.now walk.old.picks asked.count (mode_phase asked.mode) asked.budget
        walk.new.chain walk.new.picks result }
{
    let n = side_count::<S>(on.table.gauges, on.table.cases) as usize;
    let gauges = on.table.gauges as usize;
    if on.omit {
        return call_omitting::<S>(on, n, order, walk, asked);
    }
    if S::CASES {
        let own = side_rows::<S>(on);
        let by_cases = Work {
            rows: &own,
            n,
            wanted: None,
            turned: true,
            gauges,
        };
        return ordered::call(&by_cases, order, walk, asked);
    }
    let own = &on.table.rows;
    let by_gauges = Work {
        rows: own,
        n,
        wanted: None,
        turned: false,
        gauges,
    };
    ordered::call(&by_gauges, order, walk, asked)
}

// The same of a run that omits, on the `n` rows of the side.
#[inline(never)]
fn call_omitting<S: Side>(
    on: &Checked,
    n: usize,
    order: &[u8; 64],
    walk: &mut Walk,
    asked: Asked,
) -> Result<Report, Refusal>
    requires { (on.now.omit ≡ true) × (n ≡ (side_of S.CASES on.now.table.now).count) }
    ensures { CallsSide S.CASES on.now.table.now on.now.omit order.now walk.old.picks asked.count (mode_phase asked.mode) asked.budget
        walk.new.chain walk.new.picks result }
{
    let own = side_rows::<S>(on);
    let essential = wanted_rows::<S>(on);
    let wanted = Some(&essential);
    let turned = S::CASES;
    let work = Work {
        rows: &own,
        n,
        wanted,
        turned,
        gauges: on.table.gauges as usize,
    };
    ordered::call(&work, order, walk, asked)
}

// A batch on the side `S`.
pub fn list<S: Side>(
    on: &Checked,
    order: &[u8; 64],
    picks: &mut [u8; 64],
    asked: Asked,
    out: &mut [u64],
) -> Result<Tally, Refusal>
    ensures { ListsSide S.CASES on.now.table.now on.now.omit order.now picks.old asked.count (mode_phase asked.mode) asked.budget
        out.old picks.new out.new result }
{
    let n = side_count::<S>(on.table.gauges, on.table.cases) as usize;
    let own = side_rows::<S>(on);
    let pairs = wanted_where::<S>(on);
    let wanted = pairs.as_ref();
    let work = Work {
        rows: &own,
        n,
        wanted,
        turned: S::CASES,
        gauges: on.table.gauges as usize,
    };
    listing::call(&work, order, picks, asked, out)
}

// How many rows the side has.
pub fn side_count<S: Side>(gauges: u64, cases: u64) -> u64
    ensures { (rows : List ℕ) → result ≡ (side_of S.CASES (table_of gauges cases rows)).count }
{
    if S::CASES {
        return cases;
    }
    gauges
}

// The rows of the side: the table's own, or turned.
fn side_rows<S: Side>(on: &Checked) -> [u64; 64]
    ensures { Works (side_of S.CASES on.now.table.now) (side_of S.CASES on.now.table.now).count result }
{
    let table = on.table;
    if S::CASES {
        return transpose::transposed(&table.rows, table.gauges as usize, table.cases as usize);
    }
    table.rows
}

// The essential pairs of the table by the rows of the side, where the run omits.
fn wanted_where<S: Side>(on: &Checked) -> Option<[u64; 64]>
    ensures { WantsWhere on.now.omit on.now.table.now (side_of S.CASES on.now.table.now) result }
{
    if on.omit {
        return Some(wanted_rows::<S>(on));
    }
    None
}

// The essential pairs of the table by the rows of the side.
fn wanted_rows<S: Side>(on: &Checked) -> [u64; 64]
    ensures { Wants on.now.table.now (side_of S.CASES on.now.table.now) result }
{
    let table = on.table;
    // the table is legal, so that nothing is refused
    let found = essentials::essential_rows(*table).unwrap().rows;
    if S::CASES {
        return transpose::transposed(&found, table.gauges as usize, table.cases as usize);
    }
    found
}
