// Conflicts and essential pairs of a table (02, R-2: rivals and deciding pairs): the conflicts of a pair, whether a
// pair is essential, and all essential pairs at once. Any table and any numbers are taken; 10, 11 and then 19 are
// refused, and nothing is lent. Two pairs' conflicts are compared by one union of
// rows for each pair (specs/private/Unions.antt), kept in a store: at most 64 * 64 * 64 steps on sets for the store
// and as many for a pair's comparisons; for all pairs at most 64 * 64 * 64 * 64 of a few operations each, and no more
// than there are pairs with at least the same conflicts.
#![tactic(auto)]

ghost use Rattle.std.specs.Prelude.{◌≡◌, ◌↔◌, true, ◌+◌, ◌≤◌, ◌<◌};
ghost use Rattle.table.specs.Tables.{table_rows, table_refusal};
ghost use Rattle.refusals.specs.Answers.{verdict};
ghost use Rattle.judge.specs.Judging.{Judged};
ghost use Rattle.conflicts.specs.Conflicts.{Essential};
ghost use Rattle.conflicts.specs.Covers.{ConflictClaims};
ghost use Rattle.essentials.specs.Answers.{pair_refusal, found_pairs, GivesConflicts, GivesEssentials};
ghost use Rattle.essentials.specs.private.Unions.{without, conflict_row, conflict_rows, joined, against, includes};
ghost use Rattle.essentials.specs.private.Unions.{Stored, Ready, Placed, EssentialRow, OutdoneIn, Outdone};

use refusals::Refusal;
use sets;
use sets::Places;
use table;
use table::{Case, Gauge, Table};

// A set of a table's pairs, by gauge rows; in general no chain.
#[derive(Clone, Copy, Debug, PartialEq, Eq)]
pub struct PairSet {
    pub rows: [u64; 64],
}

// A table's rows, of which the first `n` are its gauges'.
#[derive(Clone, Copy)]
struct GaugeRows<'a> {
    rows: &'a [u64; 64],
    n: usize,
    ghost few: { n ≤ 64 },
}

// The same with the store of their unions, lent: it is not to be copied.
#[derive(Clone, Copy)]
struct PairUnions<'a> {
    rows: &'a [u64; 64],
    n: usize,
    store: &'a [u64; 4096],
    ghost ready: { Ready rows.now n store.now },
}

// The places of a set of cases.
const PLACES: usize = 64;

// The conflicts of the pair of gauge `g` and case `c`.
pub fn conflicts_of(t: Table, g: Gauge, c: Case) -> Result<PairSet, Refusal>
    ensures gives_conflicts { GivesConflicts t g.0 c.0 (found_pairs result) }
    ensures claims { table_refusal t ≡ 0 → ConflictClaims (table_rows t) }
{
    check_pair(t, g, c)?; // 10, 11, then 19
    let outer = t.rows;
    let i = (g.0 - 1) as usize;
    let rows = conflict_rows(&outer, i, c.0 - 1);
    Ok(PairSet { rows })
}

// Whether the pair of gauge `g` and case `c` is essential.
pub fn is_essential(t: Table, g: Gauge, c: Case) -> Result<bool, Refusal>
    ensures judged { Judged (pair_refusal t g.0 c.0) (Essential (table_rows t) g.0 c.0) result }
    ensures claims { table_refusal t ≡ 0 → ConflictClaims (table_rows t) }
{
    check_pair(t, g, c)?;
    let rows = t.rows;
    let n = t.gauges as usize;
    let table = GaugeRows { rows: &rows, n };
    let mut store = [0u64; 4096];
    table.unions(&mut store);
    let pairs = PairUnions {
        rows: &rows,
        n,
        store: &store,
    };
    let i = (g.0 - 1) as usize;
    Ok(!pairs.outdone(i, c.0 - 1))
}

// All essential pairs of a table.
pub fn essential_rows(t: Table) -> Result<PairSet, Refusal>
    ensures { GivesEssentials t (found_pairs result) }
{
    table::check_table(t)?;
    let rows = t.rows;
    let n = t.gauges as usize;
    let table = GaugeRows { rows: &rows, n };
    let mut store = [0u64; 4096];
    table.unions(&mut store);
    let pairs = PairUnions {
        rows: &rows,
        n,
        store: &store,
    };
    let mut found = [0u64; 64];
    for i in 0..n {
        found[i] = pairs.essential_row(i);
    }
    Ok(PairSet { rows: found })
}

// The check of a pair named, after its table: 10, 11, then 19.
fn check_pair(table: Table, g: Gauge, c: Case) -> Result<(), Refusal>
    ensures { verdict result ≡ pair_refusal table g.0 c.0 }
{
    table::check_table(table)?;
    if !table.has(g, c) {
        return Err(Refusal::PairAbsent);
    }
    Ok(())
}

// The conflicts of place `k` of row `g`, row by row.
fn conflict_rows(rows: &[u64; 64], g: usize, k: u64) -> [u64; 64]
    requires { g < 64 }
    ensures { result ≡ conflict_rows rows.now g k }
{
    let own = rows[g];
    let mut found = [0u64; 64];
    for i in 0..PLACES {
        found[i] = conflict_row(rows[i], own, k);
    }
    found
}

// What a row has of the conflicts of place `k` of the row `own`.
fn conflict_row(row: u64, own: u64, k: u64) -> u64
    ensures { result ≡ conflict_row row own k }
{
    if sets::has(row, k) {
        return 0;
    }
    minus(row, own)
}

// The cases of `a` that are not in `b`.
fn minus(a: u64, b: u64) -> u64
    ensures { result ≡ without a b }
{
    a - (a & b)
}

impl GaugeRows<'_> {
    // The unions of all pairs of the first `n` rows: that of place `k` of row `i` is at 64 * i + k. The store is lent, since one that is handed back is copied,
    // which costs as much as the rest of a small table.
    fn unions(self, store: &mut [u64; 4096])
        ensures { Stored self.entry.rows.now self.entry.n self.entry.n store.new }
    {
        for i in 0..self.n {
            self.store_row(store, i);
        }
    }

    // Stores the unions of the pairs of row `i`.
    fn store_row(self, store: &mut [u64; 4096], i: usize)
        requires { (i < 64) × Stored self.rows.now self.n i store.old }
        ensures { Stored self.entry.rows.now self.entry.n (i + 1) store.new }
    {
        let own = self.rows[i];
        for k in Places(own) {
            store[i * 64 + k] = self.union_against(own, k as u64);
        }
    }

    // The union of the first `n` rows that have a conflict of place `k` of the row `own`.
    fn union_against(self, own: u64, k: u64) -> u64
        ensures { result ≡ against self.entry.rows.now own k self.entry.n }
    {
        let mut seen: u64 = 0;
        for i in 0..self.n {
            seen = join_row(seen, self.rows[i], own, k);
        }
        seen
    }
}

// `seen` with the row, where this has a conflict of place `k` of the row `own`.
fn join_row(seen: u64, row: u64, own: u64, k: u64) -> u64
    ensures { result ≡ joined seen row own k }
{
    if sets::has(row, k) {
        return seen;
    }
    if sets::subset(row, own) {
        return seen;
    }
    seen | row
}

impl PairUnions<'_> {
    // The essential pairs of row `g`.
    fn essential_row(self, g: usize) -> u64
        requires { g < self.n }
        ensures { EssentialRow self.entry.rows.now g result }
    {
        let own = self.rows[g];
        let mut kept = own;
        for k in Places(own) {
            if self.outdone(g, k as u64) {
                kept = sets::without(kept, k as u64);
            }
        }
        kept
    }

    // Whether some pair's conflicts strictly contain those of place `k` of row `g`.
    fn outdone(self, g: usize, k: u64) -> bool
        requires { Placed self.rows.now self.n g k }
        ensures { (result ≡ true) ↔ Outdone self.entry.rows.now g k }
    {
        for h in 0..self.n {
            if self.outdone_in(g, k, h) {
                return true;
            }
        }
        false
    }

    // Whether those of some pair of row `h` do.
    fn outdone_in(self, g: usize, k: u64, h: usize) -> bool
        requires { Placed self.rows.now self.n g k × (h < self.n) }
        ensures { (result ≡ true) ↔ OutdoneIn self.entry.rows.now g k h }
    {
        let own = self.rows[g];
        let other = self.rows[h];
        let j = k as usize;
        let union = self.store[g * 64 + j];
        if !sets::subset(union & other, own) {
            return false;
        }
        let places = minus(other, union);
        for d in Places(places) {
            if !included(self.store[h * 64 + d], k, own, other) {
                return true;
            }
        }
        false
    }
}

// Whether the conflicts of place `k` of the row `outer` include those of a pair of the row `inner` whose union is
// `union`.
fn included(union: u64, k: u64, outer: u64, inner: u64) -> bool
    ensures { result ≡ includes union k outer inner }
{
    if sets::has(union, k) {
        return false;
    }
    sets::subset(union & outer, inner)
}
