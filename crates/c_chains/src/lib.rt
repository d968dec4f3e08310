// Judging and growing chains, rivals and deciding pairs, on lent words: what the C library's entries of these names do. Any slices are taken: a slice
// shorter than its layout is refused with 100 before anything else, and a refusal leaves every word as it was. No function has a `requires`.
#![tactic(auto)]

ghost use Rattle.std.specs.Prelude.{◌≡◌};
ghost use Rattle.table.specs.declared.Table.{Table};
ghost use Rattle.table.specs.declared.Chain.{Chain};
ghost use Rattle.table.specs.Chains.{IsChain, IsMaximal};
ghost use Rattle.table.specs.Tables.{table_rows, chain_rows};
ghost use Rattle.c_chains.specs.Serving.{yes_no, Judges, Grows, Conflicts, Decides, ClaimsConflicts};

use essentials;
use extend;
use judge;
use preference::GaugeOrder;
use table::{Case, Gauge};
use words;
use words::{CHAIN, ORDER, SHORT, TABLE};

// The words of a set of pairs, and of a yes or no.
const PAIRS: usize = 64;

const ANSWER: usize = 1;

// Whether the chain is a chain of the table.
pub fn judge_chain(table: &[u64], chain: &[u64], answer: &mut [u64]) -> u64
    ensures { Judges (λ (t : Table) (s : Chain). IsChain (chain_rows s)) table.now chain.now answer.old
        answer.new result }
{
    if table.len() < TABLE {
        return SHORT;
    }
    if chain.len() < CHAIN {
        return SHORT;
    }
    if answer.len() < ANSWER {
        return SHORT;
    }
    let t = words::table_at(table, 0);
    let s = words::chain_at(chain, 0);
    match judge::judge_chain(t, s) {
        Err(why) => why.number(),
        Ok(yes) => {
            words::put_word(answer, 0, yes_no(yes));
            0
        }
    }
}

// Whether the chain is a maximal chain (01: a ladder) of the table.
pub fn judge_ladder(table: &[u64], chain: &[u64], answer: &mut [u64]) -> u64
    ensures { Judges (λ (t : Table) (s : Chain). IsMaximal (table_rows t) (chain_rows s)) table.now chain.now answer.old
        answer.new result }
{
    if table.len() < TABLE {
        return SHORT;
    }
    if chain.len() < CHAIN {
        return SHORT;
    }
    if answer.len() < ANSWER {
        return SHORT;
    }
    let t = words::table_at(table, 0);
    let s = words::chain_at(chain, 0);
    match judge::judge_maximal(t, s) {
        Err(why) => why.number(),
        Ok(yes) => {
            words::put_word(answer, 0, yes_no(yes));
            0
        }
    }
}

// The first maximal chain of the table, by an order of its gauges, that contains the chain.
pub fn grow(table: &[u64], order: &[u64], chain: &[u64], out: &mut [u64]) -> u64
    ensures { Grows table.now order.now chain.now out.old out.new result }
{
    if table.len() < TABLE {
        return SHORT;
    }
    if order.len() < ORDER {
        return SHORT;
    }
    if chain.len() < CHAIN {
        return SHORT;
    }
    if out.len() < CHAIN {
        return SHORT;
    }
    let t = words::table_at(table, 0);
    let preferred = GaugeOrder::new(words::numbers_at(order, 0));
    let s = words::chain_at(chain, 0);
    match extend::extend_chain(t, preferred, s) {
        Ok(made) => {
            words::put_chain(out, 0, made);
            0
        }
        Err(why) => why.number(),
    }
}

// The rivals of a pair of the table, by gauge rows.
pub fn rivals(table: &[u64], gauge: u64, case: u64, pairs: &mut [u64]) -> u64
    ensures conflicts { Conflicts table.now gauge case pairs.old pairs.new result }
    ensures claims { ClaimsConflicts table.now }
{
    if table.len() < TABLE {
        return SHORT;
    }
    if pairs.len() < PAIRS {
        return SHORT;
    }
    let t = words::table_at(table, 0);
    match essentials::conflicts_of(t, Gauge(gauge), Case(case)) {
        Err(why) => why.number(),
        Ok(found) => {
            let rows = found.rows;
            words::put_rows(pairs, 0, rows);
            0
        }
    }
}

// Whether a pair of the table is a deciding one.
pub fn decides(table: &[u64], gauge: u64, case: u64, answer: &mut [u64]) -> u64
    ensures decides { Decides table.now gauge case answer.old answer.new result }
    ensures claims { ClaimsConflicts table.now }
{
    if table.len() < TABLE {
        return SHORT;
    }
    if answer.len() < ANSWER {
        return SHORT;
    }
    let t = words::table_at(table, 0);
    match essentials::is_essential(t, Gauge(gauge), Case(case)) {
        Err(why) => why.number(),
        Ok(yes) => {
            words::put_word(answer, 0, yes_no(yes));
            0
        }
    }
}

// 1 for yes, else 0.
fn yes_no(yes: bool) -> u64
    ensures { result ≡ yes_no yes }
{
    yes as u64
}
