// Trial, then commit (02, R-10): what the flip of one table entry would do to a maximal chain (02: a ladder), shown ahead in a proposal, and the
// commit of a proposal, which flips the entry on the table that it was shown for and on no other. Any table, chain, numbers and proposal are
// taken: a trial refuses 10, 11, 7, 12, 13 and 25, a commit 10, 11 and 26. Nothing is lent, and nothing is
// changed: a commit returns a new table. At most three judgements of a chain, 64 * 64 steps on sets of cases each.
#![tactic(auto)]

ghost use Rattle.std.specs.Prelude.{◌≡◌, ◌↔◌, true, ◌<◌};
ghost use Rattle.refusals.specs.Answers.{verdict};
ghost use Rattle.table.specs.Tables.{made};
ghost use Rattle.trials.specs.Trials.{Flipped, HasEffect, place_refusal, Proposes, Tried, Committed, proposed};
ghost use Rattle.trials.specs.private.Steps.{Placed, Passed, Shaped, Toggled};

use judge;
use refusals::Refusal;
use sets;
use table;
use table::{Case, Chain, Gauge, Table};

// What a flip does to a maximal chain: over the new table it is maximal still, only a chain, or no longer within the table.
#[derive(Clone, Copy, Debug, PartialEq, Eq)]
pub enum Effect {
    StillMaximal,
    OnlyChain,
    NotWithin,
}

// The flip of one entry as a trial shows it: the table and the maximal chain that it was tried on, the place, and the effect.
#[derive(Clone, Copy, Debug, PartialEq, Eq)]
pub struct Proposal {
    pub table: Table,
    pub chain: Chain,
    pub gauge: Gauge,
    pub case: Case,
    pub effect: Effect,
}

// What flipping the entry of gauge `g` and case `c` would do to the maximal chain `s` of `t`.
pub fn trial(t: Table, s: Chain, g: Gauge, c: Case) -> Result<Proposal, Refusal>
    ensures { Tried t s g.0 c.0 (proposed result) }
{
    check_place(t, g, c)?;
    let maximal = judge::judge_maximal(t, s)?;
    if !maximal {
        return Err(Refusal::NotMaximal);
    }
    Ok(propose(t, s, g, c))
}

// The current table `t` with the entry flipped that `p` proposes, where `p` is what the trial on `t` gives.
pub fn commit(p: Proposal, t: Table) -> Result<Table, Refusal>
    ensures { Committed p t (made result) }
{
    table::check_table(t)?;
    let Ok(due) = trial(t, p.chain, p.gauge, p.case) else {
        return Err(Refusal::OtherProposal);
    };
    if !same_proposal(p, due) {
        return Err(Refusal::OtherProposal);
    }
    Ok(flip(t, p.gauge, p.case))
}

// Whether two proposals are the same, whole: the table, the chain, the place and the effect.
// One derived comparison; it stays, since it is public and its clause and edits say that nothing is left out.
pub fn same_proposal(p: Proposal, q: Proposal) -> bool
    ensures { (result ≡ true) ↔ (p ≡ q) }
{
    p == q
}

// The check of a place, after its table: 10, 11, then 7.
#[tactic(auto, using(refusals::proofs::Answering::number_pos), unfolding(crate::specs::Trials::place_refusal))]
fn check_place(t: Table, g: Gauge, c: Case) -> Result<(), Refusal>
    ensures { verdict result ≡ place_refusal t g.0 c.0 }
{
    table::check_table(t)?;
    if !table::in_range(g.0, t.gauges) {
        return Err(Refusal::PairRange);
    }
    if !table::in_range(c.0, t.cases) {
        return Err(Refusal::PairRange);
    }
    Ok(())
}

// The proposal for a place and a chain that passed.
fn propose(t: Table, s: Chain, g: Gauge, c: Case) -> Proposal
    requires { Placed t g.0 c.0 × Passed t s }
    ensures { Proposes t s g.0 c.0 result }
{
    let new = flip(t, g, c);
    let effect = effect_on(new, s);
    Proposal {
        table: t,
        chain: s,
        gauge: g,
        case: c,
        effect,
    }
}

// What the chain `s` is over the table `u` of the same shape: the judge refuses it with 13 alone.
fn effect_on(u: Table, s: Chain) -> Effect
    requires { Shaped u s }
    ensures { HasEffect result u s }
{
    match judge::judge_maximal(u, s) {
        Ok(true) => Effect::StillMaximal,
        Ok(false) => Effect::OnlyChain,
        Err(_) => Effect::NotWithin,
    }
}

// The table with the entry of gauge `g` and case `c` flipped.
fn flip(t: Table, g: Gauge, c: Case) -> Table
    requires { Placed t g.0 c.0 }
    ensures { Flipped t g.0 c.0 result }
{
    let i = (g.0 - 1) as usize;
    let mut rows = t.rows;
    let row = rows[i];
    rows[i] = toggled(row, c.0 - 1);
    Table {
        gauges: t.gauges,
        cases: t.cases,
        rows: rows,
    }
}

// `row` without place `k` where it has it, else with it.
fn toggled(row: u64, k: u64) -> u64
    requires { k < 64 }
    ensures { Toggled row k result }
{
    if sets::has(row, k) {
        return sets::without(row, k);
    }
    sets::with(row, k)
}
