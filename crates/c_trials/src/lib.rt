// Trials and commits, on lent words: what the C library's entries of these names do. Any slices are taken: a slice shorter than its layout is refused
// with 100 before anything else, and a refusal leaves every word as it was. No function has a `requires`.
#![tactic(auto)]

ghost use Rattle.std.specs.Prelude.{◌≡◌};
ghost use Rattle.words.specs.Layouts.{Put};
ghost use Rattle.c_trials.specs.Serving.{effect_of, effect_word, place_word, proposal_at, proposal_words, Tries, Commits};

use table::{Case, Gauge};
use trials;
use trials::{Effect, Proposal};
use words;
use words::{CHAIN, SHORT, TABLE};

// The words of a proposal.
const PROPOSAL: usize = 134;

// Where a proposal has its chain, its place and its effect.
const AT_CHAIN: u16 = 66;

const AT_GAUGE: usize = 131;

const AT_CASE: usize = 132;

const AT_EFFECT: usize = 133;

// Puts into `out` the proposal of flipping the entry of `gauge` and `case`.
pub fn trial(table: &[u64], chain: &[u64], gauge: u64, case: u64, out: &mut [u64]) -> u64
    ensures { Tries table.now chain.now gauge case out.old out.new result }
{
    if table.len() < TABLE {
        return SHORT;
    }
    if chain.len() < CHAIN {
        return SHORT;
    }
    if out.len() < PROPOSAL {
        return SHORT;
    }
    let t = words::table_at(table, 0);
    let s = words::chain_at(chain, 0);
    match trials::trial(t, s, Gauge(gauge), Case(case)) {
        Err(why) => why.number(),
        Ok(p) => {
            put_proposal(out, p);
            0
        }
    }
}

// Puts into `out` the table with the entry flipped that a proposal names.
pub fn commit(proposal: &[u64], table: &[u64], out: &mut [u64]) -> u64
    ensures { Commits proposal.now table.now out.old out.new result }
{
    if proposal.len() < PROPOSAL {
        return SHORT;
    }
    if table.len() < TABLE {
        return SHORT;
    }
    if out.len() < TABLE {
        return SHORT;
    }
    let p = proposal_at(proposal);
    let t = words::table_at(table, 0);
    match trials::commit(p, t) {
        Err(why) => why.number(),
        Ok(new) => {
            words::put_table(out, 0, new);
            0
        }
    }
}

// The proposal in the words of a slice.
fn proposal_at(w: &[u64]) -> Proposal
    ensures { result ≡ proposal_at w.now }
{
    let word = words::word_at(w, AT_EFFECT);
    let table = words::table_at(w, 0);
    let chain = words::chain_at(w, AT_CHAIN);
    let gauge = place_word(words::word_at(w, AT_GAUGE), word);
    let case = words::word_at(w, AT_CASE);
    Proposal {
        table: table,
        chain: chain,
        gauge: Gauge(gauge),
        case: Case(case),
        effect: effect_of(word),
    }
}

// Puts a proposal over the front of a slice.
fn put_proposal(out: &mut [u64], p: Proposal)
    ensures { Put out.old 0 (proposal_words p) out.new }
{
    let table = p.table;
    let chain = p.chain;
    let gauge = p.gauge;
    let case = p.case;
    let effect = p.effect;
    words::put_table(out, 0, table);
    words::put_chain(out, AT_CHAIN, chain);
    words::put_word(out, AT_GAUGE, gauge.0);
    words::put_word(out, AT_CASE, case.0);
    words::put_word(out, AT_EFFECT, effect_word(effect));
}

// The gauge's number, or 0, which no trial has, where the word of the effect is none.
fn place_word(gauge: u64, effect: u64) -> u64
    ensures { result ≡ place_word gauge effect }
{
    if effect < 1 {
        return 0;
    }
    if 3 < effect {
        return 0;
    }
    gauge
}

fn effect_of(word: u64) -> Effect
    ensures { result ≡ effect_of word }
{
    if word == 1 {
        return Effect::StillMaximal;
    }
    if word == 2 {
        return Effect::OnlyChain;
    }
    Effect::NotWithin
}

fn effect_word(effect: Effect) -> u64
    ensures { result ≡ effect_word effect }
{
    match effect {
        Effect::StillMaximal => 1,
        Effect::OnlyChain => 2,
        Effect::NotWithin => 3,
    }
}
