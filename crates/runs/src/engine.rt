// The core of both runs, on plain numbers. A spot is a state of rules 1 to 5 with the set of the unpicked gauges; a walk goes along with it, the chain of
// the picks and the picks by number. A side's call is `call`.
ghost use Rattle.std.specs.Prelude.{◌≡◌, ◌+◌, ◌≤◌, ◌<◌, set, get_or};
ghost use Rattle.std.specs.Int.Bits.{bit_and};
ghost use Rattle.table.specs.Tables.{padded};
ghost use Rattle.rules.specs.Machine.{take_back, cut_last};
ghost use Rattle.lists.specs.OnTable.{chain_of};
ghost use Rattle.search.specs.Finding.{within};
ghost use Rattle.sets.specs.First.{Without};
ghost use Rattle.runs.specs.Paused.{mode_phase};
ghost use Rattle.runs.specs.private.Core.{rows_of, rule_of, HoldsOn};
ghost use Rattle.runs.specs.private.Working.{Laying, state_of, places_of, spot_down, moved_from, Stepped, TakesBack, NumberAt};
ghost use Rattle.runs.specs.private.Working.{omits, wanted_in, left_after, Advanced, DecidedBy, filled as filled_places, PhaseIn, CarriesOn, Opens, chain_with};
ghost use Rattle.runs.specs.private.Working.{apart as apart_rows, hands_over};

use crate::listing::Form;
use crate::work::{Asked, Walk, Work};
use crate::{Phase, listing};
use refusals::Refusal;
use replay;
use search;
use sets;
use table::{Chain, Table};

// "A run call has a budget from 0 to 1,000,000 moves" (01).
const MOST_BUDGET: u64 = 1_000_000;

// The places that there can be.
const PLACES: usize = Table::MOST_GAUGES as usize;

// All 64 cases: the left cases before any pick.
const ALL: u64 = 0xffff_ffff_ffff_ffff;

// How a call or a batch stops.
#[derive(Clone, Copy)]
pub enum Stop {
    HandedOut,
    Spent,
    End,
}

// Where a run is: how many picks, the unpicked gauges, the left cases, and the phase.
#[derive(Clone, Copy)]
pub struct Spot {
    pub count: usize,
    pub unpicked: u64,
    pub left: u64,
    pub mode: Phase<usize>,
}

// One move: it gives nothing, a hand-out, or an end.
#[derive(Clone, Copy)]
pub enum Moved {
    On(Spot),
    Out(Spot),
    Over(Spot),
}

// What a call gives: its outcome, how many moves it made, and where the run is then. Each of the three stops has its moves and its spot: none is blank.
#[derive(Clone, Copy)]
pub struct Report {
    pub outcome: Stop,
    pub moves: u64,
    pub spot: Spot,
}

// A call on the value of a walk's picks, with a budget: 15 and 18 as 01 has them, else up to `budget` moves. The walk has then the chain of the picks after
// the moves, and the picks of the next value.
pub fn call(work: &Work, walk: &mut Walk, asked: Asked) -> Result<Report, Refusal>
    ensures { CarriesOn (rule_of work.now) (rows_of work.now) walk.old.picks asked.count (mode_phase asked.mode) asked.budget
        walk.new.chain walk.new.picks result }
{
    let at = open(work, &mut walk.chain, &walk.picks, asked)?;
    let mut nowhere = [0; 1];
    let one = Form {
        ladders: 1,
        writing: false,
        places: None,
    };
    let tally = listing::list_on(work, &one, walk, at, asked.budget, &mut nowhere);
    let ended = tally.outcome;
    let after = tally.spot;
    Ok(Report {
        outcome: ended,
        moves: tally.moves,
        spot: after,
    })
}

// The checks of such a call alone: 15 and 18, or where the run is. `chain` has then the chain of the picks.
pub fn open(
    work: &Work,
    chain: &mut [u64; 64],
    picks: &[u8; 64],
    asked: Asked,
) -> Result<Spot, Refusal>
    ensures { Opens work.now.n work.now.rows.now picks.now asked.count (mode_phase asked.mode) asked.budget chain.new result }
{
    if filled(picks) != asked.count {
        return Err(Refusal::NotReached);
    }
    let many = asked.count as usize;
    let Some(seen) = replay::replay(work.rows, work.n, picks, many) else {
        return Err(Refusal::NotReached);
    };
    let mode = asked.mode;
    if !phase_fits(work.rows, seen.unpicked, seen.left, many, mode) {
        return Err(Refusal::NotReached);
    }
    if MOST_BUDGET < asked.budget {
        return Err(Refusal::BudgetTooLarge);
    }
    lay(work, chain, picks, many);
    Ok(Spot {
        count: many,
        unpicked: seen.unpicked,
        left: seen.left,
        mode: mode,
    })
}

// The chain with these rows.
pub fn chain_of(gauges: u64, rows: &[u64; 64]) -> Chain
    ensures { result ≡ chain_with gauges rows.now }
{
    Chain {
        gauges: gauges,
        rows: *rows,
    }
}

// How many of the 64 places are not zero. With as many picks in front, the places behind them are zeros.
fn filled(picks: &[u8; 64]) -> u64
    ensures { result ≡ filled_places picks.now 64 }
{
    let mut seen: u8 = 0; // in bytes, as the places are: a chain's `count` takes 45 ns, and this 2.4
    for i in 0..PLACES {
        if picks[i] != 0 {
            seen += 1;
        }
    }
    u64::from(seen)
}

// The phase goes with the picks: Handed without a candidate, Back from a candidate, Ended without picks.
fn phase_fits(rows: &[u64; 64], unpicked: u64, left: u64, count: usize, mode: Phase<usize>) -> bool
    ensures { DecidedBy (PhaseIn (within unpicked rows.now) left count (mode_phase mode)) result }
{
    match mode {
        Phase::Down => true,
        Phase::Handed => PLACES <= search::next_candidate_of(rows, unpicked, left, 0),
        Phase::Back(number) => {
            if number == 0 {
                return false;
            }
            search::is_candidate_of(rows, unpicked, left, number - 1)
        }
        Phase::Ended => count == 0,
    }
}

// Lays the chain of the first `count` picks.
fn lay(work: &Work, chain: &mut [u64; 64], picks: &[u8; 64], count: usize)
    requires { Laying work.now.n work.now.rows.now picks.now count }
    ensures { chain.new ≡ padded (chain_of (rows_of work.now) (places_of picks.now count)) }
{
    *chain = [0; 64];
    let mut left = ALL;
    for i in 0..count {
        let g = usize::from(picks[i]) - 1;
        left = work.rows[g] & left;
        chain[g] = left;
    }
}

// Up to `budget` moves: it stops after the first hand-out or end. A chain that is omitted does not stop it; its move
// counts.
pub fn advance(work: &Work, walk: &mut Walk, at: Spot, budget: u64) -> Report
    requires { HoldsOn work.now walk.old at }
    ensures { Advanced (rule_of work.now) work.now.n work.now.rows.now walk.new.chain walk.new.picks budget
        (state_of walk.old.picks at) result }
{
    let mut spot = at;
    let mut moves: u64 = 0;
    // a budget is used up, and a hand-out or the end leaves the rest: no index is counted
    while moves < budget {
        let made = step(work, walk, spot);
        match made {
            Moved::On(next) => {
                spot = next;
                moves += 1;
            }
            Moved::Out(next) => {
                if hands_over(work.n, work.wanted, &walk.chain) {
                    return Report {
                        outcome: Stop::HandedOut,
                        moves: moves + 1,
                        spot: next,
                    };
                }
                spot = next;
                moves += 1; // omitted, and counted
            }
            Moved::Over(next) => {
                return Report {
                    outcome: Stop::End,
                    moves: moves + 1,
                    spot: next,
                };
            }
        }
    }
    Report {
        outcome: Stop::Spent,
        moves: moves,
        spot: spot,
    }
}

// Whether a chain is handed over: by a run that omits, where it holds a pair that is wanted.
#[tactic(auto, unfolding(crate::specs::private::Working::hands_over))]
fn hands_over(n: usize, wanted: Option<&[u64; 64]>, chain: &[u64; 64]) -> bool
    requires { n ≤ 64 }
    ensures { result ≡ hands_over (omits wanted.entry) n (wanted_in wanted.entry) chain.now }
{
    let Some(wanted) = wanted else {
        return true;
    };
    !apart(n, wanted, chain)
}

// Whether no row of the chain has a case of the same row that is wanted.
#[tactic(auto, using(sets::proofs::Tabulated::all_none, sets::proofs::Tabulated::all_more, sets::proofs::Tabulated::all_done), unfolding(crate::specs::private::Working::apart))]
fn apart(n: usize, wanted: &[u64; 64], chain: &[u64; 64]) -> bool
    requires { n ≤ 64 }
    ensures { result ≡ apart_rows n wanted.now chain.now }
{
    for i in 0..n {
        if chain[i] & wanted[i] != 0 {
            return false;
        }
    }
    true
}

// One move by rules 1 to 5.
fn step(work: &Work, walk: &mut Walk, at: Spot) -> Moved
    requires { HoldsOn work.now walk.old at }
    ensures { Stepped work.now.n work.now.rows.now walk.new.chain walk.new.picks
        (moved_from work.now.n work.now.rows.now walk.old.picks at) result }
{
    let mode = at.mode;
    match mode {
        Phase::Down => {
            let g = search::next_candidate_of(work.rows, at.unpicked, at.left, 0);
            if g < PLACES {
                return Moved::On(pick(work.rows, walk, at, g));
            }
            Moved::Out(Spot {
                count: at.count,
                unpicked: at.unpicked,
                left: at.left,
                mode: Phase::Handed,
            })
        }
        Phase::Handed => take_back(work, walk, at),
        Phase::Back(from) => {
            let g = search::next_candidate_of(work.rows, at.unpicked, at.left, from);
            if g < PLACES {
                return Moved::On(pick(work.rows, walk, at, g));
            }
            take_back(work, walk, at)
        }
        Phase::Ended => Moved::Over(at),
    }
}

// Picks the gauge at place `g`.
fn pick(rows: &[u64; 64], walk: &mut Walk, at: Spot, g: usize) -> Spot
    requires { (at.count < 64) × (g < 64) }
    ensures value { result ≡ spot_down (at.count + 1) result.unpicked (bit_and (get_or rows.now g 0) at.left) }
    ensures unpicked_after { Without at.unpicked g result.unpicked }
    ensures chain_after { walk.new.chain ≡ set walk.old.chain g (bit_and (get_or rows.now g 0) at.left) }
    ensures picks_after { walk.new.picks ≡ set walk.old.picks at.count (g + 1) }
{
    let own = rows[g] & at.left;
    walk.chain[g] = own;
    walk.picks[at.count] = (g + 1) as u8;
    Spot {
        count: at.count + 1,
        unpicked: sets::without(at.unpicked, g as u64),
        left: own,
        mode: Phase::Down,
    }
}

// Takes the last pick back; without picks, the end.
fn take_back(work: &Work, walk: &mut Walk, at: Spot) -> Moved
    requires { (HoldsOn work.now walk.old at) × TakesBack (mode_phase at.mode) }
    ensures { Stepped work.now.n work.now.rows.now walk.new.chain walk.new.picks
        (take_back (cut_last (state_of walk.old.picks at).picks)) result }
{
    let count = at.count;
    if count == 0 {
        return Moved::Over(Spot {
            count: 0,
            unpicked: at.unpicked,
            left: ALL,
            mode: Phase::Ended,
        });
    }
    let last = count - 1;
    let number = walk.picks[last] as usize;
    let g = number - 1;
    walk.picks[last] = 0;
    walk.chain[g] = 0;
    let left = left_after(&walk.chain, &walk.picks, last);
    Moved::On(Spot {
        count: last,
        unpicked: sets::with(at.unpicked, g as u64),
        left: left,
        mode: Phase::Back(number),
    })
}

// The left cases after the first `count` picks: what the last of them has in the chain, or all.
#[tactic(auto, unfolding(crate::specs::private::Working::left_after))]
fn left_after(chain: &[u64; 64], picks: &[u8; 64], count: usize) -> u64
    requires { NumberAt picks.now count }
    ensures { result ≡ left_after chain.now picks.now count }
{
    if count == 0 {
        return ALL;
    }
    let number = picks[count - 1] as usize;
    chain[number - 1]
}
