// The paused run of a side, `Gauge` or `Case`: its fresh start, its call and its checks, written once for both. The core's call on the side is in
// sided.rt.
ghost use Rattle.std.specs.Prelude.{◌≡◌, true, false};
ghost use Rattle.refusals.specs.Answers.{answer, verdict};
ghost use Rattle.rules.specs.Machine.{Down, Handed, fresh};
ghost use Rattle.preference.specs.Preferences.{preferred_refusal};
ghost use Rattle.runs.specs.Paused.{mode_phase, phase_of, value_of, start_of, paused, blank_value};
ghost use Rattle.runs.specs.Calling.{Called, step_of};
ghost use Rattle.runs.specs.Demand.{KeepsDemand, CarriesDemand, SharesAll};
ghost use Rattle.runs.specs.Omitting.{CalledEither, KeepsOmits, CarriesOmits};
ghost use Rattle.runs.specs.Sides.{side_of, ChecksAt};
ghost use Rattle.runs.specs.private.Checks.{is_down, is_handed, ChecksPhase};
ghost use Rattle.runs.specs.private.Sided.{Reports};
ghost use Rattle.runs.specs.private.Working.{chain_with};
ghost use Rattle.runs.specs.private.Listing.{turned_rows};

use crate::engine::{Report, Stop};
use crate::sided::Checked;
use crate::work::{Asked, Walk};
use crate::{Phase, engine, sided};
use preference;
use preference::Order;
use refusals::Refusal;
use std::marker::PhantomData;
use table;
use table::{Case, Chain, Gauge, Side, Table};
use transpose;

// The numbers picked so far, in the order of the picks, padded with zeros.
#[derive(Clone, Copy)]
pub struct Picks<S> {
    pub numbers: [u8; 64],
    pub side: PhantomData<S>,
}

pub type GaugePicks = Picks<Gauge>;

pub type CasePicks = Picks<Case>;

impl<S> Picks<S> {
    pub fn new(numbers: [u8; 64]) -> Picks<S>
        ensures { result.numbers ≡ numbers }
    {
        Picks {
            numbers,
            side: PhantomData,
        }
    }
}

// A paused run: its table, as it was given and not exchanged, its order of the side, the picks and how many, the phase, and whether it omits the
// ladders that hold no essential pair.
#[derive(Clone, Copy)]
pub struct Run<S> {
    pub table: Table,
    pub order: Order<S>,
    pub picks: Picks<S>,
    pub count: u64,
    pub phase: Phase<S>,
    pub omit: bool,
}

pub type GaugeRun = Run<Gauge>;

pub type CaseRun = Run<Case>;

// A maximal chain that is handed out, by gauge rows, and its pick sequence.
#[derive(Clone, Copy)]
pub struct Ladder<S> {
    pub chain: Chain,
    pub picks: Picks<S>,
}

// How a run call stops.
#[derive(Clone, Copy)]
pub enum Outcome<S> {
    HandedOut(Ladder<S>),
    Spent,
    End,
}

// The answer of a run call: how it stopped, the moves made, and the next paused value. A refusal is an `Err` beside it, and no outcome has a blank value.
#[derive(Clone, Copy)]
pub struct Step<S> {
    pub outcome: Outcome<S>,
    pub moves: u64,
    pub next: Run<S>,
}

pub type GaugeStep = Step<Gauge>;

pub type CaseStep = Step<Case>;

impl<S: Side> Run<S> {
    // A fresh run of `t` under an order of the side's numbers: 10, 11 and 27 are refused. Every list of run calls from it keeps demand 3, and shares its
    // set with every run of the table; from one that omits, every list of run calls hands out a front of the ladders that hold an essential pair, and all
    // of them by its end.
    pub fn start(t: Table, order: Order<S>, omit: bool) -> Result<Run<S>, Refusal>
        ensures result_value { start_of S.number result ≡ answer (preferred_refusal t (side_of S.CASES t).count order.numbers) (paused t order.numbers omit fresh) blank_value }
        ensures demand { omit ≡ false → KeepsDemand (side_of S.CASES) t order.numbers (start_of S.number result).value }
        ensures shared { omit ≡ false → SharesAll (side_of S.CASES) t order.numbers (start_of S.number result).value }
        ensures omits { omit ≡ true → KeepsOmits (side_of S.CASES) t order.numbers (start_of S.number result).value }
    {
        preference::check(t, sided::side_count::<S>(t.gauges, t.cases), order.numbers)?;
        Ok(fresh_run(t, order, omit))
    }

    // A call of the run with a budget of moves, on any paused value: 10, 11, 27, 15 and 18 are refused. Added to the calls that led to the value, it keeps
    // demand 3, or what is promised of a run that omits.
    pub fn call(self, budget: u64) -> Result<Step<S>, Refusal>
        ensures called { Called (side_of S.CASES) (value_of S.number self) budget (step_of S.number result) }
        ensures demand { CarriesDemand (side_of S.CASES) (value_of S.number self) budget (step_of S.number result) }
        ensures either { CalledEither (side_of S.CASES) (value_of S.number self) budget (step_of S.number result) }
        ensures omits { CarriesOmits (side_of S.CASES) (value_of S.number self) budget (step_of S.number result) }
    {
        // any chain will do, since the core clears it: a copy of the rows costs 5 % less of a call than zeros, which are written twice
        let mut walk = Walk {
            chain: self.table.rows,
            picks: self.picks.numbers,
        };
        let report = self.call_core(&mut walk, budget)?;
        let spot = report.spot;
        let mut next = self;
        next.picks = Picks::new(walk.picks);
        next.count = spot.count as u64;
        next.phase = phase_of(spot.mode);
        let moves = report.moves;
        match report.outcome {
            Stop::HandedOut => Ok(Step {
                outcome: Outcome::HandedOut(Ladder {
                    chain: gauge_chain::<S>(self.table.gauges, self.table.cases, &walk.chain),
                    picks: Picks::new(walk.picks),
                }),
                moves,
                next,
            }),
            Stop::Spent => Ok(Step {
                outcome: Outcome::Spent,
                moves,
                next,
            }),
            Stop::End => Ok(Step {
                outcome: Outcome::End,
                moves,
                next,
            }),
        }
    }

    // The check of the table, and the core's call on the paused value, whose picks the walk has. Not inlined: then a call copies fewer of the value's arrays.
    #[inline(never)]
    fn call_core(self, walk: &mut Walk, budget: u64) -> Result<Report, Refusal>
        requires { walk.old.picks ≡ self.picks.numbers }
        ensures { Reports (side_of S.CASES) (value_of S.number self) budget walk.new.chain walk.new.picks result }
    {
        let t = self.table;
        table::check_table(t)?;
        let on = Checked {
            table: &t,
            omit: self.omit,
        };
        let order = self.order.numbers;
        let asked = Asked {
            count: self.count,
            mode: mode_of(self.phase),
            budget,
        };
        sided::call::<S>(&on, &order, walk, asked)
    }

    // ---- the checks of a value
    // Of a value that must be in the phase Down: 10, 11, 27 and 15, as a run call has them, and 15 for another phase.
    pub fn check_down(self) -> Result<(), Refusal>
        ensures { ChecksAt (side_of S.CASES) (value_of S.number self) Down (verdict result) }
    {
        self.check_phase(is_down(self.phase))
    }

    // Of a value that must be in the phase Handed.
    pub fn check_handed(self) -> Result<(), Refusal>
        ensures { ChecksAt (side_of S.CASES) (value_of S.number self) Handed (verdict result) }
    {
        self.check_phase(is_handed(self.phase))
    }

    // A run call without a budget makes no move: it refuses the values that 10, 11, 27 and 15 refuse, and no other. Then 15 where the phase does not fit.
    fn check_phase(self, fits: bool) -> Result<(), Refusal>
        ensures { ChecksPhase (side_of S.CASES) (value_of S.number self) fits (verdict result) }
    {
        self.call(0)?;
        if !fits {
            return Err(Refusal::NotReached);
        }
        Ok(())
    }
}

// The fresh value on a table, under an order.
fn fresh_run<S: Side>(table: Table, order: Order<S>, omit: bool) -> Run<S>
    ensures { value_of S.number result ≡ paused table order.numbers omit fresh }
{
    Run {
        table,
        order,
        picks: Picks::new([0; 64]),
        count: 0,
        phase: Phase::Down,
        omit,
    }
}

// The chain by gauge rows, of one by the rows of the side.
fn gauge_chain<S: Side>(gauges: u64, cases: u64, chain: &[u64; 64]) -> Chain
    ensures { result ≡ chain_with gauges (turned_rows S.CASES cases gauges chain.now) }
{
    if S::CASES {
        let rows = transpose::transposed(chain, cases as usize, gauges as usize);
        return Chain { gauges, rows };
    }
    engine::chain_of(gauges, chain)
}

// One `matches!` each, by name, since a check is asked of either phase and each answer has a wrong one in must-fail.
fn is_down<S: Side>(phase: Phase<S>) -> bool
    ensures { result ≡ is_down (phase_of S.number phase) }
{
    matches!(phase, Phase::Down)
}

fn is_handed<S: Side>(phase: Phase<S>) -> bool
    ensures { result ≡ is_handed (phase_of S.number phase) }
{
    matches!(phase, Phase::Handed)
}

// A phase by number, as the core has it, and back. One `map` with a closure for these two and `ordered::renumbered` would be no plainer: its contract had to
// speak of the closure's in the case `Back`, and each closure had to state as its own contract what its arm says here.
pub fn mode_of<S: Side>(phase: Phase<S>) -> Phase<usize>
    ensures { mode_phase result ≡ phase_of S.number phase }
{
    match phase {
        Phase::Down => Phase::Down,
        Phase::Handed => Phase::Handed,
        Phase::Back(from) => Phase::Back(from.number() as usize),
        Phase::Ended => Phase::Ended,
    }
}

pub fn phase_of<S: Side>(mode: Phase<usize>) -> Phase<S>
    ensures { phase_of S.number result ≡ mode_phase mode }
{
    match mode {
        Phase::Down => Phase::Down,
        Phase::Handed => Phase::Handed,
        Phase::Back(k) => Phase::Back(S::from_number(k as u64)),
        Phase::Ended => Phase::Ended,
    }
}
