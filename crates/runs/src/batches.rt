// Batches: many ladders in one call. The side's rows are found in sided.rt, and the work is in listing.rt.
ghost use Rattle.std.specs.Prelude.{◌≡◌, Ok, length};
ghost use Rattle.runs.specs.Paused.{value_of};
ghost use Rattle.runs.specs.Sides.{side_of};
ghost use Rattle.runs.specs.Batches.{batch_of, closing, Batched, CarriesBatch};
ghost use Rattle.runs.specs.private.Listing.{stop_ending};
ghost use Rattle.runs.specs.private.Sided.{batch_from};

use crate::engine::Stop;
use crate::listing::Tally;
use crate::paused::{Picks, Run};
use crate::sided::Checked;
use crate::work::Asked;
use crate::{paused, sided};
use refusals::Refusal;
use table;
use table::{Case, Gauge, Side};

// How a batch stops: as many ladders as have room were handed out, or the budget was spent, or the run ended.
#[derive(Clone, Copy, PartialEq, Eq)]
pub enum Close {
    Full,
    Spent,
    End,
}

// The answer of a batch: how it stopped, how many ladders it handed out, the moves made, and the next paused value.
#[derive(Clone, Copy)]
pub struct Batch<S> {
    pub close: Close,
    pub ladders: u64,
    pub moves: u64,
    pub next: Run<S>,
}

pub type GaugeBatch = Batch<Gauge>;

pub type CaseBatch = Batch<Case>;

impl<S: Side> Run<S> {
    // A batch with a budget of moves, on any paused value: 10, 11, 27, 15 and 18 are refused. In `out` are then the ladders handed out, G words each, one
    // after another; what is behind them stays, and a refusal changes nothing. Its calls are run calls, each with the moves that are left.
    pub fn list(self, budget: u64, out: &mut [u64]) -> Result<Batch<S>, Refusal>
        ensures batched { Batched (side_of S.CASES) (value_of S.number self) budget out.old (batch_of S.number result) out.new }
        ensures calls { CarriesBatch (side_of S.CASES) (value_of S.number self) (length out.old) budget }
    {
        let t = self.table;
        table::check_table(t)?;
        let on = Checked {
            table: &t,
            omit: self.omit,
        };
        let order = self.order.numbers;
        let mut picks = self.picks.numbers;
        let asked = Asked {
            count: self.count,
            mode: paused::mode_of(self.phase),
            budget,
        };
        let tally = sided::list::<S>(&on, &order, &mut picks, asked, out)?;
        Ok(batch_of(self, picks, tally))
    }
}

// The answer of a batch that is not refused, from the core's tally and the picks that it left.
fn batch_of<S: Side>(run: Run<S>, picks: [u8; 64], tally: Tally) -> Batch<S>
    ensures { batch_of S.number (Ok result) ≡ batch_from (value_of S.number run) picks tally }
{
    let mut next = run;
    next.picks = Picks::new(picks);
    next.count = tally.spot.count as u64;
    next.phase = paused::phase_of(tally.spot.mode);
    Batch {
        close: close_of(tally.outcome),
        ladders: tally.ladders,
        moves: tally.moves,
        next,
    }
}

// A `From` would be no plainer: it is this match, with its contract in a definition. The two stay apart, since a call stops too, by a hand-out and not full.
fn close_of(stop: Stop) -> Close
    ensures { closing result ≡ stop_ending stop }
{
    match stop {
        Stop::HandedOut => Close::Full,
        Stop::Spent => Close::Spent,
        Stop::End => Close::End,
    }
}
