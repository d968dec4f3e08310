// The library under test: the one file that names the types of its runs. Both sides have one form.
use super::plain;
use preference::Order;
use refusals::Refusal;
use runs;
use runs::{CaseRun, GaugeRun};
use table;
use table::{Chain, Table};

// A paused run of a side.
#[derive(Clone, Copy)]
pub enum Run {
    Gauges(GaugeRun),
    Cases(CaseRun),
}

#[derive(Clone, Copy)]
pub enum Outcome {
    HandedOut(Chain),
    Spent,
    End,
}

// A step of either side. Its outcome stands beside the next run, which each outcome has: no value is blank.
#[derive(Clone, Copy)]
pub struct Step {
    pub outcome: Outcome,
    pub next: Run,
}

// A fresh run in plain order.
pub fn start(side: plain::Side, t: Table) -> Result<Run, Refusal> {
    match side {
        plain::Side::Gauges => {
            let run = GaugeRun::start(t, Order::plain(t.gauges), false)?;
            Ok(Run::Gauges(run))
        }
        plain::Side::Cases => {
            let run = CaseRun::start(t, Order::plain(t.cases), false)?;
            Ok(Run::Cases(run))
        }
    }
}

// A call of a run.
pub fn call(run: Run, budget: u64) -> Result<Step, Refusal> {
    match run {
        Run::Gauges(run) => {
            let step = run.call(budget)?;
            Ok(Step {
                outcome: said(step.outcome),
                next: Run::Gauges(step.next),
            })
        }
        Run::Cases(run) => {
            let step = run.call(budget)?;
            Ok(Step {
                outcome: said(step.outcome),
                next: Run::Cases(step.next),
            })
        }
    }
}

fn said<S: table::Side>(outcome: runs::Outcome<S>) -> Outcome {
    match outcome {
        runs::Outcome::HandedOut(ladder) => Outcome::HandedOut(ladder.chain),
        runs::Outcome::Spent => Outcome::Spent,
        runs::Outcome::End => Outcome::End,
    }
}
