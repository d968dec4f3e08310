// The fresh starts and the run calls of both sides, on lent words: what the C library's entries of these names do. Any slices are taken: a slice
// shorter than its layout is refused with 100 before anything else, and a refusal leaves every word as it was. Each entry is the function of either side
// for its own side. No function has a `requires`.
#![tactic(auto)]

ghost use Rattle.lists.specs.Lists.{gauge_side, case_side};
ghost use Rattle.runs.specs.Sides.{side_of};
ghost use Rattle.run_words.specs.Values.{side_word};
ghost use Rattle.c_runs.specs.Serving.{Starts, Runs};

use preference::Order;
use run_words;
use run_words::RUN;
use runs::Run;
use table::{Case, Gauge, Side};
use words;
use words::{ORDER, SHORT, TABLE};

// The words of a call's answer.
const STEP: usize = 131;

// Puts a fresh gauge run into `run`.
// A pair of names for the two sides, as `run_gauges` and `run_cases` are one: C has no generic function.
pub fn start_gauges(table: &[u64], order: &[u64], omit: u64, run: &mut [u64]) -> u64
    ensures { Starts gauge_side 1 table.now order.now omit run.old run.new result }
{
    start_side::<Gauge>(table, order, omit, run)
}

// Puts a fresh case run into `run`.
pub fn start_cases(table: &[u64], order: &[u64], omit: u64, run: &mut [u64]) -> u64
    ensures { Starts case_side 2 table.now order.now omit run.old run.new result }
{
    start_side::<Case>(table, order, omit, run)
}

// A call of the gauge run in `run`, which then holds the next paused value; the answer goes into `step`.
// A pair for C, as above.
pub fn run_gauges(run: &mut [u64], budget: u64, step: &mut [u64]) -> u64
    ensures { Runs gauge_side 1 run.old budget step.old run.new step.new result }
{
    run_side::<Gauge>(run, budget, step)
}

// A call of the case run in `run`, which then holds the next paused value; the answer goes into `step`.
pub fn run_cases(run: &mut [u64], budget: u64, step: &mut [u64]) -> u64
    ensures { Runs case_side 2 run.old budget step.old run.new step.new result }
{
    run_side::<Case>(run, budget, step)
}

// ---- of either side
// Puts a fresh run into `run`.
fn start_side<S: Side>(table: &[u64], order: &[u64], omit: u64, run: &mut [u64]) -> u64
    ensures { Starts (side_of S.CASES) (side_word S.CASES) table.now order.now omit run.old run.new result }
{
    if table.len() < TABLE {
        return SHORT;
    }
    if order.len() < ORDER {
        return SHORT;
    }
    if run.len() < RUN {
        return SHORT;
    }
    let t = words::table_at(table, 0);
    let preferred = Order::new(words::numbers_at(order, 0));
    match Run::<S>::start(t, preferred, omit != 0) {
        Ok(fresh) => {
            run_words::put_run(run, fresh);
            0
        }
        Err(why) => why.number(),
    }
}

// A call of the run in `run`.
fn run_side<S: Side>(run: &mut [u64], budget: u64, step: &mut [u64]) -> u64
    ensures { Runs (side_of S.CASES) (side_word S.CASES) run.old budget step.old run.new step.new result }
{
    if run.len() < RUN {
        return SHORT;
    }
    if step.len() < STEP {
        return SHORT;
    }
    let p = run_words::run_at::<S>(run);
    match p.call(budget) {
        Ok(called) => {
            run_words::put_run(run, called.next);
            run_words::put_outcome(step, called.outcome, called.moves);
            0
        }
        Err(why) => why.number(),
    }
}
