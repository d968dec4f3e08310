// Batches of both sides, on lent words: what the C library's entries of these names do. Any slices are taken: a slice shorter than its layout is refused
// with 100 before anything else, and a refusal leaves every word as it was. Each entry is the function of either side for its own side. No function
// has a `requires`.
#![tactic(auto)]

ghost use Rattle.std.specs.Prelude.{[], ◌∷◌};
ghost use Rattle.lists.specs.Lists.{gauge_side, case_side};
ghost use Rattle.runs.specs.Sides.{side_of};
ghost use Rattle.words.specs.Layouts.{Put};
ghost use Rattle.run_words.specs.Values.{side_word};
ghost use Rattle.c_batches.specs.Serving.{Lists};

use run_words;
use run_words::RUN;
use table::{Case, Gauge, Side};
use words;
use words::SHORT;

// The words ahead of the ladders of a batch: how it stopped, how many ladders, how many moves.
const HEAD: usize = 3;

// A batch of the gauge run in `run`, which then holds the next paused value; how it stopped, and its ladders, go into `batch`.
// A pair of names for the two sides, here and in the other crates of the C library: C has no generic function.
pub fn list_gauges(run: &mut [u64], budget: u64, batch: &mut [u64]) -> u64
    ensures { Lists gauge_side 1 run.old budget batch.old run.new batch.new result }
{
    list_side::<Gauge>(run, budget, batch)
}

// A batch of the case run in `run`, which then holds the next paused value; how it stopped, and its ladders, go into `batch`.
pub fn list_cases(run: &mut [u64], budget: u64, batch: &mut [u64]) -> u64
    ensures { Lists case_side 2 run.old budget batch.old run.new batch.new result }
{
    list_side::<Case>(run, budget, batch)
}

// A batch of the run in `run`, of either side.
fn list_side<S: Side>(run: &mut [u64], budget: u64, batch: &mut [u64]) -> u64
    ensures { Lists (side_of S.CASES) (side_word S.CASES) run.old budget batch.old run.new batch.new result }
{
    if run.len() < RUN {
        return SHORT;
    }
    if batch.len() < HEAD {
        return SHORT;
    }
    let p = run_words::run_at::<S>(run);
    match p.list(budget, &mut batch[HEAD..]) {
        Ok(made) => {
            run_words::put_run(run, made.next);
            put_head(
                batch,
                run_words::close_number(made.close),
                made.ladders,
                made.moves,
            );
            0
        }
        Err(why) => why.number(),
    }
}

// Puts the words ahead of the ladders.
fn put_head(out: &mut [u64], stop: u64, ladders: u64, moves: u64)
    ensures { Put out.old 0 (stop ∷ (ladders ∷ (moves ∷ []))) out.new }
{
    words::put_word(out, 0, stop);
    words::put_word(out, 1, ladders);
    words::put_word(out, 2, moves);
}
