// The parts that a long listing is split into, on lent words: what the C library's entries of these names do. A part is a paused run in the phase Down.
// Any slices are taken: a slice shorter than its layout is refused with 100 before anything else, and a refusal leaves every word as it was. Each entry is
// the function of either side for its own side. No function has a `requires`.
#![tactic(auto)]

ghost use Rattle.lists.specs.Lists.{gauge_side, case_side};
ghost use Rattle.runs.specs.Sides.{side_of};
ghost use Rattle.run_words.specs.Values.{side_word};
ghost use Rattle.c_parts.specs.Serving.{GivesCandidates, GivesPart};

use run_words;
use run_words::RUN;
use split;
use table::{Case, Gauge, Side};
use words;
use words::SHORT;

// The words of numbers.
const NUMBERS: usize = 64;

// The gauges that the gauge run in `run` can pick next, into `numbers`: each names a part of this one.
// A pair of names for the two sides, as `part_gauges` and `part_cases` are one: C has no generic function.
pub fn candidates_gauges(run: &[u64], numbers: &mut [u64]) -> u64
    ensures { GivesCandidates gauge_side 1 run.now numbers.old numbers.new result }
{
    candidates_side::<Gauge>(run, numbers)
}

// The cases that the case run in `run` can pick next, into `numbers`: each names a part of this one.
pub fn candidates_cases(run: &[u64], numbers: &mut [u64]) -> u64
    ensures { GivesCandidates case_side 2 run.now numbers.old numbers.new result }
{
    candidates_side::<Case>(run, numbers)
}

// The part of the gauge run in `run` that has the candidate `number` as a pick more, into `part`.
// A pair for C, as above.
pub fn part_gauges(run: &[u64], number: u64, part: &mut [u64]) -> u64
    ensures { GivesPart gauge_side 1 run.now number part.old part.new result }
{
    part_side::<Gauge>(run, number, part)
}

// The part of the case run in `run` that has the candidate `number` as a pick more, into `part`.
pub fn part_cases(run: &[u64], number: u64, part: &mut [u64]) -> u64
    ensures { GivesPart case_side 2 run.now number part.old part.new result }
{
    part_side::<Case>(run, number, part)
}

// ---- of either side
// The numbers that the run in `run` can pick next, into `numbers`.
fn candidates_side<S: Side>(run: &[u64], numbers: &mut [u64]) -> u64
    ensures { GivesCandidates (side_of S.CASES) (side_word S.CASES) run.now numbers.old numbers.new result }
{
    if run.len() < RUN {
        return SHORT;
    }
    if numbers.len() < NUMBERS {
        return SHORT;
    }
    let p = run_words::run_at::<S>(run);
    match split::candidates(p) {
        Ok(found) => {
            let picks = found.numbers;
            words::put_numbers(numbers, 0, picks);
            0
        }
        Err(why) => why.number(),
    }
}

// The part of the run in `run` that has the candidate `number` as a pick more, into `part`.
fn part_side<S: Side>(run: &[u64], number: u64, part: &mut [u64]) -> u64
    ensures { GivesPart (side_of S.CASES) (side_word S.CASES) run.now number part.old part.new result }
{
    if run.len() < RUN {
        return SHORT;
    }
    if part.len() < RUN {
        return SHORT;
    }
    let p = run_words::run_at::<S>(run);
    match split::part(p, S::from_number(number)) {
        Ok(next) => {
            run_words::put_run(part, next);
            0
        }
        Err(why) => why.number(),
    }
}
