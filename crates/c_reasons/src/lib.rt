// Why a pair is not in the ladder of a paused run, on lent words: what the C library's entries of these names do. Any slices are taken: a slice
// shorter than its layout is refused with 100 before anything else, and a refusal leaves every word as it was. Each entry is the function of either side
// for its own side. No function has a `requires`.
#![tactic(auto)]

ghost use Rattle.lists.specs.Lists.{gauge_side, case_side};
ghost use Rattle.runs.specs.Sides.{side_of};
ghost use Rattle.explain.specs.Reasons.{gauge_question, case_question, question_of};
ghost use Rattle.run_words.specs.Values.{side_word};
ghost use Rattle.c_reasons.specs.Serving.{Explains, ClaimsReasons};

use explain;
use run_words;
use run_words::RUN;
use table::{Case, Gauge, Side};
use words;
use words::SHORT;

// The words of a pick.
const PICK: usize = 1;

// The first picked gauge whose table row lacks the case.
// A pair of names for the two sides: C has no generic function.
pub fn explain_gauge(run: &[u64], gauge: u64, case: u64, pick: &mut [u64]) -> u64
    ensures explains { Explains gauge_side gauge_question 1 run.now gauge case pick.old pick.new result }
    ensures reasons { ClaimsReasons gauge_side gauge_question 1 run.now }
{
    explain_side::<Gauge>(run, gauge, case, pick)
}

// The first picked case that the pair's gauge does not respond under.
pub fn explain_case(run: &[u64], gauge: u64, case: u64, pick: &mut [u64]) -> u64
    ensures explains { Explains case_side case_question 2 run.now gauge case pick.old pick.new result }
    ensures reasons { ClaimsReasons case_side case_question 2 run.now }
{
    explain_side::<Case>(run, gauge, case, pick)
}

// Of either side.
fn explain_side<S: Side>(run: &[u64], gauge: u64, case: u64, pick: &mut [u64]) -> u64
    ensures explains { Explains (side_of S.CASES) (question_of S.CASES) (side_word S.CASES) run.now gauge case pick.old pick.new result }
    ensures reasons { ClaimsReasons (side_of S.CASES) (question_of S.CASES) (side_word S.CASES) run.now }
{
    if run.len() < RUN {
        return SHORT;
    }
    if pick.len() < PICK {
        return SHORT;
    }
    let p = run_words::run_at::<S>(run);
    match explain::explain(p, Gauge(gauge), Case(case)) {
        Ok(reason) => {
            words::put_word(pick, 0, reason.number());
            0
        }
        Err(why) => why.number(),
    }
}
