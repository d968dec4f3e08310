// Splitting a long listing into parts: the candidates after a part's picks, and the paused value of the part that has one of them as a pick more. A part is a
// paused value in the phase Down, and a fresh start's value is the whole list; its own list is the ladders whose pick sequences start with its picks, and
// run calls from it hand these out, up to the first hand-out whose sequence does not start so, or an end. The run is of either side, `Gauge` or `Case`. Each
// step is over checks of crate `runs`, which make no move: whether a number can be picked next is whether they let the value with that pick pass. Any value
// is taken: 10, 11, 27 and 15 are refused; no function that another crate can call has a `requires`, and nothing is lent.
#![tactic(auto)]

ghost use Rattle.std.specs.Prelude.{◌≡◌, ◌≤◌, ◌<◌};
ghost use Rattle.runs.specs.Paused.{value_of};
ghost use Rattle.runs.specs.Sides.{side_of};
ghost use Rattle.split.specs.Entries.{CandidatesAt, PartAt, SplitsAt, candidates_of, part_of};
ghost use Rattle.split.specs.Listing.{ListsPart};
ghost use Rattle.split.specs.Whole.{ListsWhole};
ghost use Rattle.split.specs.private.Trying.{one_more, TriedAt, TakesAt, FoundAt};

use refusals::Refusal;
use runs::{Phase, Picks, Run};
use table::{Side, Table};

// How many picks a value has room for.
const PLACES: u64 = Table::MOST_GAUGES;

const ROOM: usize = Table::MOST_GAUGES as usize;

// The candidates after the picks of `p`, whose phase is Down, in the order of the value's preference, padded with zeros: each names one of the parts that `p`
// is split into; where there is none, `p` has one ladder and is not split. The lists of these parts are, one after the other, the list of `p`, and run calls
// from `p` hand that out. So they do where parts are split on, as often as one likes: what run calls hand out of the parts that are left, each run to its
// close, is the list of `p`, one part after the other.
pub fn candidates<S: Side>(p: Run<S>) -> Result<Picks<S>, Refusal>
    ensures candidates_at { CandidatesAt (side_of S.CASES) (value_of S.number p) (candidates_of result) }
    ensures splits { SplitsAt (side_of S.CASES) (value_of S.number p) }
    ensures lists { ListsPart (side_of S.CASES) (value_of S.number p) }
    ensures whole { ListsWhole (side_of S.CASES) (value_of S.number p) }
{
    p.check_down()?;
    let preferred = p.order.numbers;
    let picks = next_picks(p, size::<S>(p.table), &preferred);
    Ok(Picks::new(picks))
}

// The part of `run` that has the candidate `pick` as a pick more: a value that run calls take, in the phase Down. They hand out its list.
pub fn part<S: Side>(run: Run<S>, pick: S) -> Result<Run<S>, Refusal>
    ensures part_at { PartAt (side_of S.CASES) (value_of S.number run) (S.number pick) (part_of S.number result) }
    ensures lists { ListsPart (side_of S.CASES) (part_of S.number result).value }
{
    run.check_down()?;
    try_pick(run, pick.number())
}

// How many numbers the side has.
fn size<S: Side>(t: Table) -> usize
    ensures { result ≡ (side_of S.CASES t).count }
{
    if S::CASES {
        t.cases as usize
    } else {
        t.gauges as usize
    }
}

// The numbers of its order that can be picked, in turn.
fn next_picks<S: Side>(p: Run<S>, n: usize, order: &[u8; 64]) -> [u8; 64]
    requires { (n ≡ (side_of S.CASES p.table).count) × (order.now ≡ p.order.numbers) }
    ensures { FoundAt (side_of S.CASES) (value_of S.number p) result }
{
    let mut picks = [0u8; 64];
    let mut found: usize = 0;
    for i in 0..n.min(ROOM) {
        if takes_pick(p, order[i]) {
            picks[found] = order[i];
            found += 1;
        }
    }
    picks
}

// Whether a number can be picked next.
fn takes_pick<S: Side>(p: Run<S>, g: u8) -> bool
    ensures { TakesAt (side_of S.CASES) (value_of S.number p) g result }
{
    try_pick(p, g as u64).is_ok()
}

// The value with one pick more, where the checks let it pass.
fn try_pick<S: Side>(p: Run<S>, g: u64) -> Result<Run<S>, Refusal>
    ensures tried_at { TriedAt (side_of S.CASES) (value_of S.number p) g (part_of S.number result) }
    ensures lists { ListsPart (side_of S.CASES) (part_of S.number result).value }
{
    if PLACES <= p.count {
        return Err(Refusal::NotReached);
    }
    if PLACES < g {
        return Err(Refusal::NotReached);
    }
    let next = one_more(p, g);
    match next.check_down() {
        Ok(()) => Ok(next),
        Err(_) => Err(Refusal::NotReached),
    }
}

// The value with one pick more.
fn one_more<S: Side>(p: Run<S>, g: u64) -> Run<S>
    requires { (p.count < 64) × (g ≤ 64) }
    ensures { value_of S.number result ≡ one_more (value_of S.number p) g }
{
    let mut picks = p.picks.numbers;
    picks[p.count as usize] = g as u8;
    let mut next = p;
    next.picks = Picks::new(picks);
    next.count += 1;
    next.phase = Phase::Down;
    next
}
