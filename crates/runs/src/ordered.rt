// The core under a preference (02, R-12): a call that goes by place in an order of the side's numbers, of any order
// that is handed in. The plain order 1, 2, 3, .. goes straight to the core. For another one the rows are gathered as
// it has them and the picks turned into places, so that on these the core's order by number is the order by place;
// then the picks and the chain go back by number. Below both sides, as the core is.
ghost use Rattle.std.specs.Prelude.{◌≡◌, true, take};
ghost use Rattle.table.specs.Tables.{padded};
ghost use Rattle.preference.specs.Preferences.{is_preference, order_of, numbers_of};
ghost use Rattle.preference.specs.Placing.{inverse, gathered};
ghost use Rattle.runs.specs.Paused.{mode_phase};
ghost use Rattle.runs.specs.private.Working.{Sized, InOrder, omits, wanted_in, gathered_wanted, move_by, CarriesOn, renumbered_phase};
ghost use Rattle.runs.specs.private.Core.{rows_of, rule_under};

use crate::engine::{Report, Spot};
use crate::work::{Asked, Walk, Work};
use crate::{Phase, engine};
use preference;
use refusals::Refusal;

// A call on the value of a walk's picks, under the order of the rows: 27, 15 and 18 as 02 and 01 have them, else up to
// `budget` moves. The walk has then the chain of the picks after the moves, and the picks of the next value.
pub fn call(work: &Work, order: &[u8; 64], walk: &mut Walk, asked: Asked) -> Result<Report, Refusal>
    ensures { InOrder (rule_under work.now) work.now.n (rows_of work.now) order.now walk.old.picks asked.count
        (mode_phase asked.mode) asked.budget walk.new.chain walk.new.picks result }
{
    if preference::is_plain(order, work.n) {
        return engine::call(work, walk, asked);
    }
    by_order(work, order, walk, asked)
}

// The same for any order, placed first. It is not inlined: then `call` is small, becomes part of both sides' calls, and
// the plain order 1, 2, 3, .. costs no call on the way to the core.
#[inline(never)]
fn by_order(work: &Work, order: &[u8; 64], walk: &mut Walk, asked: Asked) -> Result<Report, Refusal>
    ensures { InOrder (rule_under work.now) work.now.n (rows_of work.now) order.now walk.old.picks asked.count
        (mode_phase asked.mode) asked.budget walk.new.chain walk.new.picks result }
{
    let Some(places) = preference::place_all(*order, work.n) else {
        return Err(Refusal::NotAnArrangement);
    };
    by_place(work, order, &places, walk, asked)
}

// The call on the gathered rows and the picks by place, and back.
fn by_place(
    work: &Work,
    order: &[u8; 64],
    places: &[u8; 64],
    walk: &mut Walk,
    asked: Asked,
) -> Result<Report, Refusal>
    requires { (is_preference work.now.n order.now ≡ true) × (places.now ≡ numbers_of (inverse (order_of work.now.n order.now))) }
    ensures { InOrder (rule_under work.now) work.now.n (rows_of work.now) order.now walk.old.picks asked.count
        (mode_phase asked.mode) asked.budget walk.new.chain walk.new.picks result }
{
    let n = work.n;
    let arranged = preference::gather(work.rows, order, n);
    let made = preference::renumber(walk.picks, places, n);
    walk.picks = made;
    let mode = renumbered(places, n, asked.mode);
    let at = Asked {
        count: asked.count,
        mode,
        budget: asked.budget,
    };
    let report = call_arranged(&arranged, work, order, walk, at)?;
    walk.picks = preference::renumber(walk.picks, order, n);
    walk.chain = preference::gather(&walk.chain, places, n);
    let spot = report.spot;
    let after = spot.mode;
    let outcome = report.outcome;
    let next = Spot {
        count: spot.count,
        unpicked: spot.unpicked,
        left: spot.left,
        mode: renumbered(order, n, after),
    };
    Ok(Report {
        outcome: outcome,
        moves: report.moves,
        spot: next,
    })
}

// The core's call on the side's rows as the order has them.
fn call_arranged(
    arranged: &[u64; 64],
    work: &Work,
    order: &[u8; 64],
    walk: &mut Walk,
    asked: Asked,
) -> Result<Report, Refusal>
    requires { Sized work.now.n arranged.now }
    ensures { CarriesOn (move_by (take work.now.n arranged.now) (omits work.now.wanted)
        (padded (gathered work.now.n (wanted_in work.now.wanted) order.now)))
        (take work.now.n arranged.now) walk.old.picks asked.count (mode_phase asked.mode) asked.budget walk.new.chain walk.new.picks result }
{
    let gathered = gather_wanted(work, order);
    let wanted = gathered.as_ref();
    let placed = Work {
        rows: arranged,
        n: work.n,
        wanted,
        turned: work.turned,
        gauges: work.gauges,
    };
    engine::call(&placed, walk, asked)
}

// The pairs that are wanted, as the order has the rows: they are gathered only where the run omits.
pub fn gather_wanted(work: &Work, order: &[u8; 64]) -> Option<[u64; 64]>
    ensures { result ≡ gathered_wanted work.now.wanted work.now.n order.now }
{
    let wanted = work.wanted?;
    Some(preference::gather(wanted, order, work.n))
}

// A mode with the number of a pick that was taken back as the array has it; a match as in `paused::mode_of`, for the reason there.
pub fn renumbered(numbers: &[u8; 64], n: usize, mode: Phase<usize>) -> Phase<usize>
    ensures { mode_phase result ≡ renumbered_phase numbers.now n (mode_phase mode) }
{
    match mode {
        Phase::Down => Phase::Down,
        Phase::Handed => Phase::Handed,
        Phase::Back(number) => Phase::Back(preference::renumber_one(numbers, n, number)),
        Phase::Ended => Phase::Ended,
    }
}
