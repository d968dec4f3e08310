// Many ladders in one call: a batch. The value is checked once, and the core goes on from a held spot, call after
// call, each with the moves that are left; each ladder handed out is written by gauge rows behind the ones before it.
// Below both sides, as the core is.
ghost use Rattle.std.specs.Prelude.{◌≡◌, true, None, ◌+◌, ◌/◌, ◌≤◌, ◌<◌, length, take, get_or};
ghost use Rattle.table.specs.Tables.{padded};
ghost use Rattle.rules.specs.Calls.{most_budget};
ghost use Rattle.preference.specs.Preferences.{is_preference, order_of, numbers_of};
ghost use Rattle.preference.specs.Placing.{inverse, gathered};
ghost use Rattle.runs.specs.Paused.{mode_phase};
ghost use Rattle.runs.specs.private.Working.{FitsOn, state_of};
ghost use Rattle.runs.specs.private.Core.{rows_of, rule_of, rule_under, is_plain, places_in, ladder_by, HoldsOn};
ghost use Rattle.runs.specs.private.Listing.{Puts, Hands, words_of, Lists, ListsBy, ListsIn};

use crate::engine::{Spot, Stop};
use crate::work::{Asked, Walk, Work};
use crate::{engine, ordered};
use preference;
use refusals::Refusal;
use transpose;

// What a batch gives: how it stopped, how many ladders it handed out, how many moves it made, and where the run is
// then; none is blank, however it stopped.
#[derive(Clone, Copy)]
pub struct Tally {
    pub outcome: Stop,
    pub ladders: u64,
    pub moves: u64,
    pub spot: Spot,
}

// What is done with the ladders of the calls: how many are asked for, whether they are written, and where the rows went by place, the places of the
// numbers, by which they are written by number again.
#[derive(Clone, Copy)]
pub struct Form<'a> {
    pub ladders: usize,
    pub writing: bool,
    pub places: Option<&'a [u8; 64]>,
}

// A batch on the value of some picks, under the order of the rows.
pub fn call(
    work: &Work,
    order: &[u8; 64],
    picks: &mut [u8; 64],
    asked: Asked,
    out: &mut [u64],
) -> Result<Tally, Refusal>
    ensures { ListsIn (rule_under work.now) (ladder_by work.now None) (length out.old / work.now.gauges) work.now.n
        (rows_of work.now) order.now picks.old asked.count (mode_phase asked.mode) asked.budget out.old picks.new out.new result }
{
    if preference::is_plain(order, work.n) {
        return list(work, None, picks, asked, out);
    }
    let Some(places) = preference::place_all(*order, work.n) else {
        return Err(Refusal::NotAnArrangement);
    };
    by_place(work, order, &places, picks, asked, out)
}

// The batch on the gathered rows and the picks by place, and back.
fn by_place(
    work: &Work,
    order: &[u8; 64],
    places: &[u8; 64],
    picks: &mut [u8; 64],
    asked: Asked,
    out: &mut [u64],
) -> Result<Tally, Refusal>
    requires { (is_preference work.now.n order.now ≡ true) × (places.now ≡ numbers_of (inverse (order_of work.now.n order.now))) }
    ensures { ListsIn (rule_under work.now) (ladder_by work.now None) (length out.old / work.now.gauges) work.now.n
        (rows_of work.now) order.now picks.old asked.count (mode_phase asked.mode) asked.budget out.old picks.new out.new result }
{
    let n = work.n;
    let rows = preference::gather(work.rows, order, n);
    let gathered = ordered::gather_wanted(work, order);
    let wanted = gathered.as_ref();
    let arranged = Work {
        rows: &rows,
        n,
        wanted,
        turned: work.turned,
        gauges: work.gauges,
    };
    let mut made = preference::renumber(*picks, places, n);
    let mode = ordered::renumbered(places, n, asked.mode);
    let at = Asked {
        count: asked.count,
        mode,
        budget: asked.budget,
    };
    let tally = list(&arranged, Some(places), &mut made, at, out)?;
    *picks = preference::renumber(made, order, n);
    let spot = tally.spot;
    let after = spot.mode;
    let outcome = tally.outcome;
    let next = Spot {
        count: spot.count,
        unpicked: spot.unpicked,
        left: spot.left,
        mode: ordered::renumbered(order, n, after),
    };
    Ok(Tally {
        outcome: outcome,
        ladders: tally.ladders,
        moves: tally.moves,
        spot: next,
    })
}

// The checks, and then the calls.
#[tactic(auto, using(crate::proofs::Words::words_fit))]
fn list(
    work: &Work,
    places: Option<&[u8; 64]>,
    picks: &mut [u8; 64],
    asked: Asked,
    out: &mut [u64],
) -> Result<Tally, Refusal>
    ensures { ListsBy (rule_of work.now) (FitsOn (rows_of work.now)) (ladder_by work.now places.entry)
        (length out.old / work.now.gauges) picks.old asked.count (mode_phase asked.mode) asked.budget out.old picks.new out.new result }
{
    let mut walk = Walk {
        chain: [0; 64],
        picks: *picks,
    };
    let at = engine::open(work, &mut walk.chain, picks, asked)?;
    let form = Form {
        ladders: out.len() / work.gauges,
        writing: true,
        places,
    };
    let tally = list_on(work, &form, &mut walk, at, asked.budget, out);
    *picks = walk.picks;
    Ok(tally)
}

// Calls from a held spot, each with the moves that are left, until so many ladders are handed out or a call hands
// none out. A batch writes each ladder behind the ones before it; a run call is for one, and it is not written. One
// loop for both: the compiler puts the moves into it where it is their only caller, and a ladder of a batch takes a
// third less time so. Lent structs cost a batch of gauges 6 % more instructions than 15 parameters did, by values that
// the compiler keeps in memory, and no more time; with a side of its own here instead of the lent one it is the same.
pub fn list_on(
    work: &Work,
    form: &Form,
    walk: &mut Walk,
    at: Spot,
    budget: u64,
    out: &mut [u64],
) -> Tally
    requires { (HoldsOn work.now walk.old at) × (budget ≤ most_budget)
        × (form.now.writing ≡ true → words_of work.now.gauges form.now.ladders ≤ length out.old) }
    ensures { Lists form.now.writing (rule_of work.now) (ladder_by work.now form.now.places) work.now.n
        work.now.rows.now form.now.ladders budget (state_of walk.old.picks at) out.old walk.new.chain walk.new.picks out.new result }
{
    let mut room = form.ladders;
    let mut spot = at;
    let mut left = budget;
    let mut place: usize = 0;
    // the room is used up, and a call that hands none out leaves the rest: no index is counted
    while 0 < room {
        let report = engine::advance(work, walk, spot, left);
        let outcome = report.outcome;
        let next = report.spot;
        let rest = left - report.moves;
        let Stop::HandedOut = outcome else {
            return Tally {
                outcome: outcome,
                ladders: (form.ladders - room) as u64,
                moves: budget - rest,
                spot: next,
            };
        };
        spot = next;
        left = rest;
        if form.writing {
            hand(work, form, &walk.chain, out, place);
            place += work.gauges;
        }
        room -= 1;
    }
    Tally {
        outcome: Stop::HandedOut,
        ladders: form.ladders as u64,
        moves: budget - left,
        spot: spot,
    }
}

// The ladder of a chain by gauge rows, at a place of the buffer.
fn hand(work: &Work, form: &Form, chain: &[u64; 64], out: &mut [u64], at: usize)
    requires { at + work.now.gauges ≤ length out.old }
    ensures { Hands work.now.turned (is_plain form.now.places) chain.now (places_in form.now.places) work.now.n work.now.gauges out.old at out.new }
{
    let Some(places) = form.places else {
        if work.turned {
            transpose::transpose_into(chain, work.n, work.gauges, out, at);
            return;
        }
        put(chain, work.gauges, out, at);
        return;
    };
    if work.turned {
        let numbered = preference::gather(chain, places, work.n);
        transpose::transpose_into(&numbered, work.n, work.gauges, out, at);
        return;
    }
    put_numbered(chain, places, work.n, work.gauges, out, at);
}

// The first `many` rows, at a place of the buffer.
#[tactic(auto, using(crate::proofs::Words::puts_front))]
fn put(rows: &[u64; 64], many: usize, out: &mut [u64], at: usize)
    requires { (at + many ≤ length out.old) × (many ≤ 64) }
    ensures { Puts out.old at (take many rows.now) out.new }
{
    out[at..at + many].copy_from_slice(&rows[..many]);
}

// The first `many` of the rows by number again, straight into the buffer: no array is cleared and copied.
#[tactic(auto, using(crate::proofs::Words::puts_more, crate::proofs::Turns::gathered_long))]
fn put_numbered(
    rows: &[u64; 64],
    places: &[u8; 64],
    n: usize,
    many: usize,
    out: &mut [u64],
    at: usize,
)
    requires { (at + many ≤ length out.old) × (many ≤ 64) }
    ensures { Puts out.old at (take many (padded (gathered n rows.now places.now))) out.new }
{
    for i in 0..many {
        out[at + i] = numbered(rows, places, n, i);
    }
}

// The row of index `i` by number; none behind the `n` rows.
#[tactic(auto, using(crate::proofs::Turns::numbered_row, crate::proofs::Turns::numbered_past))]
fn numbered(rows: &[u64; 64], places: &[u8; 64], n: usize, i: usize) -> u64
    requires { i < 64 }
    ensures { result ≡ get_or (padded (gathered n rows.now places.now)) i 0 }
{
    if i < n {
        return preference::row_numbered(rows, places[i]);
    }
    0
}
