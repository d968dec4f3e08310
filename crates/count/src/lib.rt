// Counting the ladders of a table before a run lists them (02, R-4): by recursion on the gauges not yet picked, one call for each pick
// sequence that the rules can reach under an order of the gauges (R-12), up to a budget of calls. Any table, any order and any budget are taken; 10,
// 11, 27 and 18 are refused. The one function that another crate can call has no `requires` and is lent no memory.
#![tactic(auto)]

ghost use Rattle.std.specs.Prelude.{◌≡◌, ◌<◌};
ghost use Rattle.std.specs.Int.Count.{ones};
ghost use Rattle.search.specs.Finding.{within};
ghost use Rattle.count.specs.Counting.{count_says, Counts};
ghost use Rattle.count.specs.private.Below.{below_all};

use preference;
use preference::GaugeOrder;
use refusals::Refusal;
use search;
use sets;
use table::Table;

// "The budget is 0 to 1,000,000 calls" (02).
const MOST_CALLS: u64 = 1_000_000;

// The places that there can be.
const PLACES: usize = 64;

// All 64 cases: the left cases before any pick.
const ALL: u64 = 0xffff_ffff_ffff_ffff;

// A count gone to its end: the ladders, and the calls made.
#[derive(Clone, Copy)]
pub struct Tally {
    pub ladders: u64,
    pub calls: u64,
}

// What counting answers; `Spent` has the calls made, which are the budget, and no count.
#[derive(Clone, Copy)]
pub enum Count {
    Counted(Tally),
    Spent(u64),
}

// How many ladders `t` has, by at most `budget` calls that go by an order of its gauges.
pub fn count_ladders(t: Table, order: GaugeOrder, budget: u64) -> Result<Count, Refusal>
    ensures { Counts t order.numbers budget (count_says result) }
{
    let numbers = order.numbers;
    preference::check(t, t.gauges, numbers)?;
    if MOST_CALLS < budget {
        return Err(Refusal::BudgetTooLarge);
    }
    if budget == 0 {
        return Ok(Count::Spent(budget));
    }
    let given = t.rows;
    let rows = preference::gather(&given, &numbers, t.gauges as usize);
    match count_below(&rows, sets::lowest(t.gauges), ALL, budget) {
        Some(tally) => Ok(Count::Counted(tally)),
        None => Ok(Count::Spent(budget)),
    }
}

// The count below a pick sequence, itself included: the call for that sequence, and one for each candidate after it. `unpicked` is the set
// of the gauges not yet picked, of which each call has one fewer, and `left` the left cases. None where the budget was used up there.
fn count_below(rows: &[u64; 64], unpicked: u64, left: u64, budget: u64) -> Option<Tally>
    requires { 0 < budget }
    ensures { result ≡ below_all budget (within unpicked rows.now) (ones unpicked) left }
{
    let mut g = search::next_candidate_of(rows, unpicked, left, 0);
    if PLACES <= g {
        return Some(Tally {
            ladders: 1,
            calls: 1,
        });
    }
    let mut ladders: u64 = 0;
    let mut calls: u64 = 1;
    // by hand: the next place is searched for, and not counted
    while g < PLACES {
        if calls == budget {
            return None;
        }
        let fewer = sets::without(unpicked, g as u64);
        let tally = count_below(rows, fewer, rows[g] & left, budget - calls)?;
        ladders += tally.ladders;
        calls += tally.calls;
        g = search::next_candidate_of(rows, unpicked, left, g + 1);
    }
    Some(Tally { ladders, calls })
}
