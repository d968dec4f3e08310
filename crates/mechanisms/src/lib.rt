// Fewest mechanisms (02, R-7): the least number of ladders that together hold every pair of a table of up to 8 by 8, and the first cover of
// that number. Any table and any budget are taken; 10, 11, 18, 23 and 24 are refused. The one function that another crate can call has no
// `requires` and is lent no memory. The search is in `cover_search`, on the boards of `boards`; the ladders come from the gauge run.
#![tactic(auto)]

ghost use Rattle.std.specs.Prelude.{◌≡◌, ◌≤◌, length, take, MatchOption};
ghost use Rattle.runs.specs.Paused.{gauge_value};
ghost use Rattle.mechanisms.specs.Covering.{fewest, fewest_says, no_chains, most_ladders, Covers};
ghost use Rattle.mechanisms.specs.private.Steps.{SmallTable, Ends, Hands, Lists, Ready, Answers, shown};

use boards;
use cover_search;
use cover_search::Search;
use preference::GaugeOrder;
use refusals::Refusal;
use runs::{GaugeRun, Outcome};
use table;
use table::{Chain, Table};

// "The budget is 0 to 1,000,000 ladders tried" (02).
const MOST_TRIED: u64 = 1_000_000;

// "23: G or L above 8, then 24: more than 1,024 ladders" (02).
const MOST_SIDE: u64 = 8;

const MOST_LADDERS: usize = 1_024;

// The moves asked of one call of the run: the greatest budget, with which it hands a ladder out or ends.
const MOVES: u64 = 1_000_000;

// A cover of the least number: how many ladders it has, the ladders tried, and the cover, with blank chains behind it.
// An array with its number, and no `Vec`: the library has fixed memory and no heap.
#[derive(Clone, Copy, Debug, PartialEq, Eq)]
pub struct Cover {
    pub number: u64,
    pub tried: u64,
    pub chains: [Chain; 8],
}

// What the search answers: a cover, or that the budget did not do, with the budget as the ladders tried.
#[derive(Clone, Copy, Debug, PartialEq, Eq)]
pub enum Fewest {
    Covered(Cover),
    Spent(u64),
}

// The fewest ladders of `t` that hold every pair, by trying at most `budget` ladders.
pub fn fewest_ladders(t: Table, budget: u64) -> Result<Fewest, Refusal>
    ensures { Covers t budget (fewest result) }
{
    table::check_table(t)?;
    if MOST_TRIED < budget {
        return Err(Refusal::BudgetTooLarge);
    }
    if MOST_SIDE < t.gauges {
        return Err(Refusal::CoverShape);
    }
    if MOST_SIDE < t.cases {
        return Err(Refusal::CoverShape);
    }
    let mut ladders = [0u64; 1024];
    let count = list_ladders(t, &mut ladders);
    if MOST_LADDERS < count {
        return Err(Refusal::TooManyChains);
    }
    Ok(search(t, &ladders[..count], budget))
}

// The boards of the ladders of `t`, in gauge order, and how many there are; 1,025 where there are more than 1,024. No `Option`: the comparison with 1,024
// in `fewest_ladders`, which the edit `refused_at_1024` turns, bounds the slice there, and would become a clause here.
fn list_ladders(t: Table, ladders: &mut [u64; 1024]) -> usize
    requires small_table { SmallTable t }
    requires room { length ladders.old ≡ most_ladders }
    ensures { Lists t result ladders.new }
{
    // the table was checked and the order is plain, so that nothing is refused
    let mut run = GaugeRun::start(t, GaugeOrder::plain(t.gauges), false).unwrap();
    for n in 0..MOST_LADDERS {
        let Some(board) = next_ladder(&mut run) else {
            return n;
        };
        ladders[n] = board;
    }
    match next_ladder(&mut run) {
        Some(_) => MOST_LADDERS + 1,
        None => MOST_LADDERS,
    }
}

// One call of the run: the board of the ladder that it handed out, or none where the run is over. The run is lent: handed back beside the board it is copied once
// more a call.
fn next_ladder(run: &mut GaugeRun) -> Option<u64>
    ensures { MatchOption result (Ends (gauge_value run.old)) (λ board. Hands (gauge_value run.old) board (gauge_value run.new)) }
{
    match run.call(MOVES) {
        Ok(step) => match step.outcome {
            Outcome::HandedOut(ladder) => {
                *run = step.next;
                Some(boards::board_of(&ladder.chain.rows))
            }
            Outcome::Spent => None,
            Outcome::End => None,
        },
        Err(_) => None,
    }
}

// The search, where the boards are those of the ladders of `t`.
fn search(t: Table, ladders: &[u64], budget: u64) -> Fewest
    requires { Ready t ladders.now }
    ensures { Answers t budget (fewest_says result) }
{
    let rows = t.rows;
    let found = cover_search::least_cover(ladders, boards::board_of(&rows), budget);
    let search = found.search;
    let cover = found.cover;
    match search {
        Search::Cover(rest, count) => covered(t.gauges, cover, count, budget - rest),
        Search::Nothing(_) => Fewest::Spent(budget),
        Search::Spent => Fewest::Spent(budget),
    }
}

// A cover: the first `count` boards, as chains of `gauges` rows.
fn covered(gauges: u64, found: [u64; 8], count: usize, tried: u64) -> Fewest
    requires { count ≤ 8 }
    ensures { fewest_says result ≡ shown gauges (take count found) count tried }
{
    let mut chains = no_chains();
    for i in 0..count {
        chains[i] = boards::chain_of(found[i], gauges);
    }
    Fewest::Covered(Cover {
        number: count as u64,
        tried,
        chains,
    })
}

// The chains of a cover, all blank.
fn no_chains() -> [Chain; 8]
    ensures { result ≡ no_chains }
{
    let blank = table::blank_chain();
    [blank; 8]
}
