// The search for a cover of least number (02, R-7), on boards: "For k = 0, 1, 2 and on, the search tries each ladder
// that holds the first uncovered pair, none at k = 0, and under it starts over with what is still uncovered and k -
// 1; it stops as soon as nothing is uncovered." One function for each uncovered set, one for each next ladder; they
// call each other, falling on k and on the ladders. Any boards and any budget are taken, nothing is refused, and no
// memory that is lent to the public function changes.
#![tactic(auto)]

ghost use Rattle.std.specs.Prelude.{◌+◌, ◌≤◌, ◌<◌};
ghost use Rattle.cover_search.specs.Spending.{spend, no_boards, up_to, Finds};
ghost use Rattle.cover_search.specs.private.Trying.{covering, trying};

use sets;

// The ladders that a cover can have.
const MOST: usize = 8;

// What a search that may try so many ladders finds.
#[derive(Clone, Copy)]
pub enum Search {
    // a cover: how many ladders may still be tried, and the ladders that it has
    Cover(u64, usize),
    // none: how many ladders may still be tried
    Nothing(u64),
    // it needs more
    Spent,
}

// What the search found, and the cover, padded with zeros. The cover stands beside the answer, and not in it: `Finds`, which the promise says, speaks of
// the list after every answer, zeros where there is none.
#[derive(Clone, Copy)]
pub struct Found {
    pub search: Search,
    pub cover: [u64; 8],
}

// An uncovered set under which each ladder is tried: its first pair, how many more ladders there may be, and the ladder's place in the cover.
#[derive(Clone, Copy)]
struct Step {
    left: u64,
    first: u64,
    k: usize,
    at: usize,
}

// The first cover of the places `left` by as few of the boards as do, at most 8, which tries at most `budget` of them.
pub fn least_cover(ladders: &[u64], left: u64, budget: u64) -> Found
    ensures { Finds 0 (spend budget (up_to ladders.now left 0 8)) no_boards result.search result.cover }
{
    let mut cover = [0u64; 8];
    let mut rest = budget;
    for k in 0..MOST {
        let found = cover_left(ladders, left, k, 0, &mut cover, rest);
        match found {
            Search::Cover(_, _) => {
                return Found {
                    search: found,
                    cover: cover,
                };
            }
            Search::Nothing(more) => rest = more,
            Search::Spent => {
                return Found {
                    search: found,
                    cover: cover,
                };
            }
        }
    }
    let last = cover_left(ladders, left, MOST, 0, &mut cover, rest);
    Found {
        search: last,
        cover: cover,
    }
}

// One uncovered set: at most `k` of the boards cover `left`; they are put into `cover` from place `at` on.
#[cycle(cover_left_next_ladder)]
fn cover_left(
    ladders: &[u64],
    left: u64,
    k: usize,
    at: usize,
    cover: &mut [u64; 8],
    budget: u64,
) -> Search
    requires { at + k ≤ 8 }
    ensures { Finds at (spend budget (covering ladders.now k left)) cover.old result cover.new }
{
    if left == 0 {
        return Search::Cover(budget, at);
    }
    let first = sets::first(left);
    if k == 0 {
        return Search::Nothing(budget);
    }
    let step = Step {
        left,
        first: first as u64,
        k: k - 1,
        at,
    };
    next_ladder(ladders, 0, step, cover, budget)
}

// One next ladder: the boards from place `i` on, each that holds the first uncovered pair in turn, and under it at
// most `step.k` more.
#[cycle(cover_left_next_ladder)]
fn next_ladder(ladders: &[u64], i: usize, step: Step, cover: &mut [u64; 8], budget: u64) -> Search
    requires { step.at + step.k < 8 }
    ensures { Finds step.at (spend budget (trying ladders.now i step.first step.left step.k)) cover.old result cover.new }
{
    if ladders.len() <= i {
        return Search::Nothing(budget);
    }
    let ladder = ladders[i];
    if !sets::has(ladder, step.first) {
        return next_ladder(ladders, i + 1, step, cover, budget);
    }
    if budget == 0 {
        return Search::Spent;
    }
    let below = cover_left(
        ladders,
        step.left & !ladder,
        step.k,
        step.at + 1,
        cover,
        budget - 1,
    );
    match below {
        Search::Cover(_, _) => {
            cover[step.at] = ladder;
            below
        }
        Search::Nothing(more) => next_ladder(ladders, i + 1, step, cover, more),
        Search::Spent => below,
    }
}
