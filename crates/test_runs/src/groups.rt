// The tables: every one of the shapes up to 3 by 3, and some larger ones, which anyone can make again (02, R-13).
use super::tally::{Board, Tally};
use super::{grids, listed, plain};
use std::iter::successors;

const SEED: u64 = 88172645463325252;

// The shapes up to 3 by 3.
pub fn small(t: &mut Tally) {
    for gauges in 1..=3 {
        for cases in 1..=3 {
            shape(t, gauges, cases);
        }
    }
}

// The tables of a shape, of which there are at most 512.
fn shape(t: &mut Tally, gauges: u64, cases: u64) {
    let all = plain::full(gauges, cases);
    for pairs in successors(Some(0), |pairs| plain::next_subset(all, *pairs)).take(512) {
        listed::table(
            t,
            Board {
                gauges,
                cases,
                pairs,
            },
        );
    }
}

// Shapes up to 4 by 4 and 8 by 1.
pub fn larger(t: &mut Tally) {
    for (gauges, cases) in [(4, 4), (2, 5), (5, 2), (1, 8), (8, 1)] {
        sample(t, gauges, cases);
    }
}

// The first tables of the sample of a shape.
fn sample(t: &mut Tally, gauges: u64, cases: u64) {
    for k in 0..41 {
        let Ok(table) = samples::sample_table(gauges, cases, SEED ^ k, density(k)) else {
            return;
        };
        let pairs = grids::pairs_of(&table.rows);
        listed::table(
            t,
            Board {
                gauges,
                cases,
                pairs,
            },
        );
    }
}

// The first table has every place; then half of the places and three quarters by turns.
fn density(k: u64) -> u64 {
    match k {
        0 => 256,
        _ if k % 2 == 0 => 128,
        _ => 192,
    }
}
