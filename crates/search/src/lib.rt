// Finding candidates (01, "Moves of a run"), once for both runs and for growing: whether a place is one, and the lowest from a place on.
// The unpicked gauges are a set of places beside the rows; `left` is the set of left cases. proofs/AfterPicks.antt says that these are then 01's
// candidates. Any numbers are taken, nothing is refused, and no memory that is lent changes.
#![tactic(auto)]

ghost use Rattle.std.specs.Prelude.{◌≡◌, ◌<◌, true};
ghost use Rattle.sets.specs.Sets.{bit};
ghost use Rattle.search.specs.Finding.{blocks as blocks_in, candidate_in, FirstOf, within};

use sets;
use sets::Places;
use table::Table;

// The places that there can be.
const PLACES: usize = Table::MOST_GAUGES as usize;

// Whether place `g` is in the set, and its gauge a candidate among those of the set.
pub fn is_candidate_of(rows: &[u64; 64], set: u64, left: u64, g: usize) -> bool
    ensures { result ≡ candidate_in (within set rows.now) left 64 g }
{
    if !sets::has(set, g as u64) {
        return false;
    }
    stands(rows, set, left, g)
}

// The lowest candidate from place `from` on, of the places in the set; 64 where there is none.
// A number for none: `FirstOf` of specs/Finding, by which the runs and growing go, says the answer as the end of a range.
pub fn next_candidate_of(rows: &[u64; 64], set: u64, left: u64, from: usize) -> usize
    ensures { FirstOf (candidate_in (within set rows.now) left 64) from 64 result }
{
    let places = sets::upper(set, from as u64);
    for g in Places(places) {
        if stands(rows, set, left, g) {
            return g;
        }
    }
    PLACES
}

// A place of the set: something is left of its gauge, and no gauge of the set rules it out.
fn stands(rows: &[u64; 64], set: u64, left: u64, g: usize) -> bool
    requires { (g < 64) × (bit set g ≡ true) }
    ensures { result ≡ candidate_in (within set rows.now) left 64 g }
{
    let own = rows[g] & left;
    if own == 0 {
        return false;
    }
    for h in Places(set) {
        if blocks(own, rows[h] & left, h < g) {
            return false;
        }
    }
    true
}

// An unpicked gauge with the remainder `other` rules out one with the remainder `own`: it has more cases, or the same and is lower.
#[tactic(auto, unfolding(crate::specs::Finding::blocks))]
fn blocks(own: u64, other: u64, lower: bool) -> bool
    ensures { result ≡ blocks_in own other lower }
{
    if !sets::subset(own, other) {
        return false;
    }
    if own != other {
        return true;
    }
    lower
}
