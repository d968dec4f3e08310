// Picks handed in (01, "Moves of a run"): whether they can have been made one after the other, each a candidate after
// those before it, judged in one pass over the picks and one over what is unpicked then. Any rows and any picks are
// taken, nothing is refused, and what is lent is only read; the theory is proofs/Replaying.antt of crate `lists`.
#![tactic(auto)]

ghost use Rattle.replay.specs.Picked.{Replays};
ghost use Rattle.replay.specs.private.Steps.{Judges, Against, NoneAgainst};

use sets;
use sets::Places;
use table::Table;

// The picks that there can be.
const PLACES: usize = Table::MOST_GAUGES as usize;

// All 64 cases: the left cases before any pick.
const ALL: u64 = 0xffff_ffff_ffff_ffff;

// After picks that can have been made: the places that are unpicked, and the left cases.
#[derive(Clone, Copy)]
pub struct Replayed {
    pub unpicked: u64,
    pub left: u64,
}

// Makes the first `count` picks again, on the first `n` rows; none where they cannot have been made.
pub fn replay(rows: &[u64; 64], n: usize, picks: &[u8; 64], count: usize) -> Option<Replayed>
    ensures { Replays n rows.now picks.now count result }
{
    if PLACES < count {
        return None;
    }
    let mut unpicked = sets::lowest(n as u64);
    let mut left = ALL;
    let mut before = ALL;
    let mut last: usize = 0;
    for i in 0..count {
        let number = usize::from(picks[i]);
        if number == 0 {
            return None;
        }
        let g = number - 1;
        if !sets::has(unpicked, g as u64) {
            return None;
        }
        let row = rows[g];
        let own = row & left;
        if own == 0 {
            return None;
        }
        before = judge(row, own, before, left, last, g)?;
        unpicked = sets::without(unpicked, g as u64);
        left = own;
        last = number;
    }
    if !none_against(rows, unpicked, left, before, last) {
        return None;
    }
    Some(Replayed { unpicked, left })
}

// A pick that leaves fewer cases starts anew; one that has all left cases has left the same as the last picks, and
// comes after the last; no other pick can have been made. The answer is the cases before the last picks that left the same.
// `left`, `before` and `last` go on to two functions below as three numbers: in a struct they would be taken apart again at each comparison.
fn judge(row: u64, own: u64, before: u64, left: u64, last: usize, g: usize) -> Option<u64>
    ensures { Judges row own before left last g result }
{
    if own != left {
        return Some(left);
    }
    if (row & before) != left {
        return None;
    }
    if g < last {
        return None;
    }
    Some(before)
}

// No unpicked gauge is against the picks made.
fn none_against(rows: &[u64; 64], unpicked: u64, left: u64, before: u64, last: usize) -> bool
    ensures { NoneAgainst rows.now unpicked left before last result }
{
    for h in Places(unpicked) {
        if against(rows[h], left, before, last, h) {
            return false;
        }
    }
    true
}

// A gauge that has all left cases goes with the picks made where it leaves the same as the last ones, and comes after
// the last.
fn against(row: u64, left: u64, before: u64, last: usize, h: usize) -> bool
    ensures { Against row left before last h result }
{
    if (row & left) != left {
        return false;
    }
    if (row & before) != left {
        return true;
    }
    h < last
}
