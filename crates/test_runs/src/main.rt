// Both runs against a plain lister over all sets of pairs of small tables (01), and on larger tables whose lists are known by count. Each group writes
// one line with what it compared; a disagreement shows in its count, and the first of a group is written out before it. tests/compare has the
// same and more over the C library: every paused value, budget and preference, and the other entries.
//
// `plain` says what is due, from 01 alone; `sides` is the one file that names the types of the runs; `listed` compares; `tally` counts.
#![tactic(auto)]

use std::io;
use tally::Tally;

mod grids;
mod groups;
mod listed;
mod plain;
mod sides;
mod tally;

fn main(rt: HostRuntime) -> io::Result<()> {
    let mut small = Tally::default();
    groups::small(&mut small);
    small.sum_up(&rt, "all tables up to 3 by 3: ")?;
    let mut larger = Tally::default();
    groups::larger(&mut larger);
    larger.sum_up(&rt, "some larger tables: ")?;
    let mut known = Tally::default();
    for (n, ladders) in [(5, 120), (7, 5_040), (8, 40_320)] {
        listed::known(&mut known, n, ladders);
    }
    known.sum_up(&rt, "tables without the diagonal: ")
}
