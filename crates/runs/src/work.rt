// What the functions of the core hand on to one another: the side that they work on, the chain and the picks that the moves change, and what is asked of
// a call beside these.
ghost use Rattle.std.specs.Prelude.{◌≡◌, ◌≤◌, length};
ghost use Rattle.runs.specs.private.Working.{Sized, wanted_in};

use crate::Phase;

// A side of a table: the first `n` of the rows are its own. Of a run that omits, `wanted` has by these rows the pairs of which a chain must hold one to be
// handed over. `turned` says whether the rows are the table's cases, and `gauges` is the number of rows of a ladder. The count stands
// beside an array, as it does in a table: fixed memory.
#[derive(Drop)]
pub struct Work<'a, 'w> {
    pub rows: &'a [u64; 64],
    pub n: usize,
    pub wanted: Option<&'w [u64; 64]>,
    pub turned: bool,
    pub gauges: usize,
    ghost sized: { Sized n rows.now },
    ghost long: { length (wanted_in wanted) ≡ 64 },
    ghost some: { 1 ≤ gauges },
    ghost few: { gauges ≤ 64 },
}

// The chain of the picks, which is also where the left cases are found again when a pick is taken back, and the picks by number. That these go with a spot
// (`HoldsOn`) is a clause of four functions and no ghost field: a move writes the chain and the picks before it has its spot.
#[derive(Drop)]
pub struct Walk {
    pub chain: [u64; 64],
    pub picks: [u8; 64],
}

// The value handed in, beside its picks, and the budget of the call.
#[derive(Clone, Copy)]
pub struct Asked {
    pub count: u64,
    pub mode: Phase<usize>,
    pub budget: u64,
}
