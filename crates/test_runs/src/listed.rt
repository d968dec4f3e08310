// Both runs of a table against what is due of them: the plain lists, in calls of one move, of seven, and of the greatest budget; of the n by n table where
// gauge g lacks only case g, the number of its ladders, n!. Every list ascends by pick sequence, and then comes the end.
use super::plain::Side;
use super::sides::Outcome;
use super::tally::{Board, Tally};
use super::{grids, plain, sides};
use table::Chain;

// The board without its diagonal.
const OFF_DIAGONAL: u64 = 0x7fbf_dfef_f7fb_fdfe;

pub fn table(t: &mut Tally, board: Board) {
    t.about(board);
    turned(t, board);
    for side in [Side::Gauges, Side::Cases] {
        let list = plain::side_list(side, board.pairs);
        for budget in [1, 7, 1_000_000] {
            one_run(t, board, side, list.count, Some(&list.sets), budget);
        }
    }
}

// The table with gauges and cases exchanged.
fn turned(t: &mut Tally, board: Board) {
    let table = grids::table_of(board);
    let rows = transpose::transposed(&table.rows, board.gauges as usize, board.cases as usize);
    t.same(
        0,
        grids::rows_off(&rows, plain::turned(Side::Cases, board.pairs)),
    );
}

// The n by n table without its diagonal, both sides.
pub fn known(t: &mut Tally, n: u64, ladders: u64) {
    let board = Board {
        gauges: n,
        cases: n,
        pairs: plain::full(n, n) & OFF_DIAGONAL,
    };
    t.about(board);
    for side in [Side::Gauges, Side::Cases] {
        one_run(t, board, side, ladders, None, 1_000_000);
    }
}

// The hand-outs are the sets of the list, one after the other, or as many as are known. No run here makes so many calls.
fn one_run(
    t: &mut Tally,
    board: Board,
    side: Side,
    count: u64,
    sets: Option<&[u64; 64]>,
    budget: u64,
) {
    let mut run = match sides::start(side, grids::table_of(board)) {
        Ok(run) => run,
        Err(why) => return t.same(0, why.number()),
    };
    let mut handed: u64 = 0;
    let mut least: u64 = 0;
    for _ in 0..50_000 {
        let step = match sides::call(run, budget) {
            Ok(step) => step,
            Err(why) => return t.same(0, why.number()),
        };
        t.called();
        run = step.next;
        match step.outcome {
            Outcome::HandedOut(chain) => {
                t.handed_out();
                let key = key_of(side, chain);
                if key < least {
                    t.same(1, 0);
                } else if let Some(sets) = sets {
                    let due = sets.get(handed as usize).copied().unwrap_or(0);
                    ladder(t, board, due, chain);
                }
                handed = handed.wrapping_add(1);
                least = key.wrapping_add(1);
            }
            Outcome::Spent => {}
            Outcome::End => return t.same(count, handed),
        }
    }
    t.same(0, 50_000);
}

// The pick sequence of a chain.
fn key_of(side: Side, chain: Chain) -> u64 {
    plain::pick_key(plain::turned(side, grids::pairs_of(&chain.rows)))
}

fn ladder(t: &mut Tally, board: Board, due: u64, chain: Chain) {
    t.same(board.gauges, chain.gauges);
    t.same(
        0,
        u64::from(!table::same_rows(&chain.rows, &grids::rows_of(due))),
    );
}
