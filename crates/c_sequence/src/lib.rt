// The pick sequence of a ladder, on lent words: what the C library's entries of these names do. One function of
// either side is below both. Any slices are taken: a slice shorter than its layout is refused with 100 before
// anything else, and a refusal leaves every word as it was. No function has a `requires`.
#![tactic(auto)]

ghost use Rattle.lists.specs.Lists.{gauge_side, case_side};
ghost use Rattle.runs.specs.Sides.{side_of};
ghost use Rattle.c_sequence.specs.Serving.{GivesSequence};

use preference::Order;
use sequence;
use table::{Case, Gauge, Side};
use words;
use words::{CHAIN, ORDER, SHORT, TABLE};

// The words of numbers.
const NUMBERS: usize = 64;

// The gauges of the ladder in `chain` in the order of its pick sequence, into `numbers`.
// A pair of names for the two sides: C has no generic function.
pub fn sequence_gauges(table: &[u64], order: &[u64], chain: &[u64], numbers: &mut [u64]) -> u64
    ensures { GivesSequence gauge_side table.now order.now chain.now numbers.old numbers.new result }
{
    put_sequence::<Gauge>(table, order, chain, numbers)
}

// The cases of the ladder in `chain` in the order of its pick sequence, into `numbers`.
pub fn sequence_cases(table: &[u64], order: &[u64], chain: &[u64], numbers: &mut [u64]) -> u64
    ensures { GivesSequence case_side table.now order.now chain.now numbers.old numbers.new result }
{
    put_sequence::<Case>(table, order, chain, numbers)
}

// The sequence of either side.
fn put_sequence<S: Side>(table: &[u64], order: &[u64], chain: &[u64], numbers: &mut [u64]) -> u64
    ensures { GivesSequence (side_of S.CASES) table.now order.now chain.now numbers.old numbers.new
        result }
{
    if table.len() < TABLE {
        return SHORT;
    }
    if order.len() < ORDER {
        return SHORT;
    }
    if chain.len() < CHAIN {
        return SHORT;
    }
    if numbers.len() < NUMBERS {
        return SHORT;
    }
    let t = words::table_at(table, 0);
    let preferred = Order::<S>::new(words::numbers_at(order, 0));
    let s = words::chain_at(chain, 0);
    match sequence::sequence(t, preferred, s) {
        Ok(found) => {
            let picks = found.numbers;
            words::put_numbers(numbers, 0, picks);
            0
        }
        Err(why) => why.number(),
    }
}
