// Pair by pair from a chain to a ladder, on lent words and bytes: what the C library's entry of this name does. Any slices are taken: a slice of
// words shorter than its layout is refused with 100 before anything else, and a refusal leaves all lent memory as it was. No function has a
// `requires`.
#![tactic(auto)]

ghost use Rattle.pair_orders.specs.Adding.{OrderClaims};
ghost use Rattle.c_orders.specs.Serving.{OrdersWords};

use wiring;
use words;
use words::{CHAIN, SHORT, TABLE};

// The words of a count.
const COUNT: usize = 1;

// Writes to the front of `bytes` the pairs that the chain lacks of the ladder, two bytes a pair, and their number to `count`.
pub fn write_order(
    table: &[u64],
    chain: &[u64],
    ladder: &[u64],
    bytes: &mut [u8],
    count: &mut [u64],
) -> u64
    ensures orders_words { OrdersWords table.now chain.now ladder.now bytes.old count.old bytes.new
        count.new result }
    ensures claims { OrderClaims }
{
    if table.len() < TABLE {
        return SHORT;
    }
    if chain.len() < CHAIN {
        return SHORT;
    }
    if ladder.len() < CHAIN {
        return SHORT;
    }
    if count.len() < COUNT {
        return SHORT;
    }
    let t = words::table_at(table, 0);
    let s = words::chain_at(chain, 0);
    let x = words::chain_at(ladder, 0);
    match wiring::write_order(t, s, x, bytes) {
        Err(why) => why.number(),
        Ok(pairs) => {
            words::put_word(count, 0, pairs as u64);
            0
        }
    }
}
