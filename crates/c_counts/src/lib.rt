// Counting ladders and making sample tables, on lent words: what the C library's entries of these names do. Any slices are taken: a slice shorter
// than its layout is refused with 100 before anything else, and a refusal leaves every word as it was. No function has a `requires`.
#![tactic(auto)]

ghost use Rattle.std.specs.Prelude.{◌≡◌, Ok};
ghost use Rattle.count.specs.Counting.{count_says};
ghost use Rattle.samples.specs.Samples.{SampleClaims};
ghost use Rattle.c_counts.specs.Serving.{count_kind, count_ladders, count_calls, CountsWords, Samples};

use count;
use count::Count;
use preference::GaugeOrder;
use samples;
use words;
use words::{ORDER, SHORT, TABLE};

// The words of a count.
const COUNT: usize = 3;

// How many ladders the table has, by at most `budget` calls.
pub fn count_ladders(table: &[u64], order: &[u64], budget: u64, out: &mut [u64]) -> u64
    ensures { CountsWords table.now order.now budget out.old out.new result }
{
    if table.len() < TABLE {
        return SHORT;
    }
    if order.len() < ORDER {
        return SHORT;
    }
    if out.len() < COUNT {
        return SHORT;
    }
    let t = words::table_at(table, 0);
    let preferred = GaugeOrder::new(words::numbers_at(order, 0));
    match count::count_ladders(t, preferred, budget) {
        Ok(counted) => {
            words::put_word(out, 0, count_kind(counted));
            words::put_word(out, 1, count_of_ladders(counted));
            words::put_word(out, 2, count_of_calls(counted));
            0
        }
        Err(why) => why.number(),
    }
}

// The table of a shape, a start and a density.
pub fn sample(gauges: u64, cases: u64, start: u64, density: u64, table: &mut [u64]) -> u64
    ensures samples { Samples gauges cases start density table.old table.new result }
    ensures claims { SampleClaims gauges cases start density }
{
    if table.len() < TABLE {
        return SHORT;
    }
    match samples::sample_table(gauges, cases, start, density) {
        Err(why) => why.number(),
        Ok(t) => {
            words::put_table(table, 0, t);
            0
        }
    }
}

// 1 where the ladders were counted, 2 where the budget was spent.
fn count_kind(counted: Count) -> u64
    ensures { result ≡ count_kind (count_says (Ok counted)) }
{
    match counted {
        Count::Counted(_) => 1,
        Count::Spent(_) => 2,
    }
}

fn count_of_ladders(counted: Count) -> u64
    ensures { result ≡ count_ladders (count_says (Ok counted)) }
{
    match counted {
        Count::Counted(tally) => tally.ladders,
        Count::Spent(_) => 0,
    }
}

fn count_of_calls(counted: Count) -> u64
    ensures { result ≡ count_calls (count_says (Ok counted)) }
{
    match counted {
        Count::Counted(tally) => tally.calls,
        Count::Spent(calls) => calls,
    }
}
