// What bench_runs and bench_batches share: what is listed and how, and the sum over the ladders of a batch, which bench_runs takes in its own way.
#![tactic(auto)]

ghost use Rattle.std.specs.Prelude.{◌≡◌, ◌+◌, ◌%◌, ◌^◌, min, length};
ghost use Rattle.refusals.specs.Answers.{answer};
ghost use Rattle.rules.specs.Machine.{fresh};
ghost use Rattle.preference.specs.Preferences.{preferred_refusal};
ghost use Rattle.runs.specs.Paused.{start_of, paused, blank_value};
ghost use Rattle.runs.specs.Sides.{side_of};
ghost use Rattle.samples.specs.Xorshift.{step};
ghost use Rattle.bench_lists.specs.Listing.{numbers, folded, summed};

use preference::{GaugeOrder, Order};
use program_input::is_given;
use refusals::Refusal;
use runs::Run;
use std::env::Env;
use std::fmt;
use table::{Side, Table};

// A table, whether the ladders with no essential pair are omitted, whether the last number is preferred to the first, and the budget of a call.
#[derive(Clone, Copy)]
pub struct Listing {
    pub table: Table,
    pub omit: bool,
    pub backward: bool,
    pub budget: u64,
}

impl Listing {
    // As the third argument asks.
    pub fn asked(rt: &impl Env, table: Table, budget: u64) -> Listing
        ensures { (result.table ≡ table) × (result.budget ≡ budget) }
    {
        Listing {
            table,
            omit: is_given(rt, 3, b"omit"),
            backward: is_given(rt, 3, b"reversed"),
            budget,
        }
    }

    // The fresh run of a side, under the order that is asked for: 10 and 11 are refused (27 never is, since the order has each number once).
    pub fn run<S: Side>(self) -> Result<Run<S>, Refusal>
        ensures { start_of S.number result ≡ answer
            (preferred_refusal self.table (side_of S.CASES self.table).count (numbers (side_of S.CASES self.table).count self.backward))
            (paused self.table (numbers (side_of S.CASES self.table).count self.backward) self.omit fresh)
            blank_value }
    {
        let n = if S::CASES {
            self.table.cases
        } else {
            self.table.gauges
        };
        let order = Order::new(numbers(n, self.backward));
        Run::<S>::start(self.table, order, self.omit)
    }
}

// The numbers of an order: 1, 2, 3, .., or from the last to the first.
#[tactic(auto, unfolding(crate::specs::Listing::numbers))]
fn numbers(n: u64, backward: bool) -> [u8; 64]
    ensures { result ≡ numbers n backward }
{
    let mut numbers = GaugeOrder::plain(n).numbers;
    if backward {
        numbers[..n.min(64) as usize].reverse();
    }
    numbers
}

// The ladders so far, and their sum.
#[derive(Clone, Copy, Default)]
pub struct Tally {
    pub count: u64,
    pub sum: u64,
}

impl Tally {
    // A ladder more: the sum goes one step on (shifts 13, 7, 17) and takes the ladder in, so that the order counts.
    pub fn with(self, ladder: &[u64]) -> Tally
        ensures count { result.count ≡ (self.count + 1) % 2 ^ 64 }
        ensures sum { result.sum ≡ summed self.sum (folded (min (length ladder.now) 64) ladder.now) }
    {
        Tally {
            count: self.count.wrapping_add(1),
            sum: stepped(self.sum) ^ folded(ladder),
        }
    }
}

// One step of crate `samples`' generator.
#[tactic(auto, unfolding(samples::specs::Xorshift::step, samples::specs::Xorshift::shifted_left, samples::specs::Xorshift::right))]
fn stepped(x: u64) -> u64
    ensures { result ≡ step x }
{
    let a = x ^ (x << 13);
    let b = a ^ (a >> 7);
    b ^ (b << 17)
}

// The rows as one number, each shifted by another multiple of 7: gauges and cases cannot be mistaken for each other.
#[tactic(auto, unfolding(crate::specs::Listing::folded))]
fn folded(rows: &[u64]) -> u64
    ensures { result ≡ folded (min (length rows.now) 64) rows.now }
{
    let mut x = 0;
    for i in 0..rows.len().min(64) {
        x ^= rows[i] << (i * 7 % 64);
    }
    x
}

impl fmt::Display for Tally {
    fn fmt<W: fmt::Write>(&self, f: &mut fmt::Formatter<W>) -> fmt::Result {
        write!(f, "{} {}", self.count, self.sum)
    }
}
