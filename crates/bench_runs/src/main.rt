// What bench/run measures: a table from standard input is listed whole, by gauges or by cases, one public run call a
// ladder, some times over. Arguments: the side, `gauges` or `cases`, the budget of a call with the number of repeats,
// as one word of two numbers, and `omit` for a run that omits the ladders with no essential pair, or `reversed` for
// one that prefers the last number to the first. It writes the number of ladders and a sum that depends on every row
// of each and on their order. The plain lister in bench/plain.rs writes the same, never omits and goes by number.
#![tactic(auto)]

use bench_lists::{Listing, Tally};
use file_text::Fields;
use program_input::{argument, is_given, read_input};
use runs::Outcome;
use std::env::Env;
use std::io;
use table::{Case, Chain, Gauge, Side, Table};

fn main(rt: HostRuntime) -> io::Result<()> {
    let mut space = [0; 65536];
    let file = read_input(&mut rt.stdin(), &mut space)?;
    match file_reader::read(file) {
        Ok(t) => answer(&rt, t),
        Err(_) => println!(rt; "refused"),
    }
}

// Lists as the arguments ask.
fn answer(rt: &(impl Env + Print), t: Table) -> io::Result<()> {
    let mut space = [0; 64];
    match file_text::fields_of(argument(rt, 2, &mut space)) {
        Fields::Two(budget, repeats) => println!(rt; "{}", measured(rt, t, budget, repeats)),
        _ => println!(rt; "usage: SIDE 'BUDGET REPEATS' [omit|reversed]"),
    }
}

fn measured(rt: &impl Env, t: Table, budget: u64, repeats: u64) -> Tally {
    let listing = Listing::asked(rt, t, budget);
    if is_given(rt, 1, b"cases") {
        return (0..repeats).fold(Tally::default(), |tally, _| list::<Case>(listing, tally));
    }
    (0..repeats).fold(Tally::default(), |tally, _| list::<Gauge>(listing, tally))
}

// The run of a side from its fresh start to its end, or to a refusal. Tried with the loop around a closure, and with the sum of bench_lists: a call takes
// 1.4 to 1.8 times as long, by copies of the values.
fn list<S: Side>(listing: Listing, before: Tally) -> Tally {
    let Ok(start) = listing.run::<S>() else {
        return before;
    };
    let budget = listing.budget;
    let mut run = start;
    let mut tally = before;
    for _ in 0..u64::MAX {
        let Ok(step) = run.call(budget) else {
            return tally;
        };
        let next = step.next;
        match step.outcome {
            Outcome::HandedOut(ladder) => {
                tally = with(tally, ladder.chain);
                run = next;
            }
            Outcome::Spent => run = next,
            Outcome::End => return tally,
        }
    }
    tally
}

// A ladder more, as `Tally::with` of bench_lists takes it in.
fn with(tally: Tally, ladder: Chain) -> Tally {
    let rows = ladder.rows;
    let mut sum = tally.sum;
    sum ^= sum << 13;
    sum ^= sum >> 7;
    sum ^= sum << 17;
    Tally {
        count: tally.count.wrapping_add(1),
        sum: sum ^ folded(&rows, ladder.gauges),
    }
}

fn folded(rows: &[u64; 64], gauges: u64) -> u64 {
    let mut x = 0;
    for i in 0..gauges.min(64) {
        x ^= rows[i as usize] << (i * 7 % 64);
    }
    x
}
