// What bench/run measures of batches: a table from standard input is listed whole, by gauges or by cases, in batches,
// some times over. Arguments: the side, `gauges` or `cases`, the budget of a batch with the number of repeats and the
// words of its buffer, at most 65,536, as one word of three numbers, and `omit` or `reversed` as for crate
// `bench_runs`. It writes what that one writes: the number of ladders and a sum that depends on every row of each and
// on their order.
#![tactic(auto)]

use bench_lists::{Listing, Tally};
use file_text::Fields;
use program_input::{argument, is_given, read_input};
use runs::Close;
use std::env::Env;
use std::io;
use table::{Case, Gauge, Side, Table};

fn main(rt: HostRuntime) -> io::Result<()> {
    let mut space = [0; 65536];
    let file = read_input(&mut rt.stdin(), &mut space)?;
    match file_reader::read(file) {
        Ok(t) => answer(&rt, t),
        Err(_) => println!(rt; "refused"),
    }
}

// Lists as the arguments ask.
fn answer(rt: &(impl Env + Print), t: Table) -> io::Result<()> {
    let mut space = [0; 64];
    match file_text::fields_of(argument(rt, 2, &mut space)) {
        Fields::Three(budget, repeats, words) => {
            println!(rt; "{}", measured(rt, t, budget, repeats, words))
        }
        _ => println!(rt; "usage: SIDE 'BUDGET REPEATS WORDS' [omit|reversed]"),
    }
}

// A buffer of more words than there are is never listed into.
fn measured(rt: &impl Env, t: Table, budget: u64, repeats: u64, words: u64) -> Tally {
    let listing = Listing::asked(rt, t, budget);
    let mut space = [0; 65536];
    let Some(out) = space.get_mut(..words as usize) else {
        return Tally::default();
    };
    if is_given(rt, 1, b"cases") {
        return (0..repeats).fold(
            Tally::default(),
            |tally, _| list::<Case>(listing, tally, out),
        );
    }
    (0..repeats).fold(
        Tally::default(),
        |tally, _| list::<Gauge>(listing, tally, out),
    )
}

// The run of a side from its fresh start to its end, or to a refusal.
fn list<S: Side>(listing: Listing, before: Tally, out: &mut [u64]) -> Tally {
    let Ok(start) = listing.run::<S>() else {
        return before;
    };
    let mut run = start;
    let mut tally = before;
    for _ in 0..u64::MAX {
        let Ok(batch) = run.list(listing.budget, out) else {
            break;
        };
        tally = with_all(tally, out, batch.ladders, listing.table.gauges);
        match batch.close {
            Close::Full | Close::Spent => run = batch.next,
            Close::End => break,
        }
    }
    tally
}

// The ladders of a batch, each of as many words as there are gauges.
fn with_all(before: Tally, out: &[u64], ladders: u64, gauges: u64) -> Tally {
    out.chunks_exact(gauges.clamp(1, 64) as usize)
        .take(ladders as usize)
        .fold(before, Tally::with)
}
