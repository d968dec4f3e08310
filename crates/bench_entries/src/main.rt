// What bench/run measures beside the runs: one entry of the library, called some times over with the table of a file from standard input.
// Arguments: the entry, `count`, `grow`, `read` or `write`, and a budget, which only `count` takes, with the number of repeats, as one word of two
// numbers. It writes a sum that depends on every answer: ladders and calls for `count`, the first row for `grow` and `read`, the length and a byte
// for `write`. What is handed in differs from turn to turn, so that no call can be left out: `count` and `read` get a budget and a file that are
// one shorter after an odd sum, `grow` a chain of one row, of each place in turn, `write` a buffer that was written before.
#![tactic(auto)]

use count::Count;
use file_text::Fields;
use preference::GaugeOrder;
use program_input::{argument, is_given, read_input};
use std::env::Env;
use std::io;
use table::{Chain, Table};

fn main(rt: HostRuntime) -> io::Result<()> {
    let mut space = [0; 65536];
    let file = read_input(&mut rt.stdin(), &mut space)?;
    match file_reader::read(file) {
        Ok(t) => answer(&rt, file, t),
        Err(_) => println!(rt; "refused"),
    }
}

// Calls as the arguments ask.
fn answer(rt: &(impl Env + Print), file: &[u8], t: Table) -> io::Result<()> {
    let mut space = [0; 64];
    match file_text::fields_of(argument(rt, 2, &mut space)) {
        Fields::Two(budget, repeats) => println!(rt; "{}", measured(rt, file, t, budget, repeats)),
        _ => println!(rt; "usage: count|grow|read|write 'BUDGET REPEATS'"),
    }
}

fn measured(rt: &impl Env, file: &[u8], t: Table, budget: u64, repeats: u64) -> u64 {
    if is_given(rt, 1, b"count") {
        let order = GaugeOrder::plain(t.gauges);
        return (0..repeats).fold(0, |sum, _| counted(t, order, budget, sum));
    }
    if is_given(rt, 1, b"grow") {
        let order = GaugeOrder::plain(t.gauges);
        return (1..=repeats).fold(0, |sum, turn| grown(t, order, turn, sum));
    }
    if is_given(rt, 1, b"read") {
        return (0..repeats).fold(0, |sum, _| read_once(file, sum));
    }
    let mut space = [0; 65536];
    (0..repeats).fold(0, |sum, _| write_once(t, &mut space, sum))
}

fn counted(t: Table, order: GaugeOrder, budget: u64, before: u64) -> u64 {
    let answer = count::count_ladders(t, order, budget.saturating_sub(before % 2));
    match answer {
        Ok(Count::Counted(tally)) => before.wrapping_add(tally.ladders).wrapping_add(tally.calls),
        Ok(Count::Spent(calls)) => before.wrapping_add(calls),
        Err(_) => before,
    }
}

// Grows the chain that has the row at one place, and no other.
fn grown(t: Table, order: GaugeOrder, turn: u64, before: u64) -> u64 {
    let place = (turn % 64) as usize;
    let mut rows = [0; 64];
    rows[place] = t.rows[place];
    let s = Chain {
        gauges: t.gauges,
        rows,
    };
    match extend::extend_chain(t, order, s) {
        Ok(ladder) => before.wrapping_add(ladder.rows[0]),
        Err(_) => before,
    }
}

fn read_once(file: &[u8], before: u64) -> u64 {
    let shorter = match file {
        [front @ .., _] if before % 2 == 1 => front,
        _ => file,
    };
    match file_reader::read(shorter) {
        Ok(t) => before.wrapping_add(t.rows[0]),
        Err(_) => before,
    }
}

// One of the first 64 bytes is looked at, so that all are written.
fn write_once(t: Table, space: &mut [u8; 65536], before: u64) -> u64 {
    match file_writer::write(t, space) {
        Ok(n) => {
            let byte = space[(before % 64) as usize];
            before.wrapping_add(n as u64).wrapping_add(u64::from(byte))
        }
        Err(_) => before,
    }
}
