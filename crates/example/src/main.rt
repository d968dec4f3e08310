// The library by example: a file is read, its ladders are counted and listed with a budget of moves, in plain order and with the trusted gauges
// first, the first says why it lacks a pair, the fewest that hold every pair are found, a chain is judged, grown and wired pair by pair, the flip of
// one entry is tried and committed, a table is made from rows and listed by cases, one without the ladders that calibration never needs, and one is
// made that anybody can make again. A refusal goes up by `?`, and has no value beside it.
#![tactic(auto)]

use count::Count;
use mechanisms::Fewest;
use preference::{CaseOrder, GaugeOrder};
use refusals::Refusal;
use runs::{CaseRun, GaugeRun, Outcome};
use std::io;
use table::{Case, Chain, Gauge, Table};
use trials::Effect;

// What ends the answers early: a refusal, which is said, or a line that could not be written.
// The error enum of a program, and no result of its own: each variant is a way to fail.
#[derive(Drop)]
enum Failure {
    Refused(Refusal),
    Unwritten(io::Error),
}

impl From<Refusal> for Failure {
    fn from(why: Refusal) -> Failure {
        Failure::Refused(why)
    }
}

impl From<io::Error> for Failure {
    fn from(error: io::Error) -> Failure {
        Failure::Unwritten(error)
    }
}

fn main(rt: HostRuntime) -> io::Result<()> {
    let file =
        b"%%MatrixMarket matrix coordinate pattern general\n% K3\n3 3 6\n1 1\n1 2\n2 1\n2 2\n3 2\n3 3\n";
    match answers(&rt, file) {
        Ok(()) => Ok(()),
        Err(Failure::Refused(why)) => println!(rt; "{why}"),
        Err(Failure::Unwritten(error)) => Err(error),
    }
}

// The table of a file, and all that is asked about it.
fn answers(rt: &impl Print, file: &[u8]) -> Result<(), Failure> {
    let t = file_reader::read(file)?;
    // Comment line 1, as a part of the bytes read; empty where there is none.
    rt.write_all(file_reader::comment(file, 1))?;
    rt.println("")?;
    count_them(rt, t)?;
    list(rt, t, GaugeOrder::plain(t.gauges), false)?;
    list(rt, t, third_first(), false)?;
    left_out(rt, t)?;
    cover(rt, t)?;
    grow(rt, t)?;
    flip(rt, t)?;
    by_cases(rt)?;
    needed(rt)?;
    again(rt)
}

// Says how many ladders a table has before they are listed: one call for each pick sequence that the run can come to, at most 1,000 here.
fn count_them(rt: &impl Print, t: Table) -> Result<(), Failure> {
    match count::count_ladders(t, GaugeOrder::plain(t.gauges), 1_000)? {
        Count::Counted(tally) => println!(rt; "{} ladders, {} calls", tally.ladders, tally.calls)?,
        Count::Spent(_) => println!(rt; "too many to say")?,
    }
    Ok(())
}

// An order of three gauges, the most trusted first: 3, 1, 2, and zeros behind them.
fn third_first() -> GaugeOrder {
    let mut numbers = [0; 64];
    numbers[..3].copy_from_slice(&[3, 1, 2]);
    GaugeOrder::new(numbers)
}

// Lists the ladders of a table under an order of its gauges, all or only those that hold a deciding pair: at most 5 moves a call, and each call
// goes on from the value that the last one returned.
fn list(rt: &impl Print, t: Table, order: GaugeOrder, omit: bool) -> Result<(), Failure> {
    let mut run = GaugeRun::start(t, order, omit)?;
    for _ in 0..100 {
        let step = run.call(5)?;
        match step.outcome {
            Outcome::HandedOut(ladder) => show(rt, ladder.chain, t.cases)?,
            Outcome::Spent => println!(rt; "spent")?,
            Outcome::End => {
                println!(rt; "end")?;
                break;
            }
        }
        run = step.next;
    }
    Ok(())
}

// Says by which gauge the first ladder of a table begins, and which of its picks leaves the pair 3:3 out.
fn left_out(rt: &impl Print, t: Table) -> Result<(), Failure> {
    let step = GaugeRun::start(t, GaugeOrder::plain(t.gauges), false)?.call(1_000)?;
    if let Outcome::HandedOut(ladder) = step.outcome {
        print!(rt; "picks from gauge {}", ladder.picks.numbers[0])?;
    }
    let pick = explain::explain(step.next, Gauge(3), Case(3))?;
    println!(rt; "; 3:3 is left out by gauge {}", pick.0)?;
    Ok(())
}

// Says how few ladders hold every pair of a table of up to 8 by 8: the search tries at most 1,000 here. The ladders stand in `cover.chains`.
fn cover(rt: &impl Print, t: Table) -> Result<(), Failure> {
    match mechanisms::fewest_ladders(t, 1_000)? {
        Fewest::Covered(cover) => {
            println!(rt;
                "{} ladders hold every pair, {} tried",
                cover.number, cover.tried
            )?
        }
        Fewest::Spent(_) => println!(rt; "more than 1,000 to try")?,
    }
    Ok(())
}

// Judges the set of the one pair 3:2, grows it to the first ladder that holds it, and says how to wire the rest.
fn grow(rt: &impl Print, t: Table) -> Result<(), Failure> {
    let mut rows = [0; 64];
    rows[2] = 0b010;
    let chain = Chain {
        gauges: t.gauges,
        rows,
    };
    if judge::judge_maximal(t, chain)? {
        println!(rt; "a ladder")?;
    } else {
        println!(rt; "no ladder")?;
    }
    let ladder = extend::extend_chain(t, GaugeOrder::plain(t.gauges), chain)?;
    show(rt, ladder, t.cases)?;
    wire(rt, t, chain, ladder)
}

// Says how many pairs a crew has to wire from a chain to a ladder, and which comes first; two bytes a pair, gauge then case.
fn wire(rt: &impl Print, t: Table, chain: Chain, ladder: Chain) -> Result<(), Failure> {
    let mut order = [0; 18];
    let n = wiring::write_order(t, chain, ladder, &mut order)?;
    println!(rt; "{n} pairs to wire, the first {}:{}", order[0], order[1])?;
    Ok(())
}

// Shows what wiring gauge 3 under case 1 would do to the first ladder, and commits it. The proposal stands for the old table alone: on the new one it
// is refused.
fn flip(rt: &impl Print, t: Table) -> Result<(), Failure> {
    let none = Chain {
        gauges: t.gauges,
        rows: [0; 64],
    };
    let ladder = extend::extend_chain(t, GaugeOrder::plain(t.gauges), none)?;
    let proposal = trials::trial(t, ladder, Gauge(3), Case(1))?;
    match proposal.effect {
        Effect::StillMaximal => println!(rt; "with 3:1 still a ladder")?,
        Effect::OnlyChain => println!(rt; "with 3:1 only a chain")?,
        Effect::NotWithin => println!(rt; "with 3:1 no longer within the table")?,
    }
    let new = trials::commit(proposal, t)?;
    match trials::commit(proposal, new) {
        Ok(_) => println!(rt; "committed twice")?,
        Err(why) => println!(rt; "{why}")?,
    }
    Ok(())
}

// A table of three gauges and three cases from its rows, bit c - 1 of row g - 1 for the pair g:c.
fn three_by_three(first: [u64; 3]) -> Result<Table, Refusal> {
    let mut rows = [0; 64];
    rows[..3].copy_from_slice(&first);
    Table::from_rows(3, 3, rows)
}

// Makes a table from rows, and asks the case run for its first ladder.
fn by_cases(rt: &impl Print) -> Result<(), Failure> {
    let t = three_by_three([0b110, 0b101, 0b011])?;
    let step = CaseRun::start(t, CaseOrder::plain(t.cases), false)?.call(1_000)?;
    match step.outcome {
        Outcome::HandedOut(ladder) => show(rt, ladder.chain, t.cases)?,
        Outcome::Spent => println!(rt; "spent")?,
        Outcome::End => println!(rt; "end")?,
    }
    Ok(())
}

// Makes the table of the rows 1, 1 2 and 2 3. Its pair 2:1 does not decide: the rivals of 1:1 strictly contain its own. Of its three ladders
// the second holds no deciding pair, and a run that omits leaves it out.
fn needed(rt: &impl Print) -> Result<(), Failure> {
    let t = three_by_three([0b001, 0b011, 0b110])?;
    if essentials::is_essential(t, Gauge(2), Case(1))? {
        println!(rt; "2:1 decides")?;
    } else {
        println!(rt; "2:1 does not decide")?;
    }
    list(rt, t, GaugeOrder::plain(t.gauges), true)
}

// Makes a table from four numbers, the same for everybody: 3 gauges, 4 cases, the start 3, and 128 of 256, about half of the places.
fn again(rt: &impl Print) -> Result<(), Failure> {
    count_them(rt, samples::sample_table(3, 4, 3, 128)?)
}

// Writes a ladder as the file of a table of its own, to the front of a buffer and from there to standard output.
fn show(rt: &impl Print, ladder: Chain, cases: u64) -> Result<(), Failure> {
    let rows = ladder.rows;
    let t = Table {
        gauges: ladder.gauges,
        cases,
        rows,
    };
    let mut buffer = [0; 65536];
    let n = file_writer::write(t, &mut buffer)?;
    if let Some(file) = buffer.get(..n) {
        rt.write_all(file)?;
    }
    Ok(())
}
