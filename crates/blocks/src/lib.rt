// Blocks of files: a lent buffer is filled with the files of the sets that successive calls of the gauge run hand out, as many as have room
// for sure, and the blocks one after another are the files of the run's list. In each call of the greatest budget a run that omits nothing
// hands a ladder out or ends; one that omits may be spent, and its block stops there. The calls are made in batches, so that a value is checked
// and copied once for many ladders. No public function has a `requires`; nothing outside the lent buffer is kept.
#![tactic(auto)]

ghost use Rattle.std.specs.Prelude.{◌≡◌, Ok, ◌+◌, ◌≤◌, ◌<◌, length, take, drop};
ghost use Rattle.table.specs.Tables.{padded};
ghost use Rattle.refusals.specs.Answers.{verdict};
ghost use Rattle.runs.specs.Paused.{gauge_value};
ghost use Rattle.runs.specs.Batches.{closing};
ghost use Rattle.runs.specs.private.Listing.{words_of};
ghost use Rattle.blocks.specs.Filling.{Filled, block, CarriesList, longest};
ghost use Rattle.blocks.specs.private.Turning.{Checked, FillsOn, Put, PutAll, Lent, Turned, stopped, ended, shape, ladders};

use file_writer;
use refusals::Refusal;
use runs::{Close, GaugeRun};
use table::Table;

// The moves asked of one call: the greatest budget.
const BUDGET: u64 = 1_000_000;

// The longest file that the writer makes: the full 64 by 64 table.
const LONGEST: usize = 23_484;

// The words lent to a batch at most: 16 ladders of 64 gauges, 128 of 8.
const WORDS: usize = 1024;

// A block: the run after its calls, the bytes used, and whether the list ended in it.
#[derive(Clone, Copy)]
pub struct Block {
    pub run: GaugeRun,
    pub used: usize,
    pub over: bool,
}

// One turn: the run after it, the place behind what was written, and how its batch stopped; a refused one is the end.
#[derive(Clone, Copy)]
struct Turn {
    run: GaugeRun,
    next: usize,
    close: Close,
}

// Fills a buffer with the files of the next ladders, on any paused value: 10, 11, 27 and 15 are refused, then 16 for a buffer shorter than the
// longest file. After the blocks that led to the value, it carries the list on.
pub fn fill(run: GaugeRun, out: &mut [u8]) -> Result<Block, Refusal>
    ensures filled { Filled (gauge_value run) out.old (block result) out.new }
    ensures listed { CarriesList (gauge_value run) (record { before = out.old; answer = block result; now = out.new }) }
{
    check_run(run)?;
    if out.len() < LONGEST {
        return Err(Refusal::BufferTooShort);
    }
    Ok(fill_on(run, out))
}

// The files of a value that passes its check, in a buffer that has room for one.
fn fill_on(start: GaugeRun, out: &mut [u8]) -> Block
    ensures { FillsOn (gauge_value start) out.old (block (Ok result)) out.new }
{
    let most = out.len();
    let mut words = [0; WORDS];
    let mut run = start;
    let mut used: usize = 0;
    for _turn in 0..most {
        if most - used < LONGEST {
            return filled(run, used, false);
        }
        let turn = list_some(run, &mut words, out, used);
        run = turn.run;
        used = turn.next;
        match turn.close {
            Close::Full => {}
            Close::Spent => return filled(run, used, false),
            Close::End => return filled(run, used, true),
        }
    }
    filled(run, used, false)
}

fn filled(run: GaugeRun, used: usize, over: bool) -> Block
    ensures { result ≡ record { run = run; used = used; over = over } }
{
    Block { run, used, over }
}

// Whether a run call refuses the value: a call that makes no move says so.
fn check_run(run: GaugeRun) -> Result<(), Refusal>
    ensures { Checked (gauge_value run) (verdict result) }
{
    run.call(0)?;
    Ok(())
}

// One batch of calls of the run, and behind the first `at` bytes the files of the ladders that it hands out.
fn list_some(run: GaugeRun, words: &mut [u64], out: &mut [u8], at: usize) -> Turn
    requires { (length words.old ≡ 1024) × (at + longest ≤ length out.old) }
    ensures { Turned (gauge_value run) out.old at (gauge_value result.run) result.next
        (stopped (closing result.close)) (ended (closing result.close)) out.new }
{
    let t = run.table;
    let gauges = t.gauges;
    let cases = t.cases;
    let room = out.len() - at;
    let many = lend(gauges, cases, run.omit, room);
    let from = 0;
    match run.list(BUDGET, &mut words[from..many]) {
        Ok(batch) => {
            let place = put_ladders(gauges, cases, words, batch.ladders as usize, out, at);
            turned(batch.next, place, batch.close)
        }
        Err(_) => turned(run, at, Close::End),
    }
}

fn turned(run: GaugeRun, next: usize, close: Close) -> Turn
    ensures { result ≡ record { run = run; next = next; close = close } }
{
    Turn { run, next, close }
}

// The words for as many ladders as are called for whatever their files: a call follows while the longest file has room, and a ladder of a table
// has at most 60 bytes and 6 for each pair that there can be. A run that omits may be spent, so it makes one call at a time.
fn lend(gauges: u64, cases: u64, omit: bool, room: usize) -> usize
    requires { longest ≤ room }
    ensures { Lent gauges cases omit room result }
{
    // of no table: the batch is refused
    if gauges == 0 {
        return 0;
    }
    if Table::MOST_GAUGES < gauges {
        return 0;
    }
    if Table::MOST_CASES < cases {
        return 0;
    }
    let g = gauges as usize;
    if omit {
        return g;
    }
    let size = 60 + g * (6 * (cases as usize));
    let more = (room - LONGEST) / size;
    let most = WORDS / g;
    if more < most {
        return (more + 1) * g;
    }
    most * g
}

// The files of the first `many` ladders of `words`, one after another behind the first `at` bytes.
fn put_ladders(
    gauges: u64,
    cases: u64,
    words: &[u64],
    many: usize,
    out: &mut [u8],
    at: usize,
) -> usize
    requires { (at ≤ length out.old) × (0 < many → gauges ≤ 64) × (words_of gauges many ≤ length words.now) }
    ensures { PutAll (shape gauges cases) (ladders gauges many words.now) out.old at result out.new }
{
    let g = gauges as usize;
    let mut place = at;
    let mut from: usize = 0;
    for _ladder in 0..many {
        let rows = ladder_at(words, from, g);
        let t = Table {
            gauges: gauges,
            cases: cases,
            rows: rows,
        };
        place = put_table(t, out, place);
        from += g;
    }
    place
}

// The ladder of `g` words from a place on.
fn ladder_at(words: &[u64], from: usize, g: usize) -> [u64; 64]
    requires { (from + g ≤ length words.now) × (g ≤ 64) }
    ensures { result ≡ padded (take g (drop from words.now)) }
{
    let mut rows = [0; 64];
    rows[..g].copy_from_slice(&words[from..from + g]);
    rows
}

// A table as a file behind the first `at` bytes.
fn put_table(t: Table, out: &mut [u8], at: usize) -> usize
    requires { at ≤ length out.old }
    ensures { Put t out.old at result out.new }
{
    match file_writer::write(t, &mut out[at..]) {
        Ok(n) => at + n,
        Err(_) => at,
    }
}
