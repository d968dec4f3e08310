// The C library: entries on numbers and lent slices, which C, C++, Rust and Python's ctypes can call. A slice is a
// pointer and then its length in elements, and one that is written overlaps no other of the call. Each entry takes
// every input and returns 0, or 100 where a slice is shorter than its layout, or the number of the refusal; a refusal
// leaves all lent memory as it was. What an entry does is in the crate that it calls, under the same contract; only
// entries of this crate get into the archive. What there is of either side has a pair of entries, `rg_.._gauges` and
// `rg_.._cases`: C has no generic function.
#![tactic(auto)]

ghost use Rattle.std.specs.Prelude.{◌≡◌};
ghost use Rattle.lists.specs.Lists.{gauge_side, case_side};
ghost use Rattle.explain.specs.Reasons.{gauge_question, case_question};
ghost use Rattle.table.specs.declared.Table.{Table};
ghost use Rattle.table.specs.declared.Chain.{Chain};
ghost use Rattle.table.specs.Chains.{IsChain, IsMaximal};
ghost use Rattle.table.specs.Tables.{table_rows, chain_rows};
ghost use Rattle.samples.specs.Samples.{SampleClaims};
ghost use Rattle.pair_orders.specs.Adding.{OrderClaims};
ghost use Rattle.c_runs.specs.Serving.{Starts, Runs};
ghost use Rattle.c_batches.specs.Serving.{Lists};
ghost use Rattle.c_files.specs.Serving.{Reads, Locates, ShowsComment, WritesTable};
ghost use Rattle.c_chains.specs.Serving.{Judges, Grows, Conflicts, Decides, ClaimsConflicts};
ghost use Rattle.c_counts.specs.Serving.{CountsWords, Samples};
ghost use Rattle.c_reasons.specs.Serving.{Explains, ClaimsReasons};
ghost use Rattle.c_recorded.specs.Serving.{ReadsTest, WritesTest, Equals};
ghost use Rattle.c_sequence.specs.Serving.{GivesSequence};
ghost use Rattle.c_parts.specs.Serving.{GivesCandidates, GivesPart};
ghost use Rattle.c_trials.specs.Serving.{Tries, Commits};
ghost use Rattle.c_orders.specs.Serving.{OrdersWords};
ghost use Rattle.c_covers.specs.Serving.{CoversWords};
ghost use Rattle.c_support.specs.Serving.{this_release, SaysWords, GivesPlain};

use c_batches;
use c_chains;
use c_counts;
use c_covers;
use c_files;
use c_orders;
use c_parts;
use c_reasons;
use c_recorded;
use c_runs;
use c_sequence;
use c_support;
use c_trials;

// A fresh gauge run of the table under the order into `run`; it omits where `omit` is not 0.
#[unsafe(no_mangle)]
pub extern "C" fn rg_start_gauges(table: &[u64], order: &[u64], omit: u64, run: &mut [u64]) -> u64
    ensures { Starts gauge_side 1 table.now order.now omit run.old run.new result }
{
    c_runs::start_gauges(table, order, omit, run)
}

// A fresh case run of the table under the order into `run`; it omits where `omit` is not 0.
#[unsafe(no_mangle)]
pub extern "C" fn rg_start_cases(table: &[u64], order: &[u64], omit: u64, run: &mut [u64]) -> u64
    ensures { Starts case_side 2 table.now order.now omit run.old run.new result }
{
    c_runs::start_cases(table, order, omit, run)
}

// A call of the gauge run in `run` with a budget of moves: the next paused value into `run`, the answer into `step`.
#[unsafe(no_mangle)]
pub extern "C" fn rg_run_gauges(run: &mut [u64], budget: u64, step: &mut [u64]) -> u64
    ensures { Runs gauge_side 1 run.old budget step.old run.new step.new result }
{
    c_runs::run_gauges(run, budget, step)
}

// A call of the case run in `run` with a budget of moves: the next paused value into `run`, the answer into `step`.
#[unsafe(no_mangle)]
pub extern "C" fn rg_run_cases(run: &mut [u64], budget: u64, step: &mut [u64]) -> u64
    ensures { Runs case_side 2 run.old budget step.old run.new step.new result }
{
    c_runs::run_cases(run, budget, step)
}

// A batch of the gauge run in `run` with a budget of moves: the next paused value into `run`, how it stopped and its
// ladders into `batch`.
#[unsafe(no_mangle)]
pub extern "C" fn rg_list_gauges(run: &mut [u64], budget: u64, batch: &mut [u64]) -> u64
    ensures { Lists gauge_side 1 run.old budget batch.old run.new batch.new result }
{
    c_batches::list_gauges(run, budget, batch)
}

// A batch of the case run in `run` with a budget of moves: the next paused value into `run`, how it stopped and its
// ladders into `batch`.
#[unsafe(no_mangle)]
pub extern "C" fn rg_list_cases(run: &mut [u64], budget: u64, batch: &mut [u64]) -> u64
    ensures { Lists case_side 2 run.old budget batch.old run.new batch.new result }
{
    c_batches::list_cases(run, budget, batch)
}

// The table of a file of pairs into `table`.
#[unsafe(no_mangle)]
pub extern "C" fn rg_read(file: &[u8], table: &mut [u64]) -> u64
    ensures { Reads file.now table.old table.new result }
{
    c_files::read(file, table)
}

// The number of the line that decides, of a file of pairs where `either` is 0, else of a file of either kind, into
// `line`; 0 where the file is accepted or longer than 65,536.
#[unsafe(no_mangle)]
pub extern "C" fn rg_locate(file: &[u8], either: u64, line: &mut [u64]) -> u64
    ensures { Locates file.now either line.old line.new result }
{
    c_files::locate(file, either, line)
}

// Where comment line `k` of a file starts, and its length, into `span`.
#[unsafe(no_mangle)]
pub extern "C" fn rg_comment(file: &[u8], k: u64, span: &mut [u64]) -> u64
    ensures { ShowsComment file.now k span.old span.new result }
{
    c_files::comment(file, k, span)
}

// The file of the table to the front of `bytes`, and its length into `length`.
#[unsafe(no_mangle)]
pub extern "C" fn rg_write(table: &[u64], bytes: &mut [u8], length: &mut [u64]) -> u64
    ensures { WritesTable table.now bytes.old length.old bytes.new length.new result }
{
    c_files::write(table, bytes, length)
}

// Whether the chain is one of the table, 1 or 0, into `answer`.
#[unsafe(no_mangle)]
pub extern "C" fn rg_judge_chain(table: &[u64], chain: &[u64], answer: &mut [u64]) -> u64
    ensures { Judges (λ (t : Table) (s : Chain). IsChain (chain_rows s)) table.now chain.now answer.old
        answer.new result }
{
    c_chains::judge_chain(table, chain, answer)
}

// Whether the chain is a maximal one (a ladder) of the table, 1 or 0, into `answer`.
#[unsafe(no_mangle)]
pub extern "C" fn rg_judge_ladder(table: &[u64], chain: &[u64], answer: &mut [u64]) -> u64
    ensures { Judges (λ (t : Table) (s : Chain). IsMaximal (table_rows t) (chain_rows s)) table.now chain.now
        answer.old answer.new result }
{
    c_chains::judge_ladder(table, chain, answer)
}

// The first maximal chain, under the order, that contains the chain, into `out`.
#[unsafe(no_mangle)]
pub extern "C" fn rg_grow(table: &[u64], order: &[u64], chain: &[u64], out: &mut [u64]) -> u64
    ensures { Grows table.now order.now chain.now out.old out.new result }
{
    c_chains::grow(table, order, chain, out)
}

// The rivals of a pair, by gauge rows, into `pairs`.
#[unsafe(no_mangle)]
pub extern "C" fn rg_rivals(table: &[u64], gauge: u64, case: u64, pairs: &mut [u64]) -> u64
    ensures conflicts { Conflicts table.now gauge case pairs.old pairs.new result }
    ensures claims { ClaimsConflicts table.now }
{
    c_chains::rivals(table, gauge, case, pairs)
}

// Whether a pair is a deciding one, 1 or 0, into `answer`.
#[unsafe(no_mangle)]
pub extern "C" fn rg_decides(table: &[u64], gauge: u64, case: u64, answer: &mut [u64]) -> u64
    ensures decides { Decides table.now gauge case answer.old answer.new result }
    ensures claims { ClaimsConflicts table.now }
{
    c_chains::decides(table, gauge, case, answer)
}

// How many ladders the table has, under the order and with a budget of calls, into `out`.
#[unsafe(no_mangle)]
pub extern "C" fn rg_count(table: &[u64], order: &[u64], budget: u64, out: &mut [u64]) -> u64
    ensures { CountsWords table.now order.now budget out.old out.new result }
{
    c_counts::count_ladders(table, order, budget, out)
}

// The sample table of a shape, a start and a density into `table`.
#[unsafe(no_mangle)]
pub extern "C" fn rg_sample(
    gauges: u64,
    cases: u64,
    start: u64,
    density: u64,
    table: &mut [u64],
) -> u64
    ensures samples { Samples gauges cases start density table.old table.new result }
    ensures claims { SampleClaims gauges cases start density }
{
    c_counts::sample(gauges, cases, start, density, table)
}

// Why a pair is not in the ladder of the gauge run: the first picked gauge that lacks its case, into `pick`.
#[unsafe(no_mangle)]
pub extern "C" fn rg_explain_gauge(run: &[u64], gauge: u64, case: u64, pick: &mut [u64]) -> u64
    ensures explains { Explains gauge_side gauge_question 1 run.now gauge case pick.old pick.new result }
    ensures reasons { ClaimsReasons gauge_side gauge_question 1 run.now }
{
    c_reasons::explain_gauge(run, gauge, case, pick)
}

// Why a pair is not in the ladder of the case run: the first picked case that its gauge lacks, into `pick`.
#[unsafe(no_mangle)]
pub extern "C" fn rg_explain_case(run: &[u64], gauge: u64, case: u64, pick: &mut [u64]) -> u64
    ensures explains { Explains case_side case_question 2 run.now gauge case pick.old pick.new result }
    ensures reasons { ClaimsReasons case_side case_question 2 run.now }
{
    c_reasons::explain_case(run, gauge, case, pick)
}

// The gauges of the ladder in `chain` in the order of its pick sequence, under the order, into `numbers`.
#[unsafe(no_mangle)]
pub extern "C" fn rg_sequence_gauges(
    table: &[u64],
    order: &[u64],
    chain: &[u64],
    numbers: &mut [u64],
) -> u64
    ensures { GivesSequence gauge_side table.now order.now chain.now numbers.old numbers.new result }
{
    c_sequence::sequence_gauges(table, order, chain, numbers)
}

// The cases of the ladder in `chain` in the order of its pick sequence, under the order, into `numbers`.
#[unsafe(no_mangle)]
pub extern "C" fn rg_sequence_cases(
    table: &[u64],
    order: &[u64],
    chain: &[u64],
    numbers: &mut [u64],
) -> u64
    ensures { GivesSequence case_side table.now order.now chain.now numbers.old numbers.new result }
{
    c_sequence::sequence_cases(table, order, chain, numbers)
}

// The proposal of flipping one entry into `out`.
#[unsafe(no_mangle)]
pub extern "C" fn rg_trial(
    table: &[u64],
    chain: &[u64],
    gauge: u64,
    case: u64,
    out: &mut [u64],
) -> u64
    ensures { Tries table.now chain.now gauge case out.old out.new result }
{
    c_trials::trial(table, chain, gauge, case, out)
}

// The table with the entry flipped that the proposal names into `out`.
#[unsafe(no_mangle)]
pub extern "C" fn rg_commit(proposal: &[u64], table: &[u64], out: &mut [u64]) -> u64
    ensures { Commits proposal.now table.now out.old out.new result }
{
    c_trials::commit(proposal, table, out)
}

// The order of the pairs that the chain lacks of the ladder to the front of `bytes`, two bytes a pair, and their
// number into `count`.
#[unsafe(no_mangle)]
pub extern "C" fn rg_wiring(
    table: &[u64],
    chain: &[u64],
    ladder: &[u64],
    bytes: &mut [u8],
    count: &mut [u64],
) -> u64
    ensures orders_words { OrdersWords table.now chain.now ladder.now bytes.old count.old
        bytes.new count.new result }
    ensures claims { OrderClaims }
{
    c_orders::write_order(table, chain, ladder, bytes, count)
}

// The fewest ladders that hold every pair, by a budget of ladders tried, into `out`.
#[unsafe(no_mangle)]
pub extern "C" fn rg_cover(table: &[u64], budget: u64, out: &mut [u64]) -> u64
    ensures { CoversWords table.now budget out.old out.new result }
{
    c_covers::cover(table, budget, out)
}

// The test that a file of either kind holds into `test` and `readings`, and its table at a cutoff into `table`.
#[unsafe(no_mangle)]
pub extern "C" fn rg_read_test(
    file: &[u8],
    cutoff: u64,
    test: &mut [u64],
    readings: &mut [i32],
    table: &mut [u64],
) -> u64
    ensures { ReadsTest file.now cutoff test.old readings.old table.old test.new
        readings.new table.new result }
{
    c_recorded::read_test(file, cutoff, test, readings, table)
}

// The file of the test to the front of `bytes`, and its length into `length`.
#[unsafe(no_mangle)]
pub extern "C" fn rg_write_test(
    test: &[u64],
    readings: &[i32],
    bytes: &mut [u8],
    length: &mut [u64],
) -> u64
    ensures { WritesTest test.now readings.now bytes.old length.old bytes.new
        length.new result }
{
    c_recorded::write_test(test, readings, bytes, length)
}

// Whether two tests are equal, 1 or 0, into `answer`.
#[unsafe(no_mangle)]
pub extern "C" fn rg_equal(
    test: &[u64],
    readings: &[i32],
    other: &[u64],
    values: &[i32],
    answer: &mut [u64],
) -> u64
    ensures { Equals test.now readings.now other.now values.now answer.old
        answer.new result }
{
    c_recorded::equal(test, readings, other, values, answer)
}

// The gauges that the gauge run can pick next, each of which makes a part of its list, into `numbers`.
#[unsafe(no_mangle)]
pub extern "C" fn rg_candidates_gauges(run: &[u64], numbers: &mut [u64]) -> u64
    ensures { GivesCandidates gauge_side 1 run.now numbers.old numbers.new result }
{
    c_parts::candidates_gauges(run, numbers)
}

// The cases that the case run can pick next, each of which makes a part of its list, into `numbers`.
#[unsafe(no_mangle)]
pub extern "C" fn rg_candidates_cases(run: &[u64], numbers: &mut [u64]) -> u64
    ensures { GivesCandidates case_side 2 run.now numbers.old numbers.new result }
{
    c_parts::candidates_cases(run, numbers)
}

// The part of the gauge run's list that has one candidate as a pick more into `part`.
#[unsafe(no_mangle)]
pub extern "C" fn rg_part_gauges(run: &[u64], number: u64, part: &mut [u64]) -> u64
    ensures { GivesPart gauge_side 1 run.now number part.old part.new result }
{
    c_parts::part_gauges(run, number, part)
}

// The part of the case run's list that has one candidate as a pick more into `part`.
#[unsafe(no_mangle)]
pub extern "C" fn rg_part_cases(run: &[u64], number: u64, part: &mut [u64]) -> u64
    ensures { GivesPart case_side 2 run.now number part.old part.new result }
{
    c_parts::part_cases(run, number, part)
}

// The number of this release: major * 10,000 + minor * 100 + patch.
#[unsafe(no_mangle)]
pub extern "C" fn rg_version() -> u64
    ensures { result ≡ this_release }
{
    c_support::version()
}

// The words of a number that an entry returns into `words`, padded with zeros, and how many bytes they are into
// `length`.
#[unsafe(no_mangle)]
pub extern "C" fn rg_words(number: u64, words: &mut [u8], length: &mut [u64]) -> u64
    ensures { SaysWords number words.old length.old words.new length.new result }
{
    c_support::say(number, words, length)
}

// The plain order of `n` gauges or cases, 1, 2, 3, .., into `order`.
#[unsafe(no_mangle)]
pub extern "C" fn rg_plain_order(n: u64, order: &mut [u64]) -> u64
    ensures { GivesPlain n order.old order.new result }
{
    c_support::plain_order(n, order)
}
