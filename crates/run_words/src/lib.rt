// Paused values and the answers of run calls in words: a value of either side read from a lent slice, put into one,
// and a call's answer put into one. The number of the side is a value's first word. Any words are taken: those that no
// value of the side has read as a value that no moves lead to. No function has a `requires`.
#![tactic(auto)]

ghost use Rattle.std.specs.Prelude.{◌≡◌};
ghost use Rattle.runs.specs.Paused.{value_of, phase_of as phase_as};
ghost use Rattle.runs.specs.Calling.{outcome as outcome_of, chain_out, picks_out};
ghost use Rattle.words.specs.Layouts.{Put};
ghost use Rattle.run_words.specs.Values.{side_word, value_at, value_words, phase_of, mark_of, outcome_number, close_of};
ghost use Rattle.run_words.specs.Values.{answer_words, mark_at, is_value as value_words_of, word_of};

use preference::Order;
use runs::{Close, Outcome, Phase, Picks, Run};
use table;
use table::{Chain, Side};
use words;

// The words of a paused value.
pub const RUN: usize = 199;

// The number of each side.
const GAUGES: u64 = 1;

const CASES: u64 = 2;

// Where a paused value has its table, its order, its picks, their count, its phase, what it is back from, and whether
// it omits.
const TABLE: u16 = 1;

const ORDER: u32 = 67;

const PICKS: u32 = 131;

const COUNT: usize = 195;

const PHASE: usize = 196;

const FROM: usize = 197;

const OMIT: usize = 198;

// The numbers of the phases.
const DOWN: u64 = 0;

const HANDED: u64 = 1;

const BACK: u64 = 2;

const ENDED: u64 = 3;

// The numbers of the outcomes.
const HANDED_OUT: u64 = 1;

const SPENT: u64 = 2;

const END: u64 = 3;

// Where an answer has its chain and its pick sequence.
const ANSWER_CHAIN: u16 = 2;

const ANSWER_PICKS: u32 = 67;

// A phase by its number, and the number that it is back from.
#[derive(Clone, Copy)]
pub struct Mark {
    pub phase: u64,
    pub from: u64,
}

// The run in the words of a slice.
pub fn run_at<S: Side>(w: &[u64]) -> Run<S>
    ensures { value_of S.number result ≡ value_at (side_word S.CASES) w.now }
{
    let table = words::table_at(w, TABLE);
    let order = Order::new(words::numbers_at(w, ORDER));
    let picks = Picks::new(words::numbers_at(w, PICKS));
    let mark = mark_at(w, side_number::<S>());
    Run {
        table,
        order,
        picks,
        count: words::word_at(w, COUNT),
        phase: phase_of(mark),
        omit: words::word_at(w, OMIT) != 0,
    }
}

// Puts a run over the front of a slice.
pub fn put_run<S: Side>(out: &mut [u64], p: Run<S>)
    ensures { Put out.old 0 (value_words (side_word S.CASES) (value_of S.number p)) out.new }
{
    let table = p.table;
    let order = p.order.numbers;
    let picks = p.picks.numbers;
    let mark = mark_of(p.phase);
    words::put_word(out, 0, side_number::<S>());
    words::put_table(out, TABLE, table);
    words::put_numbers(out, ORDER, order);
    words::put_numbers(out, PICKS, picks);
    words::put_word(out, COUNT, p.count);
    words::put_word(out, PHASE, mark.phase);
    words::put_word(out, FROM, mark.from);
    words::put_word(out, OMIT, flag(p.omit));
}

// Puts the answer of a call that is not refused over the front of a slice: its outcome, the moves, the chain and its pick sequence, which are blank where
// none is handed out.
pub fn put_outcome<S: Side>(out: &mut [u64], outcome: Outcome<S>, moves: u64)
    ensures { Put out.old 0 (answer_words (outcome_number (outcome_of outcome)) moves (chain_out outcome) (picks_out outcome)) out.new }
{
    match outcome {
        Outcome::HandedOut(ladder) => {
            let chain = ladder.chain;
            let picks = ladder.picks.numbers;
            put_answer(out, HANDED_OUT, moves, chain, picks);
        }
        Outcome::Spent => {
            put_answer(out, SPENT, moves, table::blank_chain(), [0; 64]);
        }
        Outcome::End => {
            put_answer(out, END, moves, table::blank_chain(), [0; 64]);
        }
    }
}

// The number of how a batch stopped.
pub fn close_number(close: Close) -> u64
    ensures { result ≡ close_of close }
{
    match close {
        Close::Full => HANDED_OUT,
        Close::Spent => SPENT,
        Close::End => END,
    }
}

// Puts the answer of a call over the front of a slice.
pub fn put_answer(out: &mut [u64], outcome: u64, moves: u64, chain: Chain, picks: [u8; 64])
    ensures { Put out.old 0 (answer_words outcome moves chain picks) out.new }
{
    words::put_word(out, 0, outcome);
    words::put_word(out, 1, moves);
    words::put_chain(out, ANSWER_CHAIN, chain);
    words::put_numbers(out, ANSWER_PICKS, picks);
}

// The number of a side, the first word of its paused values.
fn side_number<S: Side>() -> u64
    ensures { result ≡ side_word S.CASES }
{
    if S::CASES { CASES } else { GAUGES }
}

// 1 for true and 0 for false.
fn flag(b: bool) -> u64
    ensures { result ≡ word_of b }
{
    if b {
        return 1;
    }
    0
}

// The phase in the words of a slice; that of no value, back from 0, where they are no words of a value of the side.
fn mark_at(w: &[u64], side: u64) -> Mark
    ensures { result ≡ mark_at side w.now }
{
    if !is_value(w, side) {
        return Mark {
            phase: BACK,
            from: 0,
        };
    }
    Mark {
        phase: words::word_at(w, PHASE),
        from: words::word_at(w, FROM),
    }
}

// Whether the words are of the side, with a phase and an omit that there are, and name a number only where the phase
// is Back.
fn is_value(w: &[u64], side: u64) -> bool
    ensures { result ≡ value_words_of side w.now }
{
    if words::word_at(w, 0) != side {
        return false;
    }
    let phase = words::word_at(w, PHASE);
    if ENDED < phase {
        return false;
    }
    if 1 < words::word_at(w, OMIT) {
        return false;
    }
    if phase == BACK {
        return true;
    }
    words::word_at(w, FROM) == 0
}

// The phase that a mark names.
fn phase_of<S: Side>(mark: Mark) -> Phase<S>
    ensures { phase_as S.number result ≡ phase_of mark.phase mark.from }
{
    if mark.phase == DOWN {
        return Phase::Down;
    }
    if mark.phase == HANDED {
        return Phase::Handed;
    }
    if mark.phase == ENDED {
        return Phase::Ended;
    }
    Phase::Back(S::from_number(mark.from))
}

// The mark of a phase.
fn mark_of<S: Side>(phase: Phase<S>) -> Mark
    ensures { result ≡ mark_of (phase_as S.number phase) }
{
    match phase {
        Phase::Down => Mark {
            phase: DOWN,
            from: 0,
        },
        Phase::Handed => Mark {
            phase: HANDED,
            from: 0,
        },
        Phase::Back(k) => Mark {
            phase: BACK,
            from: k.number(),
        },
        Phase::Ended => Mark {
            phase: ENDED,
            from: 0,
        },
    }
}
