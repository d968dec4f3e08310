// Words of lent slices: tables, chains, rows and numbers read from them and put into them at fixed places, and the number of a check's answer. All entries of
// the C library read and put by these. Every function takes every slice: a place behind the last word reads as 0, and putting there changes nothing, so none
// has a `requires`. The layouts are in specs/Layouts.antt, what an entry as a whole gives in specs/Serving.antt.
#![tactic(auto)]

ghost use Rattle.std.specs.Prelude.{◌≡◌, [], ◌∷◌};
ghost use Rattle.refusals.specs.Answers.{verdict};
ghost use Rattle.words.specs.Layouts.{word_at, rows_at, numbers_at, table_at, chain_at, table_words, chain_words, as_number, Put};

use refusals::Refusal;
use std::array;
use table::{Chain, Table};

// What the C library returns where a lent slice is shorter than its layout.
pub const SHORT: u64 = 100;

// The words of a table, of a chain, and of an order.
pub const TABLE: usize = 66;

pub const CHAIN: usize = 65;

pub const ORDER: usize = 64;

// The rows of a table and of a chain, and the numbers of an order.
const ROWS: usize = Table::MOST_GAUGES as usize;

// The greatest number that a byte holds; no gauge and no case has it.
const NO_NUMBER: u64 = 255;

// The number of a check's answer: that of its refusal, or 0.
pub fn verdict_number(v: Result<(), Refusal>) -> u64
    ensures { result ≡ verdict v }
{
    match v {
        Ok(()) => 0,
        Err(why) => why.number(),
    }
}

// The word at a place.
pub fn word_at(w: &[u64], at: usize) -> u64
    ensures { result ≡ word_at w.now at }
{
    if w.len() <= at {
        return 0;
    }
    w[at]
}

// The 64 words from a place on.
pub fn rows_at(w: &[u64], at: u32) -> [u64; 64]
    ensures { result ≡ rows_at at w.now }
{
    array::from_fn(|i| word_at(w, at as usize + i))
}

// The 64 words from a place on as numbers of gauges or cases.
pub fn numbers_at(w: &[u64], at: u32) -> [u8; 64]
    ensures { result ≡ numbers_at at w.now }
{
    array::from_fn(|i| as_number(word_at(w, at as usize + i)))
}

// The table at a place: gauges, cases, 64 rows.
pub fn table_at(w: &[u64], at: u16) -> Table
    ensures { result ≡ table_at at w.now }
{
    let from = at as usize;
    let rows = rows_at(w, at as u32 + 2);
    Table {
        gauges: word_at(w, from),
        cases: word_at(w, from + 1),
        rows: rows,
    }
}

// The chain at a place: its row count, 64 rows.
pub fn chain_at(w: &[u64], at: u16) -> Chain
    ensures { result ≡ chain_at at w.now }
{
    let rows = rows_at(w, at as u32 + 1);
    Chain {
        gauges: word_at(w, at as usize),
        rows: rows,
    }
}

// Puts a word at a place.
pub fn put_word(out: &mut [u64], at: usize, v: u64)
    ensures { Put out.old at (v ∷ []) out.new }
{
    if out.len() <= at {
        return;
    }
    out[at] = v;
}

// Puts 64 words from a place on.
pub fn put_rows(out: &mut [u64], at: u32, rows: [u64; 64])
    ensures { Put out.old at rows out.new }
{
    for i in 0..ROWS {
        put_word(out, at as usize + i, rows[i]);
    }
}

// Puts 64 numbers from a place on, a word each.
pub fn put_numbers(out: &mut [u64], at: u32, numbers: [u8; 64])
    ensures { Put out.old at numbers out.new }
{
    for i in 0..ROWS {
        put_word(out, at as usize + i, u64::from(numbers[i]));
    }
}

// Puts a table at a place.
pub fn put_table(out: &mut [u64], at: u16, t: Table)
    ensures { Put out.old at (table_words t) out.new }
{
    let from = at as usize;
    let rows = t.rows;
    put_word(out, from, t.gauges);
    put_word(out, from + 1, t.cases);
    put_rows(out, at as u32 + 2, rows);
}

// Puts a chain at a place.
pub fn put_chain(out: &mut [u64], at: u16, s: Chain)
    ensures { Put out.old at (chain_words s) out.new }
{
    let rows = s.rows;
    put_word(out, at as usize, s.gauges);
    put_rows(out, at as u32 + 1, rows);
}

// A word as the number of a gauge or a case; one that no byte holds is no number.
fn as_number(x: u64) -> u8
    ensures { result ≡ as_number x }
{
    if NO_NUMBER < x {
        return 255;
    }
    x as u8
}
