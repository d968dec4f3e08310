// Preferences (02, R-12): the orders that a caller hands in, of gauges or of cases, by the type of the side; refusal
// 27; and the steps around the code that goes by number: rows gathered in the order of a preference, numbers turned
// into places and back. An order holds 64 numbers, those of an arrangement, the most trusted first, padded with
// zeros. No function that another crate can call has a `requires`, and none changes lent memory.
#![tactic(auto)]

ghost use Rattle.std.specs.Prelude.{◌≡◌, true, ◌+◌, ◌-◌, ◌≤◌, ◌<◌, min, length};
ghost use Rattle.table.specs.Tables.{padded};
ghost use Rattle.refusals.specs.Answers.{verdict};
ghost use Rattle.preference.specs.Preferences.{order_refusal, preferred_refusal, plain_numbers};
ghost use Rattle.preference.specs.Placing.{is_plain, placed_as, row_numbered, gathered, renumber as renumber_by, renumbered};
ghost use Rattle.preference.specs.private.Testing.{zeros_from, plain_at};

use refusals::Refusal;
use std::array;
use std::marker::PhantomData;
use table;
use table::{Case, Gauge, Table};

// How many numbers an order has room for.
const MOST: usize = Table::MOST_GAUGES as usize;

// The numbers of a side of a table, its gauges or its cases, the most trusted first, padded with zeros.
#[derive(Clone, Copy)]
pub struct Order<S> {
    pub numbers: [u8; 64],
    pub side: PhantomData<S>,
}

pub type GaugeOrder = Order<Gauge>;

pub type CaseOrder = Order<Case>;

impl<S> Order<S> {
    pub fn new(numbers: [u8; 64]) -> Order<S>
        ensures { result.numbers ≡ numbers }
    {
        Order {
            numbers,
            side: PhantomData,
        }
    }

    // "The arrangement 1, 2, 3 and on" of so many numbers, at most 64.
    pub fn plain(count: u64) -> Order<S>
        ensures { result.numbers ≡ plain_numbers count }
    {
        Order::new(plain_numbers(count))
    }
}

// The checks of a table and then of an order of `n` of its numbers: 10 and 11, then 27.
#[tactic(auto, using(refusals::proofs::Answering::number_pos), unfolding(crate::specs::Preferences::preferred_refusal))]
pub fn check(t: Table, n: u64, order: [u8; 64]) -> Result<(), Refusal>
    ensures { verdict result ≡ preferred_refusal t n order }
{
    table::check_table(t)?;
    check_order(order, n as usize)
}

// 27 for an order that is no arrangement of 1..n.
fn check_order(order: [u8; 64], n: usize) -> Result<(), Refusal>
    ensures { verdict result ≡ order_refusal n order }
{
    match place_all(order, n) {
        Some(_) => Ok(()),
        None => Err(Refusal::NotAnArrangement),
    }
}

// Whether an order is the plain one, 1, 2, 3, .., of `n` numbers. One pass without a way out and in bytes alone,
// which takes a few steps of 16 bytes: most callers have that order, and for it nothing else needs to be done.
pub fn is_plain(order: &[u8; 64], n: usize) -> bool
    ensures { result ≡ is_plain n order.now }
{
    let lift = lift_of(n);
    let mut strays: u8 = 0;
    for i in 0..MOST {
        if order[i] != plain_number(i as u8, lift) {
            strays += 1;
        }
    }
    strays == 0
}

// Where each number of an order of 1..n is: byte g - 1 is the place of number g, from 1. What is no such order has no places.
pub fn place_all(order: [u8; 64], n: usize) -> Option<[u8; 64]>
    ensures { result ≡ placed_as n order }
{
    if MOST < n {
        return None;
    }
    if !zeros_from(&order, n) {
        return None;
    }
    place_first(&order, n)
}

// The rows named by the first `n` numbers, in turn: by an order the rows as it has them, by its places the rows by
// number again.
pub fn gather(rows: &[u64; 64], numbers: &[u8; 64], n: usize) -> [u64; 64]
    ensures { result ≡ padded (gathered n rows.now numbers.now) }
{
    let mut out = [0u64; 64];
    for i in 0..n.min(MOST) {
        out[i] = row_numbered(rows, numbers[i]);
    }
    out
}

// The picks, the first `n` of them as `numbers` has each: by the places of an order they become places, by the order
// numbers again.
pub fn renumber(picks: [u8; 64], numbers: &[u8; 64], n: usize) -> [u8; 64]
    ensures { result ≡ renumbered numbers.now n picks }
{
    let mut out = picks;
    for i in 0..n.min(MOST) {
        out[i] = renumber_pick(numbers, n, picks[i]);
    }
    out
}

// A number of 1..n as `numbers` has it; any other stays as it is.
pub fn renumber_one(numbers: &[u8; 64], n: usize, g: usize) -> usize
    ensures { result ≡ renumber_by numbers.now n g }
{
    if g == 0 {
        return 0;
    }
    if n < g {
        return g;
    }
    if MOST < g {
        return 0;
    }
    usize::from(numbers[g - 1])
}

// The same of a pick. Not by `renumber_one`: its answer would be cast down, with a proof that the cast loses nothing.
fn renumber_pick(numbers: &[u8; 64], n: usize, pick: u8) -> u8
    ensures { result ≡ renumber_by numbers.now n pick }
{
    let g = pick as usize;
    if g == 0 {
        return pick;
    }
    if n < g {
        return pick;
    }
    if MOST < g {
        return 0;
    }
    numbers[g - 1]
}

// The row of a number; the first for 0, none past the last.
pub fn row_numbered(rows: &[u64; 64], number: u8) -> u64
    ensures { result ≡ row_numbered rows.now number }
{
    let g = number as usize;
    if g == 0 {
        return rows[0];
    }
    if MOST < g {
        return 0;
    }
    rows[g - 1]
}

// The places of the first `n` numbers, where they are an arrangement of 1..n.
fn place_first(order: &[u8; 64], n: usize) -> Option<[u8; 64]>
    requires { (n ≤ 64) × (length order.now ≡ 64) × (zeros_from n order.now ≡ true) }
    ensures { result ≡ placed_as n order.now }
{
    let mut places = [0u8; 64];
    for i in 0..n {
        let g = usize::from(order[i]);
        if g == 0 {
            return None;
        }
        if n < g {
            return None;
        }
        if places[g - 1] != 0 {
            return None;
        }
        places[g - 1] = (i + 1) as u8;
    }
    Some(places)
}

// Whether the numbers from place `from` on are zeros.
fn zeros_from(order: &[u8; 64], from: usize) -> bool
    ensures { result ≡ zeros_from from order.now }
{
    for i in from..MOST {
        if order[i] != 0 {
            return false;
        }
    }
    true
}

// 1, 2, 3, .. up to `n`, padded with zeros.
fn plain_numbers(n: u64) -> [u8; 64]
    ensures { result ≡ plain_numbers n }
{
    let lift = lift_of(n as usize);
    array::from_fn(|i| plain_number(i as u8, lift))
}

// What lifts the places of the first `n` numbers, at most 64, to less than 128 and every other place to 128 or more.
fn lift_of(n: usize) -> u8
    ensures { result + min n 64 ≡ 128 }
{
    if n < MOST {
        return (128 - n) as u8;
    }
    64
}

// What is at a place of the plain order. How many numbers there are is told by `lift`: a byte that is below 128 is
// one that is not below 0 to a machine that compares 16 bytes at a time, where a comparison of places with a count
// would take words.
fn plain_number(i: u8, lift: u8) -> u8
    requires { (i < 64) × (lift ≤ 128) }
    ensures { result ≡ plain_at (128 - lift) i }
{
    if i + lift < 128 {
        return i + 1;
    }
    0
}
