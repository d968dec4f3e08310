// What a caller of the C library asks for beside its questions: the number of the release, a refusal in words, and
// the plain order. Any slices are taken: a slice shorter than its layout is refused with 100 before anything else,
// and a refusal leaves all lent memory as it was. The public functions have no `requires`.
#![tactic(auto)]

ghost use Rattle.std.specs.Prelude.{◌≡◌, ◌≤◌, length, get_or};
ghost use Rattle.words.specs.Layouts.{Put};
ghost use Rattle.c_support.specs.Words.{words_of};
ghost use Rattle.c_support.specs.Serving.{this_release, SaysWords, GivesPlain};
ghost use Rattle.c_support.specs.private.Texts.{later_words, text_of};

use preference::GaugeOrder;
use refusals::Refusal;
use std::array;
use table;
use table::Table;
use words;
use words::{ORDER, SHORT};

// This release, as the file VERSION has it.
const MAJOR: u64 = 1;

const MINOR: u64 = 0;

const PATCH: u64 = 0;

// The bytes of lent words, and the words of their length.
const BYTES: usize = 80;

const LENGTH: usize = 1;

// Words as lent memory has them, padded with zeros, and how many bytes they are.
// An array with its length, and no `String`: the C library has fixed memory and no heap.
#[derive(Clone, Copy)]
struct Text {
    pub bytes: [u8; 80],
    pub length: u64,
}

// The number of this release.
pub fn version() -> u64
    ensures { result ≡ this_release }
{
    MAJOR * 10000 + MINOR * 100 + PATCH
}

// Puts the words of a number that an entry returns into `text`, padded with zeros, and how many bytes they are into
// `length`.
pub fn say(number: u64, text: &mut [u8], length: &mut [u64]) -> u64
    ensures { SaysWords number text.old length.old text.new length.new result }
{
    if text.len() < BYTES {
        return SHORT;
    }
    if length.len() < LENGTH {
        return SHORT;
    }
    let said = text_of(number);
    let bytes = said.bytes;
    put_bytes(text, bytes);
    words::put_word(length, 0, said.length);
    0
}

// Puts the plain order 1, 2, 3, .. up to `n` into `order`, padded with zeros.
pub fn plain_order(n: u64, order: &mut [u64]) -> u64
    ensures { GivesPlain n order.old order.new result }
{
    if order.len() < ORDER {
        return SHORT;
    }
    if !table::in_range(n, Table::MOST_GAUGES) {
        return Refusal::TableShape.number();
    }
    let plain = GaugeOrder::plain(n);
    let numbers = plain.numbers;
    words::put_numbers(order, 0, numbers);
    0
}

// The words of a number, as `texts` of specs/Words.antt has them. A further number is one arm below, one line there,
// three lines of the proof of its function, and a row of docs/MANUAL.md. Two functions share the arms: their checks
// take less time than that of one.
fn text_of(number: u64) -> Text
    ensures { result ≡ text_of (words_of number) }
{
    match number {
        0 => filled(b"accepted"),
        1 => filled(b"file longer than 65,536 bytes"),
        2 => filled(b"first line is not the banner"),
        3 => filled(b"line longer than 1,024 bytes"),
        4 => filled(b"size line absent or not three fields"),
        5 => filled(b"G or L not in 1..64"),
        6 => filled(b"pair line not two fields"),
        7 => filled(b"g or c outside 1..G, 1..L"),
        8 => filled(b"pair repeated"),
        9 => filled(b"more or fewer than N pairs"),
        10 => filled(b"G or L not in 1..64"),
        11 => filled(b"a bit at L or above, or a row past G not zero"),
        12 => filled(b"row count not G"),
        13 => filled(b"a pair not in the table"),
        14 => filled(b"not a chain"),
        _ => later_text(number),
    }
}

// The same of a number that is none of these.
fn later_text(number: u64) -> Text
    ensures { result ≡ text_of (later_words number) }
{
    match number {
        15 => filled(b"a value that no moves from a fresh start lead to"),
        16 => filled(b"buffer too short"),
        17 => filled(b"no such comment"),
        18 => filled(b"budget above 1,000,000"),
        19 => filled(b"the pair named is not in the table"),
        20 => filled(b"reading outside -1,000,000..1,000,000"),
        21 => filled(b"cutoff not in 1..1,000,000"),
        22 => filled(b"the pair is in the ladder"),
        23 => filled(b"G or L above 8"),
        24 => filled(b"more than 1,024 ladders"),
        25 => filled(b"not a ladder of the table"),
        26 => filled(b"the proposal is not what the trial on the current table gives"),
        27 => filled(b"the preference is no arrangement"),
        28 => filled(b"the start is zero or the density above 256"),
        100 => filled(b"lent memory is shorter than its layout"),
        _ => filled(b"a number without words"),
    }
}

// Bytes as lent memory has them: the first 80, padded with zeros, and how many they are.
fn filled(s: &[u8]) -> Text
    ensures { result ≡ text_of s.now }
{
    let bytes = array::from_fn(|i| byte_at(s, i));
    Text {
        bytes,
        length: s.len() as u64,
    }
}

// The byte at a place, 0 behind the last.
fn byte_at(s: &[u8], at: usize) -> u8
    ensures { result ≡ get_or s.now at 0 }
{
    if s.len() <= at {
        return 0;
    }
    s[at]
}

// Puts 80 bytes over the front of `out`.
fn put_bytes(out: &mut [u8], bytes: [u8; 80])
    requires { 80 ≤ length out.old }
    ensures { Put out.old 0 bytes out.new }
{
    out[..BYTES].copy_from_slice(&bytes);
}
