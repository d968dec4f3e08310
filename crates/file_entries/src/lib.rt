// The fields of an entry line `g c v` of an integer file (02, R-5): two numbers as in every line, and a reading that may have a sign. Any
// bytes are taken, nothing is refused here and no lent memory changes; no public function has a `requires`. Which entries are in range is
// in `kinds`; the fields of lines without a sign are in `text`.
#![tactic(auto)]

ghost use Rattle.std.specs.Prelude.{◌≡◌, false, ◌≤◌, ◌<◌, ◌^◌, length, get_or};
ghost use Rattle.file_text.specs.Fields.{is_blank};
ghost use Rattle.file_entries.specs.Values.{is_minus, unsigned, with_sign, value_of};
ghost use Rattle.file_entries.specs.Words.{entry_fields, entry_fields_say};
ghost use Rattle.file_entries.specs.private.WordSteps.{WordAt, Skipped, Ended, Cuts, entry_at};
ghost use Rattle.file_entries.specs.private.ValueSteps.{NumberIs, signed_says};

// The digits that a field has at most (01: "A field is 1 to 9 digits"; 02: "and 1 to 9 digits").
const MOST_DIGITS: usize = 9;

// The fields of an entry line: none, or a gauge, a case and a reading; any other line is malformed.
#[derive(Clone, Copy)]
pub enum EntryFields {
    Blank,
    Entry(u64, u64, i32),
    Other,
}

// A part of a line.
#[derive(Clone, Copy)]
struct Cut {
    pub start: usize,
    pub end: usize,
}

// The fields of an entry line.
pub fn entry_fields(line: &[u8]) -> EntryFields
    ensures { entry_fields_say result ≡ entry_fields_say (entry_fields line.now) }
{
    let Some(a) = word_at(line, 0) else {
        return EntryFields::Blank;
    };
    let Some(b) = word_at(line, a.end) else {
        return EntryFields::Other;
    };
    let Some(c) = word_at(line, b.end) else {
        return EntryFields::Other;
    };
    if let Some(_) = word_at(line, c.end) {
        return EntryFields::Other;
    }
    entry_of(line, a, b, c)
}

// The first word from a place on.
#[tactic(auto, using(crate::proofs::Words::word_none))]
fn word_at(line: &[u8], at: usize) -> Option<Cut>
    requires { at ≤ length line.now }
    ensures { WordAt line.now at result }
{
    let start = skip_blanks(line, at);
    if line.len() <= start {
        return None;
    }
    let end = word_end(line, start);
    Some(Cut { start, end })
}

// The first place from `at` on that is not blank.
#[tactic(auto, using(crate::proofs::Words::skip_more))]
fn skip_blanks(line: &[u8], at: usize) -> usize
    requires { at ≤ length line.now }
    ensures { Skipped line.now at result }
{
    for i in at..line.len() {
        if !file_text::is_blank(line[i]) {
            return i;
        }
    }
    line.len()
}

// The end of the word that starts at `at`.
#[tactic(auto, using(crate::proofs::Words::run_more, crate::proofs::Words::run_blank, crate::proofs::Words::run_line))]
fn word_end(line: &[u8], at: usize) -> usize
    requires { (at < length line.now) × (is_blank (get_or line.now at 0) ≡ false) }
    ensures { Ended line.now at result }
{
    for i in at + 1..line.len() {
        if file_text::is_blank(line[i]) {
            return i;
        }
    }
    line.len()
}

// Two numbers and a reading, from their words.
fn entry_of(line: &[u8], a: Cut, b: Cut, c: Cut) -> EntryFields
    requires { Cuts line.now a b c }
    ensures { result ≡ entry_at line.now a b c }
{
    let Some(g) = number_of(&line[a.start..a.end]) else {
        return EntryFields::Other;
    };
    let Some(k) = number_of(&line[b.start..b.end]) else {
        return EntryFields::Other;
    };
    let Some(v) = value_of(&line[c.start..c.end]) else {
        return EntryFields::Other;
    };
    EntryFields::Entry(g, k, v)
}

// The reading of a word: an optional sign, and the number behind it.
fn value_of(word: &[u8]) -> Option<i32>
    ensures { signed_says result ≡ value_of word.now }
{
    let n = number_of(unsigned(word))?;
    Some(with_sign(is_minus(word), n))
}

// The number of a word of digits alone.
#[tactic(auto, using(crate::proofs::Signs::number_empty, crate::proofs::Signs::number_wide, crate::proofs::Signs::number_bad, crate::proofs::Signs::digits_done))]
fn number_of(word: &[u8]) -> Option<u64>
    ensures { NumberIs word.now result }
{
    if word.is_empty() || MOST_DIGITS < word.len() {
        return None;
    }
    let mut v: u64 = 0;
    for i in 0..word.len() {
        let d = file_text::digit_of(word[i]);
        if 9 < d {
            return None;
        }
        v = v * 10 + d;
    }
    Some(v)
}

// Whether a word starts with the sign -.
#[tactic(auto, unfolding(crate::specs::Values::is_minus))]
fn is_minus(word: &[u8]) -> bool
    ensures { result ≡ is_minus word.now }
{
    matches!(word, [b'-', ..])
}

// A word without its sign, + or -.
#[tactic(auto, unfolding(crate::specs::Values::unsigned))]
fn unsigned(word: &[u8]) -> &[u8]
    ensures { result.now ≡ unsigned word.now }
{
    match word {
        [b'+' | b'-', digits @ ..] => digits,
        _ => word,
    }
}

// A number with a sign.
fn with_sign(minus: bool, n: u64) -> i32
    requires { n < 10 ^ 9 }
    ensures { result ≡ with_sign minus n }
{
    let v = n as i32;
    if minus { -v } else { v }
}
