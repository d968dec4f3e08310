// Lines and fields of a text file that is lent as bytes: the line at a place, the fields of a line, and whether two texts are the same;
// and single bytes, blanks and digits, for crate `file_entries`, whose fields may have a sign.
// Every public function takes any bytes and any place and refuses nothing; none changes lent memory.
#![tactic(auto)]

ghost use Rattle.std.specs.Prelude.{◌≡◌, map, ◌≤◌, length};
ghost use Rattle.file_text.specs.Lines.{span_at};
ghost use Rattle.file_text.specs.Fields.{is_blank, digit_of, fields, fields_say};
ghost use Rattle.file_text.specs.Bytes.{same_bytes, small as small_of};
ghost use Rattle.file_text.specs.private.ScanSteps.{end_size, FieldAt};

// The digits that a field has at most (01: "A field is 1 to 9 digits").
const MOST_DIGITS: u64 = 9;

// What `digit_of` gives for a byte that is no digit: a number and no `Option`, as the definition that it promises has it.
const NO_DIGIT: u64 = 10;

// A line of a file: where its text ends, and where the next line starts.
#[derive(Clone, Copy)]
pub struct Span {
    pub end: usize,
    pub next: usize,
}

// The fields of a line: none, two or three; any other line is malformed for every reader here.
#[derive(Clone, Copy)]
pub enum Fields {
    Blank,
    Two(u64, u64),
    Three(u64, u64, u64),
    Other,
}

// The first field from a place on, with the place where the line goes on.
#[derive(Clone, Copy)]
enum Field {
    Number(u64, usize),
    End,
    Bad,
}

// The line that starts at a place; an empty one at or past the file's end.
pub fn line_at(file: &[u8], at: usize) -> Span
    ensures { result ≡ span_at file.now at }
{
    for i in at..file.len() {
        let e = end_at(&file[i..]);
        if 0 < e {
            return Span {
                end: i,
                next: i + e,
            };
        }
    }
    let end = at.max(file.len());
    Span { end, next: end }
}

// The fields of a line.
pub fn fields_of(line: &[u8]) -> Fields
    ensures { fields_say result ≡ fields_say (fields line.now) }
{
    let f1 = field_at(line, 0);
    if let Field::End = f1 {
        return Fields::Blank;
    }
    let Field::Number(a, p) = f1 else {
        return Fields::Other;
    };
    let f2 = field_at(line, p);
    let Field::Number(b, q) = f2 else {
        return Fields::Other;
    };
    let f3 = field_at(line, q);
    if let Field::End = f3 {
        return Fields::Two(a, b);
    }
    let Field::Number(c, s) = f3 else {
        return Fields::Other;
    };
    let f4 = field_at(line, s);
    let Field::End = f4 else {
        return Fields::Other;
    };
    Fields::Three(a, b, c)
}

// Whether two texts are the same.
// One derived comparison; it stays, since it is public and an edit changes it.
pub fn same_bytes(a: &[u8], b: &[u8]) -> bool
    ensures { result ≡ same_bytes a.now b.now }
{
    a == b
}

// Whether a text, its capitals taken as small letters, is another one.
#[tactic(auto, using(crate::proofs::SmallLetters::small_lengths, crate::proofs::SmallLetters::small_end, crate::proofs::SmallLetters::small_differ, crate::proofs::SmallLetters::small_more))]
pub fn same_small(a: &[u8], b: &[u8]) -> bool
    ensures { result ≡ same_bytes (map small_of a.now) b.now }
{
    if a.len() != b.len() {
        return false;
    }
    for i in 0..a.len() {
        if small(a[i]) != b[i] {
            return false;
        }
    }
    true
}

// "Blanks are space and tab."
pub fn is_blank(b: u8) -> bool
    ensures { result ≡ is_blank b }
{
    b == b' ' || b == b'\t'
}

// The value of a digit, `NO_DIGIT` for any other byte.
// A number for none: its public clause, by `digit_of` of specs/Fields, says 10 there.
pub fn digit_of(b: u8) -> u64
    ensures { result ≡ digit_of b }
{
    match b {
        b'0'..=b'9' => (b - b'0') as u64,
        _ => NO_DIGIT,
    }
}

// A capital letter, A to Z, as the small one; any other byte as it is.
#[tactic(auto, unfolding(crate::specs::Bytes::small))]
fn small(b: u8) -> u8
    ensures { result ≡ small_of b }
{
    match b {
        b'A'..=b'Z' => b + 32,
        _ => b,
    }
}

// The bytes of the end of line that comes next: 1 for LF, 2 for CR LF, 0 for none. A CR that no LF follows is an ordinary byte.
// It is a length, and 0 that of no end: `end_size` gives it, and a span adds it to its place.
// What follows a CR is looked at behind a CR alone: a pattern of both bytes would ask at every byte of a file whether two are left.
fn end_at(rest: &[u8]) -> usize
    ensures { result ≡ end_size rest.now }
{
    match rest {
        [b'\r', ..] => match rest {
            [_, b'\n', ..] => 2,
            _ => 0,
        },
        [b'\n', ..] => 1,
        _ => 0,
    }
}

// The first field from a place on: `k` digits of it are read, and `v` is their number.
fn field_at(line: &[u8], at: usize) -> Field
    requires { at ≤ length line.now }
    ensures { FieldAt line.now at result }
{
    let mut k: u64 = 0;
    let mut v: u64 = 0;
    for i in at..line.len() {
        let b = line[i];
        if is_blank(b) {
            if 0 < k {
                return Field::Number(v, i + 1);
            }
            continue;
        }
        if k == MOST_DIGITS {
            return Field::Bad;
        }
        let d = digit_of(b);
        if 9 < d {
            return Field::Bad;
        }
        v = v * 10 + d;
        k += 1;
    }
    if 0 < k {
        return Field::Number(v, line.len());
    }
    Field::End
}
