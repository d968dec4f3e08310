// The kinds of line of a file (01, "The file"; 02, R-1 and R-5; refusals 2 to 7 and 20): the first line, which names the kind of file,
// comment lines, lines ahead of the entries, entry lines. Each function judges one line, lent without its end, whatever its bytes are: none
// has a `requires`, and none changes lent memory. Lines and fields are made in `text` and `entries`; the lines of a whole file are gone
// through in `reader`. A kind of file comes in here, in `first_line` and in `fields_by`, and nowhere else.
#![tactic(auto)]

ghost use Rattle.std.specs.Prelude.{◌≡◌};
ghost use Rattle.file_kinds.specs.Banner.{is_of_kind, first_line, first_line_says};
ghost use Rattle.file_kinds.specs.Kinds.{is_comment, head_line, head_line_says, pair_fields, fields_by, entry_line, entry_line_says};

use file_entries::EntryFields;
use file_text::Fields;
use recorded::Kind;
use refusals::Refusal;
use table::{Case, Gauge, Table};

// 01: "A line has at most 1,024 bytes without its end."
const MOST_LINE: usize = 1024;

// The length of `%%MatrixMarket`, with which a banner opens.
const OPENING: usize = 14;

// 02: v is "in -1,000,000..1,000,000".
const MOST_READING: u64 = 1_000_000;

// A line ahead of the entries: passed over; the size line, with the last gauge, the last case and the number of entries; or refused.
// No `Result<Option<..>, Refusal>`: that would leave the three kinds of line without a name, and their reader, who numbers lines, without `?`.
#[derive(Clone, Copy)]
pub enum HeadLine {
    Skip,
    Size(Gauge, Case, u64),
    Bad(Refusal),
}

// A line behind the size line: passed over, an entry with its reading, or refused; no `Result`, for the same reason.
#[derive(Clone, Copy)]
pub enum EntryLine {
    Skip,
    Entry(Gauge, Case, i32),
    Bad(Refusal),
}

// "First line: 2 not the banner." Its words may have capitals; `integers` says whether the banner of an integer file is taken too.
// A flag, as the clauses of the readers have it: it says which files are taken, and not which step to run.
pub fn first_line(line: &[u8], integers: bool) -> Option<Kind>
    ensures { first_line_says result ≡ first_line_says (first_line integers line.now) }
{
    if is_of_kind(line, b" matrix coordinate pattern general") {
        return Some(Kind::Pattern);
    }
    if !integers {
        return None;
    }
    if is_of_kind(line, b" matrix coordinate integer general") {
        return Some(Kind::Integer);
    }
    None
}

// "Comment lines (first byte `%`)."
pub fn is_comment(line: &[u8]) -> bool
    ensures { result ≡ is_comment line.now }
{
    matches!(line, [b'%', ..])
}

// A line ahead of the entries: a comment, blank, or the size line.
pub fn head_line(line: &[u8]) -> HeadLine
    ensures { head_line_says result ≡ head_line_says (head_line line.now) }
{
    if MOST_LINE < line.len() {
        return HeadLine::Bad(Refusal::LineTooLong);
    }
    if is_comment(line) {
        return HeadLine::Skip;
    }
    let f = file_text::fields_of(line);
    if let Fields::Blank = f {
        return HeadLine::Skip;
    }
    let Fields::Three(g, c, n) = f else {
        return HeadLine::Bad(Refusal::SizeFields);
    };
    if !table::in_range(g, Table::MOST_GAUGES) {
        return HeadLine::Bad(Refusal::SizeRange);
    }
    if !table::in_range(c, Table::MOST_CASES) {
        return HeadLine::Bad(Refusal::SizeRange);
    }
    HeadLine::Size(Gauge(g), Case(c), n)
}

// A line behind the size line of a file of a kind, where `gauges` is the last gauge and `cases` the last case: blank, or an entry.
#[tactic(auto, unfolding(crate::specs::Kinds::entry_line, crate::specs::Kinds::entry_of))]
pub fn entry_line(line: &[u8], kind: Kind, gauges: Gauge, cases: Case) -> EntryLine
    ensures { entry_line_says result ≡ entry_line_says (entry_line kind gauges cases line.now) }
{
    if MOST_LINE < line.len() {
        return EntryLine::Bad(Refusal::LineTooLong);
    }
    let f = fields_by(line, kind);
    if let EntryFields::Blank = f {
        return EntryLine::Skip;
    }
    let EntryFields::Entry(g, c, v) = f else {
        return EntryLine::Bad(Refusal::PairFields);
    };
    if !table::in_range(g, gauges.0) {
        return EntryLine::Bad(Refusal::PairRange);
    }
    if !table::in_range(c, cases.0) {
        return EntryLine::Bad(Refusal::PairRange);
    }
    if MOST_READING < recorded::magnitude(v) {
        return EntryLine::Bad(Refusal::ReadingRange);
    }
    EntryLine::Entry(Gauge(g), Case(c), v)
}

// Whether a line is the banner with these words, its own in small letters.
fn is_of_kind(line: &[u8], words: &[u8]) -> bool
    ensures { result ≡ is_of_kind words.now line.now }
{
    if line.len() < OPENING {
        return false;
    }
    file_text::same_bytes(&line[..OPENING], b"%%MatrixMarket")
        && file_text::same_small(&line[OPENING..], words)
}

// The fields of an entry line, by the kind of file.
#[tactic(auto, using(file_entries::proofs::Saying::entry_fields_are), unfolding(crate::specs::Kinds::fields_by))]
fn fields_by(line: &[u8], kind: Kind) -> EntryFields
    ensures { result ≡ fields_by kind line.now }
{
    match kind {
        Kind::Pattern => pair_fields(line),
        Kind::Integer => file_entries::entry_fields(line),
    }
}

// The two fields of a pair line, with the reading 0.
fn pair_fields(line: &[u8]) -> EntryFields
    ensures { result ≡ pair_fields line.now }
{
    let f = file_text::fields_of(line);
    match f {
        Fields::Blank => EntryFields::Blank,
        Fields::Two(g, c) => EntryFields::Entry(g, c, 0),
        Fields::Three(..) | Fields::Other => EntryFields::Other,
    }
}
