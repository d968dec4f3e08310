// Files from the text of the script.
ghost use Rattle.std.specs.Prelude.{◌-◌, ◌≤◌, length};
ghost use Rattle.std.specs.Iterator.{at_most};

use crate::script;

// One byte more than the longest file.
const ROOM: usize = 65537;

// The bytes of a comment line, with its LF.
const COMMENT_LINE: u64 = 1025;

// A file as it is made. A byte that has no room is dropped.
// An array with its length: the longest file is known, and the tests need no heap.
#[derive(Drop)]
pub struct File {
    space: [u8; ROOM],
    len: usize,
    ghost fits: { len ≤ 65537 },
}

impl File {
    pub fn empty() -> File {
        File {
            space: [0; ROOM],
            len: 0,
        }
    }

    pub fn bytes(&self) -> &[u8] {
        &self.space[..self.len]
    }

    // Stores the file of a text behind what is there.
    pub fn store(&mut self, text: &[u8]) {
        match text {
            [b'@', rest @ ..] => {
                self.store_items(b"%%MatrixMarket matrix coordinate pattern general\n");
                self.store_items(rest)
            }
            [b'$', rest @ ..] => {
                self.store_items(b"%%MatrixMarket matrix coordinate integer general\n");
                self.store_items(rest)
            }
            _ => self.store_items(text),
        }
    }

    fn store_items(&mut self, text: &[u8]) {
        for item in Items(text) {
            for _ in 0..item.times {
                for place in 0..item.unit.width() {
                    self.push(item.unit.byte(place));
                }
            }
        }
    }

    fn push(&mut self, byte: u8) {
        if self.len < ROOM {
            self.space[self.len] = byte;
            self.len += 1;
        }
    }
}

// What a byte or an escape stands for: a byte, or a comment line.
#[derive(Clone, Copy)]
enum Unit {
    Byte(u8),
    Comment,
}

impl Unit {
    fn width(self) -> u64 {
        match self {
            Unit::Byte(_) => 1,
            Unit::Comment => COMMENT_LINE,
        }
    }

    fn byte(self, place: u64) -> u8 {
        match self {
            Unit::Byte(byte) => byte,
            Unit::Comment if place == COMMENT_LINE - 1 => b'\n',
            Unit::Comment => b'%',
        }
    }

    // What the letter behind a backslash stands for.
    fn escaped(letter: u8) -> Unit {
        match letter {
            b'c' => Unit::Comment,
            b'f' => Unit::Byte(12),
            b'n' => Unit::Byte(b'\n'),
            b'r' => Unit::Byte(b'\r'),
            b's' => Unit::Byte(b' '),
            b't' => Unit::Byte(b'\t'),
            b'z' => Unit::Byte(0),
            _ => Unit::Byte(letter),
        }
    }
}

// A unit, and how many times it comes.
#[derive(Clone, Copy)]
struct Item {
    unit: Unit,
    times: u64,
}

// The items of a text: a byte or an escape, or N times one.
#[derive(Drop)]
struct Items<'a>(&'a [u8]);

impl Iterator for Items<'_> {
    type Item = Item;

    ghost remaining = { λ s. at_most (length s.0.now) };

    fn next(&mut self) -> Option<Item> {
        let text = self.0;
        let (times, text) = match text {
            [] => return None,
            [b'\\', rest @ ..] if is_number(rest) => (times(rest), behind_number(rest)),
            _ => (1, text),
        };
        let (unit, rest) = first_unit(text);
        self.0 = rest;
        Some(Item { unit, times })
    }
}

fn is_number(text: &[u8]) -> bool {
    text.first().and_then(script::digit).is_some()
}

// No item comes more often than a file has bytes.
fn times(text: &[u8]) -> u64 {
    match script::number(text) {
        n @ ..=65537 => n,
        _ => 0,
    }
}

fn behind_number(text: &[u8]) -> &[u8]
    ensures { length result.now ≤ length text.now }
{
    match text.iter().position(|byte| *byte == b';') {
        Some(i) => &text[i + 1..],
        None => &[],
    }
}

// The byte or escape that a text begins with, and what comes after it; a zero byte where there is none.
fn first_unit(text: &[u8]) -> (Unit, &[u8])
    ensures { length result.1.now ≤ length text.now - 1 }
{
    match text {
        [b'\\', letter, rest @ ..] => (Unit::escaped(*letter), rest),
        [] | [b'\\'] => (Unit::Byte(0), &[]),
        [byte, rest @ ..] => (Unit::Byte(*byte), rest),
    }
}
