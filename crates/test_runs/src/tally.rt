// What a group of checks has counted: tables, ladders handed out, calls, and comparisons that failed, the first of which is written out.
use std::{fmt, io};

// A table, its pairs as a board.
#[derive(Clone, Copy, Default)]
pub struct Board {
    pub gauges: u64,
    pub cases: u64,
    pub pairs: u64,
}

// A comparison that failed: what was expected and found, and the table.
#[derive(Clone, Copy)]
struct Disagreement {
    want: u64,
    got: u64,
    board: Board,
}

// The table at hand, the counts, and the first comparison that failed.
#[derive(Clone, Copy, Default)]
pub struct Tally {
    board: Board,
    tables: u64,
    ladders: u64,
    calls: u64,
    wrong: u64,
    first: Option<Disagreement>,
}

impl Tally {
    // The table that the next comparisons are about.
    pub fn about(&mut self, board: Board) {
        self.board = board;
        self.tables = self.tables.wrapping_add(1);
    }

    // One comparison of two numbers.
    // No `==` stands for it: it counts the comparison, and a difference.
    pub fn same(&mut self, want: u64, got: u64) {
        if want == got {
            return;
        }
        self.wrong = self.wrong.wrapping_add(1);
        if self.first.is_none() {
            self.first = Some(Disagreement {
                want,
                got,
                board: self.board,
            });
        }
    }

    // One call of the library.
    pub fn called(&mut self) {
        self.calls = self.calls.wrapping_add(1);
    }

    // A ladder that it handed out.
    pub fn handed_out(&mut self) {
        self.ladders = self.ladders.wrapping_add(1);
    }

    // The line of a group, and ahead of it the first comparison that failed.
    pub fn sum_up(&self, rt: &impl Print, group: &str) -> io::Result<()> {
        if let Some(first) = self.first {
            println!(rt; "{first}")?;
        }
        println!(rt; "{group}{self}")
    }
}

impl fmt::Display for Disagreement {
    fn fmt<W: fmt::Write>(&self, f: &mut fmt::Formatter<W>) -> fmt::Result {
        let board = self.board;
        write!(
            f,
            "FIRST DISAGREEMENT, expected {} found {} for the table {} {} {}",
            self.want, self.got, board.gauges, board.cases, board.pairs
        )
    }
}

impl fmt::Display for Tally {
    fn fmt<W: fmt::Write>(&self, f: &mut fmt::Formatter<W>) -> fmt::Result {
        write!(
            f,
            "{} tables, {} ladders, {} calls, {} disagreements",
            self.tables, self.ladders, self.calls, self.wrong
        )
    }
}
