// What the lines of the output are made of: bytes, labels and tables.
use std::{fmt, io};
use table::Table;

// A table with more pairs is shown by its shape and their number.
const MOST_SHOWN: u32 = 8;

// Writes a line.
pub fn line(rt: &impl Print, words: &[u8]) -> io::Result<()> {
    rt.write_all(words)?;
    rt.write_all(b"\n")
}

// The label at the end of a case's line.
pub fn label(rt: &impl Print, words: &[u8]) -> io::Result<()> {
    rt.write_all(b": ")?;
    line(rt, words)
}

// A table by its gauges, cases and number of pairs, then the pairs where they are few. Those of all 64 rows are shown, whatever the shape says.
#[derive(Clone, Copy)]
pub struct Shown(pub Table);

impl fmt::Display for Shown {
    fn fmt<W: fmt::Write>(&self, f: &mut fmt::Formatter<W>) -> fmt::Result {
        let t = self.0;
        let pairs = pairs(&t.rows);
        write!(f, "{} {} {pairs}", t.gauges, t.cases)?;
        if (1..=MOST_SHOWN).contains(&pairs) {
            f.write_str(",")?;
            for (g, row) in t.rows.iter().enumerate() {
                for c in 0..64u32 {
                    if (row >> c) & 1 == 1 {
                        write!(f, " {}:{}", g + 1, c + 1)?;
                    }
                }
            }
        }
        Ok(())
    }
}

fn pairs(rows: &[u64]) -> u32 {
    rows.iter()
        .map(|row| row.count_ones())
        .fold(0, u32::wrapping_add)
}
