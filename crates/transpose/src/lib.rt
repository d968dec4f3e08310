// A set of pairs with gauges and cases exchanged (01: "the table with gauges and cases exchanged"), as many rows and
// columns of it as are asked for, as an array or straight into a buffer. Any numbers are taken, and nothing is
// refused.
#![tactic(auto)]

ghost use Rattle.std.specs.Prelude.{◌≡◌, ◌+◌, ◌≤◌, ◌<◌, min, length};
ghost use Rattle.table.specs.Tables.{padded};
ghost use Rattle.transpose.specs.Transposing.{transpose, column as column_of};
ghost use Rattle.transpose.specs.Places.{places};
ghost use Rattle.transpose.specs.Putting.{PutsIn};
ghost use Rattle.transpose.specs.private.Fours.{four_of};
ghost use Rattle.transpose.specs.private.Puts.{Putting};

use table;

// The first rows of a set, at most 64, so that a column has room in a word.
#[derive(Clone, Copy)]
struct FirstRows<'a> {
    rows: &'a [u64; 64],
    many: usize,
    ghost few: { many ≤ 64 },
}

// Four columns, from one on.
#[derive(Clone, Copy)]
struct Four {
    pub a: u64,
    pub b: u64,
    pub c: u64,
    pub d: u64,
}

// The first `width` columns of the first `many` rows, at most 64 of each, padded with zeros.
pub fn transposed(rows: &[u64; 64], many: usize, width: usize) -> [u64; 64]
    ensures { result ≡ padded (transpose (min width 64) (places many rows.now)) }
{
    let last = table::at_most_rows(width);
    let high = table::at_most_rows(many);
    let first = FirstRows { rows, many: high };
    let mut columns = [0u64; 64];
    first.put_columns(last, &mut columns, 0);
    columns
}

// The same columns, straight into a buffer from place `at` on: no array is cleared and copied. Where the buffer has
// no room for them, nothing changes.
pub fn transpose_into(rows: &[u64; 64], many: usize, width: usize, out: &mut [u64], at: usize)
    ensures { PutsIn (transpose (min width 64) (places many rows.now)) out.old at out.new }
{
    let last = table::at_most_rows(width);
    if out.len() < last {
        return;
    }
    if out.len() - last < at {
        return;
    }
    let first = FirstRows {
        rows,
        many: table::at_most_rows(many),
    };
    first.put_columns(last, out, at);
}

impl FirstRows<'_> {
    // Puts the first `width` columns from a place on. They are gathered by fours while there are as many, which halves the time.
    fn put_columns(self, width: usize, out: &mut [u64], at: usize)
        requires { (width ≤ 64) × (at + width ≤ length out.old) }
        ensures { Putting (places self.entry.many self.entry.rows.now) out.old at width out.new }
    {
        let fours = width / 4;
        for q in 0..fours {
            let k = 4 * q;
            let f = self.four_columns(k as u64);
            out[at + k] = f.a;
            out[at + k + 1] = f.b;
            out[at + k + 2] = f.c;
            out[at + k + 3] = f.d;
        }
        for k in 4 * fours..width {
            out[at + k] = self.column(k as u64);
        }
    }

    // The rows that have place `k`, as a set, from the last row to the first.
    fn column(self, k: u64) -> u64
        requires { k < 64 }
        ensures { result ≡ column_of (places self.entry.many self.entry.rows.now) k }
    {
        let mut set: u64 = 0;
        for i in (0..self.many).rev() {
            set = set * 2 + (self.rows[i] >> k) % 2;
        }
        set
    }

    // The same for place `k` and the three behind it.
    fn four_columns(self, k: u64) -> Four
        requires { k + 3 < 64 }
        ensures { result ≡ four_of (places self.entry.many self.entry.rows.now) k }
    {
        let mut a: u64 = 0;
        let mut b: u64 = 0;
        let mut c: u64 = 0;
        let mut d: u64 = 0;
        for i in (0..self.many).rev() {
            let row = self.rows[i] >> k;
            a = a * 2 + row % 2;
            b = b * 2 + (row >> 1) % 2;
            c = c * 2 + (row >> 2) % 2;
            d = d * 2 + (row >> 3) % 2;
        }
        Four { a, b, c, d }
    }
}
