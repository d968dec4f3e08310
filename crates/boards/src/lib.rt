// Sets of at most 8 gauges by 8 cases as one number of 64 bits: the board of a table's or a chain's rows, and the chain of a board.
// Any rows and any number are taken, nothing is refused, and no memory that is lent changes.
#![tactic(auto)]

ghost use Rattle.std.specs.Prelude.{◌≡◌};
ghost use Rattle.table.specs.Tables.{padded};
ghost use Rattle.boards.specs.Boards.{board as board_of, board_rows, corner};

use table::Chain;

// The rows of a board, and the numbers that a row of it can be.
const ROWS: usize = 8;

const WIDTH: u64 = 256;

// The board of the first 8 cases of the first 8 rows.
pub fn board_of(rows: &[u64; 64]) -> u64
    ensures { result ≡ board_of (corner rows.now) }
{
    let mut board: u64 = 0;
    for i in (0..ROWS).rev() {
        board = board * WIDTH + rows[i] % WIDTH;
    }
    board
}

// The chain of `gauges` rows that a board holds.
pub fn chain_of(board: u64, gauges: u64) -> Chain
    ensures { result ≡ record { gauges = gauges; rows = padded (board_rows 8 board) } }
{
    let mut rows = [0u64; 64];
    let mut left = board;
    for i in 0..ROWS {
        rows[i] = left % WIDTH;
        left /= WIDTH;
    }
    Chain {
        gauges: gauges,
        rows: rows,
    }
}
