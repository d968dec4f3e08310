// Boards of `plain` as rows, and rows as boards.
use super::plain;
use super::tally::Board;
use table::Table;

// The table of a board; blank where there is none.
pub fn table_of(board: Board) -> Table {
    Table::from_rows(board.gauges, board.cases, rows_of(board.pairs)).unwrap_or(
        table::blank_table(),
    )
}

pub fn rows_of(pairs: u64) -> [u64; 64] {
    let mut rows = [0; 64];
    for g in 0..8usize {
        rows[g] = plain::row(pairs, g as u64 + 1);
    }
    rows
}

// How many of 64 rows are not those of a set of pairs.
pub fn rows_off(rows: &[u64; 64], pairs: u64) -> u64 {
    rows.iter()
        .zip(1..=64)
        .filter(|(row, gauge)| **row != plain::row(pairs, *gauge))
        .count() as u64
}

// The first eight rows as a set of pairs, eight cases each.
pub fn pairs_of(rows: &[u64; 64]) -> u64 {
    rows[..8]
        .iter()
        .rev()
        .fold(0, |pairs, row| (pairs << 8) | (row & 255))
}
