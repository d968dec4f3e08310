// The library under test: the one file that names its types, but for `Table`, and the numbers that refusals have in 01.
use refusals::Refusal;
use table::Table;

pub fn read(file: &[u8]) -> Result<Table, Refusal> {
    file_reader::read(file)
}

// Where a comment is.
#[derive(Clone, Copy)]
pub struct Place {
    pub start: usize,
    pub length: usize,
}

pub fn comment_at(file: &[u8], k: u64) -> Result<Place, Refusal> {
    let found = file_reader::comment_at(file, k)?;
    Ok(Place {
        start: found.start,
        length: found.len,
    })
}

// The part of the file that is shown for a comment.
pub fn comment(file: &[u8], k: u64) -> &[u8] {
    file_reader::comment(file, k)
}
