// The parts of the script on standard input: numbers, and the fields of a case's line.

// The decimal number that a text begins with, modulo 2^64; 0 where it begins with none.
pub fn number(text: &[u8]) -> u64 {
    text.iter()
        .map_while(digit)
        .fold(0, |n: u64, d| n.wrapping_mul(10).wrapping_add(d))
}

// The value of a digit.
pub fn digit(byte: &u8) -> Option<u64> {
    match byte {
        b'0'..=b'9' => Some(u64::from(byte - b'0')),
        _ => None,
    }
}

// The number behind the verb of a line; 0 where there is none.
pub fn argument(line: &[u8]) -> u64 {
    line.split(|byte| *byte == b' ').nth(1).map_or(0, number)
}

// The second field of a line; the line where there is none.
pub fn label(line: &[u8]) -> &[u8] {
    line.split(|byte| *byte == b'|').nth(1).unwrap_or(line)
}

// What comes after the second field; the line where there is none.
pub fn content(line: &[u8]) -> &[u8] {
    line.splitn(3, |byte| *byte == b'|').nth(2).unwrap_or(line)
}
