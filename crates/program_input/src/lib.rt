// What the programs are given: standard input and the words of the command line, each in a buffer that the program lends.
#![tactic(auto)]

ghost use Rattle.std.specs.Prelude.{◌≡◌, ◌≤◌, ◌<◌, true, length, IfOk};
ghost use Rattle.std.specs.Io.KnownBytes.{Consumes, IsAtEnd};

use std::env::Env;
use std::io;
use std::io::Read;

// Reads until the buffer is full or the input ends, and gives what was read: the front of the input, and all of it where the buffer has room left.
pub fn read_input<'a, R: Read>(input: &mut R, space: &'a mut [u8]) -> io::Result<&'a [u8]>
    ensures given { IfOk result (λ given. Consumes (R.remaining input.old) (R.remaining input.new) given.now) }
    ensures ended { IfOk result (λ given. length given.now < length space.old → IsAtEnd (R.remaining input.new)) }
    ensures fits { IfOk result (λ given. length given.now ≤ length space.old) }
{
    let mut have = 0;
    // each turn reads into what is left of the buffer, which no iterator lends
    while have < space.len() {
        let more = input.read(&mut space[have..])?;
        if more == 0 {
            break;
        }
        have += more;
    }
    Ok(&space[..have])
}

// An argument, or no bytes where there is none or one that is longer than the buffer.
pub fn argument<'a>(rt: &impl Env, place: usize, space: &'a mut [u8]) -> &'a [u8]
    ensures { length result.now ≤ length space.old }
{
    match rt.arg(place, space) {
        Ok(n) => &space[..n],
        Err(_) => &[],
    }
}

// Whether an argument is this word of up to 64 bytes; no longer one is.
pub fn is_given(rt: &impl Env, place: usize, wanted: &[u8]) -> bool
    ensures { result ≡ true → length wanted.now ≤ 64 }
{
    let mut space = [0; 64];
    argument(rt, place, &mut space) == wanted
}
