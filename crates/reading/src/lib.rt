#![tactic(auto)]

// Reading for the programs: a file or standard input into a buffer that is there, with no memory asked for.
ghost use Rattle.std.specs.Prelude.{◌≤◌, length};

use std::io::Read;

// Reads until the buffer is full, the input ends or a read fails. Answers how many bytes stand at the buffer's start.
pub fn read_full(input: &mut impl Read, buf: &mut [u8]) -> usize
    ensures { result ≤ length buf.new }
{
    let mut count = 0;
    while count < buf.len() {
        match input.read(&mut buf[count..]) {
            Ok(0) | Err(_) => break,
            Ok(n) => count += n,
        }
    }
    count
}
