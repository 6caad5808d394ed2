#![tactic(auto)]

// The run program: reads network.bin and tokens.bin, loads, runs with budget 1,000, and prints the outcome and what each output got, or the refusal.
ghost use Rattle.std.specs.Prelude.{◌≤◌, length};

use reading::read_full;
use std::rt::Files;
use std::{fs, io};

// The bytes of a file, as many as there is room for, at the buffer's start; none for a file that can't be opened. Answers how many.
fn read_file(rt: &impl Files, path: &str, buf: &mut [u8]) -> usize
    ensures { result ≤ length buf.new }
{
    match fs::open(rt, path) {
        Ok(mut file) => read_full(&mut file, buf),
        Err(_) => 0,
    }
}

// A byte more than a file may have is read, so that a longer file is refused. The buffers hold the largest state and the longest text.
fn main(rt: HostRuntime) -> io::Result<()> {
    let mut net = [0u8; 16385];
    let mut tokens = [0u8; 16385];
    let mut state = [0u8; 61088];
    let mut text = [0u8; 184275];
    let n = read_file(&rt, "network.bin", &mut net);
    let m = read_file(&rt, "tokens.bin", &mut tokens);
    let end = running::run_text(&net[0..n], &tokens[0..m], &mut state, &mut text);
    rt.write_all(&text[0..end])
}
