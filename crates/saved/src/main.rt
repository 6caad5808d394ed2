#![tactic(auto)]

// Loads, output files and checks of saved states. Reads rows, made from outside vectors: 0 for a load, 1 for writing outputs or 2 for a saved state; the byte that fills the lent buffer; two-byte
// lengths of network file, token file, state and lent buffer; the bytes of the first three. Prints each answer on a line, for a lent buffer with a checksum of its bytes afterwards.
use model::Refusal;
use opening::Tables;
use reading::read_full;
use std::io;
use std::io::Read;

// The most bytes that the files of a row may have.
const ROOM: usize = 65536;

// The refusal's number and place.
fn print_refusal(rt: &impl Print, r: Refusal) -> io::Result<()> {
    print!(rt; "refused {} {}", r.reason.number(), r.place)
}

// A good answer's size, or the refusal.
fn print_size(rt: &impl Print, answer: Result<usize, Refusal>) -> io::Result<()> {
    match answer {
        Ok(size) => print!(rt; "ok {size}"),
        Err(refusal) => print_refusal(rt, refusal),
    }
}

// A checksum that every byte and its place count in.
fn sum(s: &[u8]) -> usize {
    let mut h: usize = 0;
    for byte in s {
        h = (h * 257 + usize::from(*byte) + 1) % 65521;
    }
    h
}

// The checksum of a lent buffer.
fn print_sum(rt: &impl Print, s: &[u8]) -> io::Result<()> {
    print!(rt; " sum {}", sum(s))
}

// A load's answer, and the lent state.
fn print_load(rt: &impl Print, net: &[u8], tokens: &[u8], state: &mut [u8]) -> io::Result<()> {
    print_size(rt, bench::load(net, tokens, state))?;
    print_sum(rt, state)
}

// The answer of writing outputs, and the lent output buffer.
fn print_write(rt: &impl Print, net: &[u8], state: &[u8], out: &mut [u8]) -> io::Result<()> {
    print_size(rt, bench::write_outputs(net, state, out))?;
    print_sum(rt, out)
}

// Whether a saved state is taken, with its files.
fn print_held(rt: &impl Print, net: &[u8], tokens: &[u8], state: &[u8]) -> io::Result<()> {
    let mut tables = Tables::new();
    match tables.open_state(net, tokens, state) {
        Ok(_) => print!(rt; "held"),
        Err(refusal) => print_refusal(rt, refusal),
    }
}

// One row's answer.
fn answer(
    rt: &impl Print,
    what: u8,
    byte: u8,
    net: &[u8],
    tokens: &[u8],
    state: &[u8],
    lent: &mut [u8],
) -> io::Result<()> {
    if what == 2 {
        return print_held(rt, net, tokens, state);
    }
    lent.fill(byte);
    if what == 1 {
        return print_write(rt, net, state, lent);
    }
    print_load(rt, net, tokens, lent)
}

// Reads a row and answers it; false at the end of the rows.
fn row(rt: &impl Print, input: &mut impl Read) -> io::Result<bool> {
    let mut head = [0u8; 10];
    if read_full(input, &mut head) != 10 {
        return Ok(false);
    }
    let a = octets::two_at(&head, 2);
    let b = a + octets::two_at(&head, 4);
    let e = b + octets::two_at(&head, 6);
    if ROOM < e {
        return Ok(false);
    }
    let mut room = [0u8; ROOM];
    if read_full(input, &mut room[..e]) != e {
        return Ok(false);
    }
    let files = &room[..e];
    let mut lent = [0u8; ROOM];
    let n = octets::two_at(&head, 8);
    answer(
        rt,
        head[0],
        head[1],
        &files[..a],
        &files[a..b],
        &files[b..],
        &mut lent[..n],
    )?;
    println!(rt)?;
    Ok(true)
}

// At most 255 rows.
fn main(rt: HostRuntime) -> io::Result<()> {
    let mut input = rt.reader();
    for _ in 0..255 {
        if !row(&rt, &mut input)? {
            break;
        }
    }
    Ok(())
}
