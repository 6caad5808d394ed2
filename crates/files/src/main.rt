#![tactic(auto)]

// Network files checked and rule bodies looked up: reads rows (0 for a check or 1 for a body, box, rule, a length of two bytes, that many bytes of a file), prints each answer on a line.
use model::{ProcessId, RuleId};
use reading::read_full;
use std::io;

// The most bytes of rows that are read; what follows them is left out.
const MOST: usize = 65536;

// Whether the file is accepted, else the refusal's number and place.
fn print_check(rt: &impl Print, net: &[u8]) -> io::Result<()> {
    match network::check(net) {
        Ok(()) => print!(rt; "ok"),
        Err(refusal) => print!(rt; "refused {} {}", refusal.reason.number(), refusal.place),
    }
}

// The bytes of a rule's body.
fn print_body(rt: &impl Print, net: &[u8], b: ProcessId, r: RuleId) -> io::Result<()> {
    print!(rt; "body")?;
    for byte in network::rule_body(net, b, r) {
        print!(rt; " {byte}")?;
    }
    Ok(())
}

// One row, without its length.
fn row(rt: &impl Print, what: u8, b: u8, r: u8, net: &[u8]) -> io::Result<()> {
    if what == 0 {
        print_check(rt, net)?;
    } else {
        print_body(rt, net, ProcessId(b), RuleId(r))?;
    }
    println!(rt)
}

// A row that the input's end cuts short is left out.
fn main(rt: HostRuntime) -> io::Result<()> {
    let mut rows = [0u8; MOST];
    let n = read_full(&mut rt.reader(), &mut rows);
    let mut rest = &rows[..n];
    while rest.len() >= 5 {
        let end = 5 + octets::two_at(rest, 3);
        if rest.len() < end {
            break;
        }
        row(&rt, rest[0], rest[1], rest[2], &rest[5..end])?;
        rest = &rest[end..];
    }
    Ok(())
}
