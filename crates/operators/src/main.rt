#![tactic(auto)]

// Operators at the edges of types: reads rows of 11 bytes (code, kind, p, two four-byte values) and prints each result on a line.
ghost use Rattle.std.specs.Prelude.{◌≤◌, ◌<◌, ◌^◌};
ghost use Rattle.std.specs.Int.Signed.{mag};

use model::{Outcome, Ty, Value};
use reading::read_full;
use std::io;

// The most bytes of rows that are read; what follows them is left out.
const MOST: usize = 65536;

// What an operator gives: 3 is a cast to the type, 4 and 5 have one operand, the others two.
fn worked(code: u8, t: Ty, a: i64, b: i64) -> Outcome
    requires le_p { (1 ≤ t.p) × (t.p ≤ 30) }
    requires a_bound { (mag a < 2 ^ 31) × (mag b < 2 ^ 31) }
{
    match code {
        3 => Ok(Value {
            ty: t,
            value: values::wrap(t, a),
        }),
        0..=9 => values::apply_one(code, t, a),
        _ => values::apply(code, t, a, b),
    }
}

// One row: a line of its own, and nothing for a precision that no type has.
fn row(rt: &impl Print, s: &[u8]) -> io::Result<()> {
    let p = octets::byte_at(s, 2);
    if p < 1 || 30 < p {
        return Ok(());
    }
    let t = Ty {
        kind: octets::byte_at(s, 1),
        p,
    };
    let a = octets::value_at(s, 3);
    let b = octets::value_at(s, 7);
    match worked(octets::byte_at(s, 0), t, a, b) {
        Ok(found) => println!(rt; "{}", found.value),
        Err(fault) => println!(rt; "fault {}", fault.number()),
    }
}

fn main(rt: HostRuntime) -> io::Result<()> {
    let mut rows = [0u8; MOST];
    let n = read_full(&mut rt.reader(), &mut rows);
    for s in rows[..n].chunks_exact(11) {
        row(&rt, s)?;
    }
    Ok(())
}
