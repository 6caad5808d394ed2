#![tactic(auto)]

// The networks of the examples, run. Reads rows (examples/limits.py --rows makes them): two-byte lengths of a network file and a token file, then both. Prints for each what the run program prints.
use reading::read_full;
use std::io;
use std::io::Read;

// The most bytes that the files of a row may have.
const ROOM: usize = 65536;

// Reads a row and prints its text; false at the end of the rows.
fn row(rt: &impl Print, input: &mut impl Read) -> io::Result<bool> {
    let mut head = [0u8; 4];
    if read_full(input, &mut head) != 4 {
        return Ok(false);
    }
    let a = octets::two_at(&head, 0);
    let e = a + octets::two_at(&head, 2);
    if ROOM < e {
        return Ok(false);
    }
    let mut room = [0u8; ROOM];
    if read_full(input, &mut room[..e]) != e {
        return Ok(false);
    }
    let files = &room[..e];
    let mut state = [0u8; 61088];
    let mut text = [0u8; 184275];
    let end = running::run_text(&files[..a], &files[a..], &mut state, &mut text);
    rt.write_all(&text[..end])?;
    Ok(true)
}

// At most 255 rows.
fn main(rt: HostRuntime) -> io::Result<()> {
    let mut input = rt.reader();
    for _ in 0..255 {
        if !row(&rt, &mut input)? {
            break;
        }
    }
    Ok(())
}
