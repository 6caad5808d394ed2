#![tactic(auto)]

// The table of the offsets of a network file's fields, and the counts beside it.
ghost use Rattle.std.specs.Prelude.{◌≤◌, ◌<◌, length};
ghost use Rattle.table.specs.Table.{Within, Room, Noted};

// How many fields of each kind were seen, the rules of the last box, and the last tag, 2 for a rule.
#[derive(Clone, Copy)]
pub struct Counts {
    pub wires: usize,
    pub boxes: usize,
    pub rules: usize,
    pub inbox: usize,
    pub inputs: usize,
    pub outputs: usize,
    pub last: u8,
}

// One field more: its offset goes into the table, and is counted.
pub fn note(table: &mut [u16], c: Counts, tag: u8, at: usize) -> Counts
    requires within { Within c }
    requires room { Room c tag }
    requires in_bounds { (656 ≤ length table.old) × (at < 65536) }
    ensures { Noted table.old c tag at table.new result }
{
    let v = at as u16;
    let mut n = c;
    n.last = tag;
    match tag {
        1 => {
            table[c.wires] = v;
            n.wires += 1;
        }
        2 => {
            table[64 + c.boxes] = v;
            table[96 + c.boxes] = c.rules as u16;
            n.boxes += 1;
            n.inbox = 0;
        }
        3 => {
            table[128 + c.rules] = v;
            n.rules += 1;
            n.inbox += 1;
            n.last = 2;
        }
        4 => {
            table[640 + c.inputs] = v;
            n.inputs += 1;
        }
        _ => {
            table[648 + c.outputs] = v;
            n.outputs += 1;
        }
    }
    n
}
