#![tactic(auto)]

// Each wire has exactly one writing and one reading port.
ghost use Rattle.std.specs.Prelude.{◌≡◌, ℕ, List, [], ◌+◌, ◌≤◌, ◌<◌, true, false, length, get_or};
ghost use Rattle.model.specs.NetworkFile.{lowest_from, odd_wire, net_of};
ghost use Rattle.shapes.specs.Shapes.{BoxFits};
ghost use Rattle.table.specs.Table.{region, index_in, Within};
ghost use Rattle.model.proofs.Accepted.{Valid};
ghost use Rattle.ports.specs.Ports.{ports_at, box_ports, end_port, touched, tally_of, fits_in};

use table::Counts;

// One port more on wire w; a count stops at 2.
#[tactic(auto, unfolding(crate::specs::Ports::touched, crate::specs::Ports::bump))]
fn touch(counts: &mut [u8], w: u8)
    ensures { counts.new ≡ touched counts.old w }
{
    let k = usize::from(w);
    if k < counts.len() && counts[k] < 2 {
        counts[k] += 1;
    }
}

// One port more on each wire that `ws` names.
fn tally(counts: &mut [u8], ws: &[u8])
    ensures { counts.new ≡ tally_of counts.old ws.now }
{
    for &w in ws {
        touch(counts, w);
    }
}

// One port more on each wire that `ports` names of the fields at these offsets.
fn tally_fields<'a, F: Fn(usize) -> &'a [u8]>(counts: &mut [u8], offsets: &[u16], ports: F)
    requires { (k : ℕ) → k < length offsets.now → F.pre ports (get_or offsets.now k 0) }
    ensures { (f : ℕ → List ℕ) → ((o : ℕ) (r : _) → F.post ports o r → r.now ≡ f o) → counts.new ≡ tally_of counts.old (ports_at f offsets.now) }
{
    for &at in offsets {
        tally(counts, ports(usize::from(at)));
    }
}

// The wires that the box at an offset reads.
fn read_by(net: &[u8], at: usize) -> &[u8]
    requires { BoxFits net.now at }
    ensures { result.now ≡ box_ports false net.now at }
{
    let body = octets::part(net, at + 3, octets::two_at(net, at + 1));
    let ins = usize::from(octets::byte_at(body, 0));
    octets::part(body, 3, ins)
}

// The wires that the box at an offset writes.
fn written_by(net: &[u8], at: usize) -> &[u8]
    requires { BoxFits net.now at }
    ensures { result.now ≡ box_ports true net.now at }
{
    let body = octets::part(net, at + 3, octets::two_at(net, at + 1));
    let ins = usize::from(octets::byte_at(body, 0));
    let outs = usize::from(octets::byte_at(body, 1));
    octets::part(body, 3 + ins, outs)
}

// The wire of the input or output at an offset.
fn end_of(net: &[u8], at: usize) -> &[u8]
    requires { at + 4 ≤ length net.now }
    ensures { result.now ≡ end_port net.now at }
{
    octets::part(net, at + 3, 1)
}

// The n offsets from a place of the table on.
#[tactic(auto, unfolding(table::specs::Table::region))]
fn region(tab: &[u16], base: usize, n: usize) -> &[u16]
    requires { base + n ≤ length tab.now }
    ensures { result.now ≡ region base n tab.now }
{
    &tab[base..base + n]
}

// The lowest of n wires whose counts are not both 1, n where there is none.
fn lowest_bad(reads: &[u8], writes: &[u8], n: usize) -> usize
    requires { (n ≤ length reads.now) × (n ≤ length writes.now) }
    ensures { result ≡ lowest_from (fits_in reads.now writes.now) 0 n }
{
    (0..n)
        .find(|&k| reads[k] != 1 || writes[k] != 1)
        .unwrap_or(n)
}

// The lowest wire without exactly one writing and one reading port; the count of wires where there is none.
pub fn odd_wire(net: &[u8], tab: &[u16], c: Counts) -> usize
    requires within { Within c }
    requires in_bounds { 656 ≤ length tab.now }
    requires valid { Valid net.now (index_in tab.now c) }
    ensures { result ≡ odd_wire (net_of net.now (index_in tab.now c) []) }
{
    let mut reads = [0u8; 64];
    let mut writes = [0u8; 64];
    let boxes = region(tab, 64, c.boxes);
    let inputs = region(tab, 640, c.inputs);
    let outputs = region(tab, 648, c.outputs);
    tally_fields(&mut reads, boxes, |at| read_by(net, at));
    tally_fields(&mut reads, outputs, |at| end_of(net, at));
    tally_fields(&mut writes, boxes, |at| written_by(net, at));
    tally_fields(&mut writes, inputs, |at| end_of(net, at));
    lowest_bad(&reads, &writes, c.wires)
}
