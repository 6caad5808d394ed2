#![tactic(auto)]

// Where the bytes of each wire and of each process begin in a state, and how many bytes a state takes.
ghost use Rattle.std.specs.Prelude.{◌≡◌, ◌+◌, ◌≤◌, ◌<◌, length, get_or};
ghost use Rattle.lookup.specs.Views.{network_of};
ghost use Rattle.places.specs.Places.{sizes_of, Placed, Placing, Between, WireSpan, OwnSpan};
ghost use Rattle.places.specs.Props.{Placed_prop};

use lookup::Net;
use model::{ProcessId, WireId};

// The bytes of segment j: wires first, then boxes, inputs and outputs.
fn segment_size(net: &Net, j: usize) -> usize
    requires { j < net.now.counts.wires + (net.now.counts.boxes + net.now.counts.inputs + net.now.counts.outputs) }
    ensures { result ≡ get_or (sizes_of (network_of net.now)) j 0 }
{
    let c = net.counts;
    if j < c.wires {
        return 1 + 5 * net.capacity(WireId(j as u8));
    }
    let k = j - c.wires;
    if k < c.boxes {
        let body = net.box_body(ProcessId(k as u8));
        return 4 * usize::from(octets::byte_at(body, 2));
    }
    let i = k - c.boxes;
    if i < c.inputs {
        return 2;
    }
    2 + 5 * net.room(ProcessId(k as u8))
}

// Each segment's start, then the end of the last, and the size of all.
pub fn places(net: &Net, starts: &mut [u16]) -> usize
    requires { 113 ≤ length starts.old }
    ensures { Placing (network_of net.now) starts.new result }
{
    let c = net.counts;
    let total = c.wires + (c.boxes + c.inputs + c.outputs);
    let mut at: usize = 0;
    for j in 0..total {
        starts[j] = at as u16;
        at += segment_size(net, j);
    }
    starts[total] = at as u16;
    at
}

// The bytes of a segment in a state: from start up to end.
#[derive(Clone, Copy)]
pub struct Span {
    pub start: usize,
    pub end: usize,
}

// An accepted network with the starts of the segments of its states.
#[derive(Clone, Copy)]
pub struct Plan<'a> {
    pub net: Net<'a, 'a>,
    pub starts: &'a [u16],
    pub ghost placed: { Placed (network_of net) starts.now } by { Placed_prop (network_of net) starts.now },
}

impl<'a> Plan<'a> {
    // Where segment j lies: it ends where the next begins.
    fn segment_span(&self, j: usize) -> Span
        requires { j < 65536 }
        ensures { Between self.now.starts.now j result }
    {
        Span {
            start: octets::entry(self.starts, j),
            end: octets::entry(self.starts, j + 1),
        }
    }

    // Where the bytes of a wire lie.
    pub fn wire_span(&self, w: WireId) -> Span
        requires { w.0 < self.now.net.counts.wires }
        ensures { WireSpan (network_of self.now.net) w.0 result }
    {
        self.segment_span(usize::from(w.0))
    }

    // Where the bytes of a process lie.
    pub fn own_span(&self, k: ProcessId) -> Span
        requires { k.0 < self.now.net.counts.boxes + self.now.net.counts.inputs + self.now.net.counts.outputs }
        ensures { OwnSpan (network_of self.now.net) k.0 result }
    {
        self.segment_span(self.net.counts.wires + usize::from(k.0))
    }
}

// An accepted network with a token file: what a lent state belongs to. That the file is accepted too, a contract says.
#[derive(Clone, Copy)]
pub struct Site<'a> {
    pub plan: Plan<'a>,
    pub tokens: &'a [u8],
}
