#![tactic(auto)]

// What of a lent state a process looks at, by its own ports: the bytes of a wire and of a process, and what a box sees.
ghost use Rattle.std.specs.Prelude.{◌≡◌, ◌+◌, ◌≤◌, ◌<◌, length, get_or};
ghost use Rattle.model.specs.Network.{wire, proc, queue, own};
ghost use Rattle.model.specs.States.{wire_bytes, own_bytes};
ghost use Rattle.lookup.specs.Views.{box_in};
ghost use Rattle.places.specs.Views.{net_at, state_at, vars_at, Stands};
ghost use Rattle.sights.specs.Seen.{head_in, full_in, Oldest, Fulls, Variables, Values, Seen};

use lookup::Net;
use model::{ProcessId, WireId};
use places::Site;

// What a box sees: of each input the oldest token's tag (4 where none waits) and value, the values of its variables from 4 on,
// of each output whether its wire is full (1). The tags and flags stay numbers: by numbers the definitions token_of and open_from, on which
// the search for a rule stands, tell what a rule is held against.
#[derive(Clone, Copy)]
pub struct View {
    pub heads: [u8; 4],
    pub full: [u8; 4],
    pub vals: [i64; 8],
}

// The bytes of a wire.
pub fn wire_part<'a>(site: &Site, w: WireId, state: &'a [u8]) -> &'a [u8]
    requires standing { Stands site.now state.now }
    requires w_lt_wires { w.0 < site.now.plan.net.counts.wires }
    ensures { result.now ≡ wire_bytes (wire (net_at site.now) w.0) (queue (state_at site.now state.now) w.0) }
{
    let span = site.plan.wire_span(w);
    &state[span.start..span.end]
}

// The bytes of a process.
pub fn own_part<'a>(site: &Site, k: ProcessId, state: &'a [u8]) -> &'a [u8]
    requires standing { Stands site.now state.now }
    requires k_bound { k.0 < site.now.plan.net.counts.boxes + site.now.plan.net.counts.inputs + site.now.plan.net.counts.outputs }
    ensures { result.now ≡ own_bytes (proc (net_at site.now) k.0) (own (state_at site.now state.now) k.0) }
{
    let span = site.plan.own_span(k);
    &state[span.start..span.end]
}

// The wire of input j of box b.
pub fn in_wire(net: &Net, b: ProcessId, j: usize) -> WireId
    requires b_lt_boxes { b.0 < net.now.counts.boxes }
    requires j_in_bounds { j < length (box_in net.now b.0).ins }
    ensures { (result.0 ≡ get_or (box_in net.now b.0).ins j 0) × (result.0 < net.now.counts.wires) }
{
    WireId(octets::byte_at(net.box_body(b), 3 + j))
}

// The wire of output j of box b.
pub fn out_wire(net: &Net, b: ProcessId, j: usize) -> WireId
    requires b_lt_boxes { b.0 < net.now.counts.boxes }
    requires j_in_bounds { j < length (box_in net.now b.0).outs }
    ensures { (result.0 ≡ get_or (box_in net.now b.0).outs j 0) × (result.0 < net.now.counts.wires) }
{
    let body = net.box_body(b);
    let ins = usize::from(octets::byte_at(body, 0));
    WireId(octets::byte_at(body, 3 + ins + j))
}

// The tag of a wire's oldest token, from the wire's bytes; 4 where no token waits.
pub fn head(part: &[u8]) -> u8
    ensures { result ≡ head_in part.now }
{
    if octets::byte_at(part, 0) == 0 {
        return 4;
    }
    octets::byte_at(part, 1)
}

// Whether the tokens take all of a wire's bytes.
pub fn is_full(part: &[u8]) -> bool
    ensures { result ≡ full_in part.now }
{
    let end = 1 + 5 * queues::count(part);
    part.len() <= end
}

// The oldest token at each input of box k, one look at each wire: its tag in heads and its value in vals.
fn see_inputs(site: &Site, k: ProcessId, state: &[u8], heads: &mut [u8], vals: &mut [i64])
    requires standing { Stands site.now state.now }
    requires k_lt_boxes { k.0 < site.now.plan.net.counts.boxes }
    requires in_bounds { 4 ≤ length heads.old }
    requires variables { Variables (vars_at site.now state.now k.0) vals.old }
    ensures oldest { Oldest (state_at site.now state.now) (box_in site.now.plan.net k.0).ins (length (box_in site.now.plan.net k.0).ins) heads.new vals.new }
    ensures variables { Variables (vars_at site.now state.now k.0) vals.new }
{
    let body = site.plan.net.box_body(k);
    let n = usize::from(octets::byte_at(body, 0));
    for j in 0..n {
        let w = WireId(octets::byte_at(body, 3 + j));
        let part = wire_part(site, w, state);
        heads[j] = head(part);
        vals[j] = queues::oldest(part).value;
    }
}

// Of each output of box k whether its wire is full, in full.
fn see_outputs(site: &Site, k: ProcessId, state: &[u8], full: &mut [u8])
    requires standing { Stands site.now state.now }
    requires k_lt_boxes { k.0 < site.now.plan.net.counts.boxes }
    requires in_bounds { 4 ≤ length full.old }
    ensures { Fulls (net_at site.now) (state_at site.now state.now) (box_in site.now.plan.net k.0).outs (length (box_in site.now.plan.net k.0).outs) full.new }
{
    let body = site.plan.net.box_body(k);
    let first = 3 + usize::from(octets::byte_at(body, 0));
    let n = usize::from(octets::byte_at(body, 1));
    for j in 0..n {
        let w = WireId(octets::byte_at(body, first + j));
        full[j] = u8::from(is_full(wire_part(site, w, state)));
    }
}

// The values of box k's variables, behind the places of its inputs.
fn variables(site: &Site, k: ProcessId, state: &[u8]) -> [i64; 8]
    requires standing { Stands site.now state.now }
    requires k_lt_boxes { k.0 < site.now.plan.net.counts.boxes }
    ensures { Variables (vars_at site.now state.now k.0) result }
{
    let own = own_part(site, k, state);
    [
        0,
        0,
        0,
        0,
        queues::var_at(own, 0),
        queues::var_at(own, 1),
        queues::var_at(own, 2),
        queues::var_at(own, 3),
    ]
}

// The values of the oldest tokens at the inputs of box k, then of its variables.
pub fn values(site: &Site, k: ProcessId, state: &[u8]) -> [i64; 8]
    requires standing { Stands site.now state.now }
    requires k_lt_boxes { k.0 < site.now.plan.net.counts.boxes }
    ensures { Values (state_at site.now state.now) (box_in site.now.plan.net k.0).ins (vars_at site.now state.now k.0) result }
{
    let mut heads = [0; 4];
    let mut vals = variables(site, k, state);
    see_inputs(site, k, state, &mut heads, &mut vals);
    vals
}

// What box k sees.
pub fn view_of(site: &Site, k: ProcessId, state: &[u8]) -> View
    requires standing { Stands site.now state.now }
    requires k_lt_boxes { k.0 < site.now.plan.net.counts.boxes }
    ensures { Seen (net_at site.now) (state_at site.now state.now) (box_in site.now.plan.net k.0) (vars_at site.now state.now k.0) result }
{
    let mut heads = [0; 4];
    let mut full = [0; 4];
    let mut vals = variables(site, k, state);
    see_inputs(site, k, state, &mut heads, &mut vals);
    see_outputs(site, k, state, &mut full);
    View { heads, full, vals }
}
