#![tactic(auto)]

// A whole state in lent bytes: its size, the load, and the check of a saved one.
ghost use Rattle.std.specs.Prelude.{◌≡◌, ◌++◌, ◌+◌, ◌*◌, ◌≤◌, ◌<◌, length, drop};
ghost use Rattle.model.specs.Bytes.{two_at};
ghost use Rattle.model.specs.Network.{wire, proc, fresh, loaded};
ghost use Rattle.model.specs.States.{own_bytes, wire_size, own_size, bytes_of, state_size, room_fits, wire_fits, own_fits, state_fits};
ghost use Rattle.queues.specs.Segments.{mid, put_mid, wire_start, own_start};
ghost use Rattle.lookup.specs.Ends.{wire_at, room_at};
ghost use Rattle.lookup.specs.Views.{network_of};
ghost use Rattle.states.specs.Saved.{plan_of, network_for, counted, input_fits, wires_fit, owns_fit};

use lookup::Net;
use model::{ProcessId, WireId};
use places::{Plan, Site};
use token_file::Feed;

// How many bytes a state takes: where its last segment ends.
pub fn size(plan: &Plan) -> usize
    ensures { result ≡ state_size (network_of plan.now.net) }
{
    let c = plan.net.counts;
    octets::entry(plan.starts, c.wires + c.boxes + c.inputs + c.outputs)
}

// The initial values of box k, written in its place.
fn load_box(plan: &Plan, k: ProcessId, state: &mut [u8])
    requires k_lt_boxes { k.0 < plan.now.net.counts.boxes }
    requires in_bounds { state_size (network_of plan.now.net) ≤ length state.old }
    ensures { state.new ≡ put_mid (own_start (network_of plan.now.net) k.0) (own_size (proc (network_of plan.now.net) k.0)) state.old (own_bytes (proc (network_of plan.now.net) k.0) (fresh (proc (network_of plan.now.net) k.0))) }
{
    let span = plan.own_span(k);
    tokens::load_values(plan.net.box_body(k), &mut state[span.start..span.end]);
}

// A load: zeros for all of the state, then the initial values of each box. Bytes beyond the state's size stay.
pub fn load(plan: &Plan, state: &mut [u8])
    requires { state_size (network_of plan.now.net) ≤ length state.old }
    ensures { state.new ≡ bytes_of (network_of plan.now.net) (loaded (network_of plan.now.net)) ++ drop (state_size (network_of plan.now.net)) state.old }
{
    let size = size(plan);
    state[..size].fill(0);
    for k in 0..plan.net.counts.boxes {
        load_box(plan, ProcessId(k as u8), state);
    }
}

// The bytes of a wire hold a queue of it.
fn wire_fits(plan: &Plan, w: WireId, state: &[u8]) -> bool
    requires w_lt_wires { w.0 < plan.now.net.counts.wires }
    requires in_bounds { state_size (network_of plan.now.net) ≤ length state.now }
    ensures { result ≡ wire_fits (wire (network_of plan.now.net) w.0) (mid (wire_start (network_of plan.now.net) w.0) (wire_size (wire (network_of plan.now.net) w.0)) state.now) }
{
    let span = plan.wire_span(w);
    let t = plan.net.wire_type(w);
    let most = plan.net.capacity(w);
    tokens::wire_fits(t, most, &state[span.start..span.end])
}

// The bytes of all wires.
fn wires_fit(plan: &Plan, state: &[u8]) -> bool
    requires { state_size (network_of plan.now.net) ≤ length state.now }
    ensures { result ≡ wires_fit (network_of plan.now.net) 0 state.now }
{
    for w in 0..plan.net.counts.wires {
        if !wire_fits(plan, WireId(w as u8), state) {
            return false;
        }
    }
    true
}

// What a state is checked against: the network, alone or with a token file whose tokens aren't counted; or both files, and then no input may have taken more tokens than its file has for it.
#[derive(Clone, Copy)]
pub enum Basis<'a> {
    Network(Plan<'a>),
    Uncounted(Site<'a>),
    Files(Feed<'a>),
}

impl<'a> Basis<'a> {
    // The network with the places of a state's parts.
    pub fn plan(&self) -> &Plan<'a>
        ensures { result.now ≡ plan_of self.now }
    {
        match self {
            Basis::Network(plan) => plan,
            Basis::Uncounted(site) => &site.plan,
            Basis::Files(feed) => &feed.site.plan,
        }
    }
}

// An input has taken no more tokens than the token file has for it; asked only where they are counted.
fn input_fits(basis: &Basis, i: usize, part: &[u8]) -> bool
    requires { i < (plan_of basis.now).net.counts.inputs }
    ensures { result ≡ input_fits basis.now i part.now }
{
    match basis {
        Basis::Network(_) => true,
        Basis::Uncounted(_) => true,
        Basis::Files(feed) => octets::two_at(part, 0) <= feed.input_count(i),
    }
}

// The bytes of output k hold tokens of its wire within its room.
fn output_fits(net: &Net, k: ProcessId, part: &[u8]) -> bool
    requires inputs_bound { net.now.counts.boxes + net.now.counts.inputs ≤ k.0 }
    requires k_bound { k.0 < net.now.counts.boxes + net.now.counts.inputs + net.now.counts.outputs }
    requires part_len { length part.now ≡ 2 + 5 * room_at (proc (network_of net.now) k.0) }
    ensures { result ≡ room_fits (wire (network_of net.now) (wire_at (proc (network_of net.now) k.0))).ty (room_at (proc (network_of net.now) k.0)) (two_at part.now 0) (drop 2 part.now) }
{
    let t = net.wire_type(net.output_wire(k));
    let room = net.room(k);
    tokens::output_fits(t, room, part)
}

// The bytes of process k hold what is its own.
fn own_part_fits(basis: &Basis, k: ProcessId, part: &[u8]) -> bool
    requires k_bound { k.0 < (plan_of basis.now).net.counts.boxes + (plan_of basis.now).net.counts.inputs + (plan_of basis.now).net.counts.outputs }
    requires part_len { length part.now ≡ own_size (proc (network_of (plan_of basis.now).net) k.0) }
    ensures { result ≡ own_fits (network_for basis.now) (counted basis.now) (proc (network_for basis.now) k.0) part.now }
{
    let net = &basis.plan().net;
    let j = usize::from(k.0);
    if j < net.counts.boxes {
        return tokens::values_fit(net.box_body(k), part);
    }
    let i = j - net.counts.boxes;
    if i < net.counts.inputs {
        return input_fits(basis, i, part);
    }
    output_fits(net, k, part)
}

// Process k, in its place.
fn own_fits(basis: &Basis, k: ProcessId, state: &[u8]) -> bool
    requires k_bound { k.0 < (plan_of basis.now).net.counts.boxes + (plan_of basis.now).net.counts.inputs + (plan_of basis.now).net.counts.outputs }
    requires in_bounds { state_size (network_of (plan_of basis.now).net) ≤ length state.now }
    ensures { result ≡ own_fits (network_for basis.now) (counted basis.now) (proc (network_for basis.now) k.0) (mid (own_start (network_for basis.now) k.0) (own_size (proc (network_for basis.now) k.0)) state.now) }
{
    let span = basis.plan().own_span(k);
    own_part_fits(basis, k, &state[span.start..span.end])
}

// The bytes of all processes.
fn owns_fit(basis: &Basis, state: &[u8]) -> bool
    requires { state_size (network_of (plan_of basis.now).net) ≤ length state.now }
    ensures { result ≡ owns_fit (network_for basis.now) (counted basis.now) 0 state.now }
{
    let c = basis.plan().net.counts;
    for k in 0..c.boxes + c.inputs + c.outputs {
        if !own_fits(basis, ProcessId(k as u8), state) {
            return false;
        }
    }
    true
}

// A saved state: every wire and every process holds what it may; taken counts are looked at where the basis counts them.
pub fn state_fits(basis: &Basis, state: &[u8]) -> bool
    requires { state_size (network_of (plan_of basis.now).net) ≤ length state.now }
    ensures { result ≡ state_fits (network_for basis.now) (counted basis.now) state.now }
{
    wires_fit(basis.plan(), state) && owns_fit(basis, state)
}
