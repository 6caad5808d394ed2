#![tactic(auto)]

// The part of a firing that takes tokens from wires, and the whole firing of an input and of an output, in place on the lent state.
ghost use Rattle.std.specs.Prelude.{not, eqb, length, get_or};
ghost use Rattle.lookup.specs.Views.{box_in};
ghost use Rattle.places.specs.Views.{net_at, state_at, Stands};
ghost use Rattle.moves.specs.Views.{Becomes};
ghost use Rattle.taking.specs.Taking.{fired, InputReady, OutputReady};
ghost use Rattle.taking.specs.Reading.{read_from, after_reading, after_read, CanRead, CanReadAt};

use model::ProcessId;
use places::Site;
use token_file::Feed;

// Output k takes the oldest token of its wire.
pub fn fire_output(site: &Site, k: ProcessId, state: &mut [u8])
    requires standing { Stands site.now state.old }
    requires output_ready { OutputReady site.now.plan.net.counts (net_at site.now) (state_at site.now state.old) k.0 }
    ensures { Becomes site.now state.old state.new (fired (net_at site.now) k.0 0 (state_at site.now state.old)) }
{
    let w = site.plan.net.output_wire(k);
    let t = queues::oldest(sights::wire_part(site, w, state));
    moves::take(site, w, state);
    moves::receive(site, k, t, state);
}

// Input k puts its next token on its wire, and counts it.
pub fn fire_input(feed: &Feed, k: ProcessId, state: &mut [u8])
    requires standing { Stands feed.now.site state.old }
    requires input_ready { InputReady feed.now.site.plan.net.counts (net_at feed.now.site) (state_at feed.now.site state.old) k.0 }
    ensures { Becomes feed.now.site state.old state.new (fired (net_at feed.now.site) k.0 0 (state_at feed.now.site state.old)) }
{
    let site = &feed.site;
    let net = &site.plan.net;
    let w = net.input_wire(k);
    let taken = octets::two_at(sights::own_part(site, k, state), 0);
    let t = feed.input_token(usize::from(k.0) - net.counts.boxes, taken);
    moves::put(site, w, t, state);
    moves::count_taken(site, k, state);
}

// Input j of box k: the oldest token away from its wire, unless the pattern of this code ignores it.
fn take_at(site: &Site, k: ProcessId, j: usize, code: u8, state: &mut [u8])
    requires standing { Stands site.now state.old }
    requires can_read_at { CanReadAt site.now.plan.net.counts (state_at site.now state.old) (box_in site.now.plan.net k.0).ins k.0 j code }
    ensures { Becomes site.now state.old state.new (after_read (not (eqb code 0)) (get_or (box_in site.now.plan.net k.0).ins j 0) (state_at site.now state.old)) }
{
    if code == 0 {
        return;
    }
    let w = sights::in_wire(&site.plan.net, k, j);
    moves::take(site, w, state);
}

// Box k takes the oldest token of each input wire that the patterns at the start of a rule's body read.
pub fn take_read(site: &Site, k: ProcessId, body: &[u8], state: &mut [u8])
    requires standing { Stands site.now state.old }
    requires can_read { CanRead site.now.plan.net.counts (state_at site.now state.old) (box_in site.now.plan.net k.0).ins k.0 body.now }
    ensures { Becomes site.now state.old state.new (after_reading (box_in site.now.plan.net k.0).ins (read_from (length (box_in site.now.plan.net k.0).ins) 0 body.now) (state_at site.now state.old)) }
{
    let ports = site.plan.net.box_body(k);
    let n = usize::from(octets::byte_at(ports, 0));
    let mut at = 0;
    for j in 0..n {
        let next = rules::skip_pattern(body, at);
        let code = octets::byte_at(body, at);
        take_at(site, k, j, code, state);
        at = next;
    }
}
