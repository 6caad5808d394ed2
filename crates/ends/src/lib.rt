#![tactic(auto)]

// Whether an input and an output are marked, from the lent state as it stands.
ghost use Rattle.std.specs.Prelude.{◌≡◌, ◌+◌, ◌≤◌, ◌<◌};
ghost use Rattle.model.specs.Bytes.{two_at};
ghost use Rattle.model.specs.Network.{proc, own};
ghost use Rattle.model.specs.States.{own_bytes};
ghost use Rattle.model.specs.Cycles.{mark, marked};
ghost use Rattle.places.specs.Views.{net_at, state_at, Stands};

use model::ProcessId;
use places::Site;
use token_file::Feed;

// The count that the bytes of an input and of an output begin with.
fn own_count(site: &Site, k: ProcessId, state: &[u8]) -> usize
    requires standing { Stands site.now state.now }
    requires k_bound { k.0 < site.now.plan.net.counts.boxes + site.now.plan.net.counts.inputs + site.now.plan.net.counts.outputs }
    ensures { result ≡ two_at (own_bytes (proc (net_at site.now) k.0) (own (state_at site.now state.now) k.0)) 0 }
{
    let part = sights::own_part(site, k, state);
    octets::two_at(part, 0)
}

// An input: tokens left, and its wire not full.
pub fn input_marked(feed: &Feed, k: ProcessId, state: &[u8]) -> bool
    requires standing { Stands feed.now.site state.now }
    requires boxes_le_k { feed.now.site.plan.net.counts.boxes ≤ k.0 }
    requires k_bound { k.0 < feed.now.site.plan.net.counts.boxes + feed.now.site.plan.net.counts.inputs }
    ensures { result ≡ marked (mark (net_at feed.now.site) (state_at feed.now.site state.now) k.0) }
{
    let site = &feed.site;
    let net = &site.plan.net;
    let i = usize::from(k.0) - net.counts.boxes;
    let taken = own_count(site, k, state);
    if feed.input_count(i) <= taken {
        return false;
    }
    let part = sights::wire_part(site, net.input_wire(k), state);
    !sights::is_full(part)
}

// An output: its wire not empty, and room left.
pub fn output_marked(site: &Site, k: ProcessId, state: &[u8]) -> bool
    requires standing { Stands site.now state.now }
    requires inputs_bound { site.now.plan.net.counts.boxes + site.now.plan.net.counts.inputs ≤ k.0 }
    requires k_bound { k.0 < site.now.plan.net.counts.boxes + site.now.plan.net.counts.inputs + site.now.plan.net.counts.outputs }
    ensures { result ≡ marked (mark (net_at site.now) (state_at site.now state.now) k.0) }
{
    let net = &site.plan.net;
    let got = own_count(site, k, state);
    if net.room(k) <= got {
        return false;
    }
    let part = sights::wire_part(site, net.output_wire(k), state);
    queues::count(part) != 0
}
