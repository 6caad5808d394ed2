#![tactic(auto)]

// The single moves that a firing is made of, each done in place on the lent state.
ghost use Rattle.std.specs.Prelude.{◌≡◌};
ghost use Rattle.places.specs.Views.{net_at, state_at, Stands};
ghost use Rattle.moves.specs.Moves.{CanTake, CanPut, CanKeep, CanCount, CanReceive, CountRoom, count_bytes, after_take, after_put, after_keep, after_count, after_receive};
ghost use Rattle.moves.specs.Views.{Becomes};

use model::{ProcessId, Token, WireId};
use places::Site;

// The oldest token away from a wire.
pub fn take(site: &Site, from: WireId, state: &mut [u8])
    requires standing { Stands site.now state.old }
    requires can_take { CanTake site.now.plan.net.counts (state_at site.now state.old) from.0 }
    ensures { Becomes site.now state.old state.new (after_take from.0 (state_at site.now state.old)) }
{
    let span = site.plan.wire_span(from);
    queues::pop(&mut state[span.start..span.end]);
}

// One token more at the back of a wire.
pub fn put(site: &Site, to: WireId, t: Token, state: &mut [u8])
    requires standing { Stands site.now state.old }
    requires can_put { CanPut site.now.plan.net.counts (net_at site.now) (state_at site.now state.old) to.0 t }
    ensures { Becomes site.now state.old state.new (after_put to.0 t (state_at site.now state.old)) }
{
    let span = site.plan.wire_span(to);
    queues::push(&mut state[span.start..span.end], t);
}

// Another value for variable j of box k.
pub fn keep(site: &Site, k: ProcessId, j: usize, z: i64, state: &mut [u8])
    requires standing { Stands site.now state.old }
    requires can_keep { CanKeep site.now.plan.net.counts (net_at site.now) (state_at site.now state.old) k.0 j z }
    ensures { Becomes site.now state.old state.new (after_keep k.0 j z (state_at site.now state.old)) }
{
    let span = site.plan.own_span(k);
    queues::put_var(&mut state[span.start..span.end], j, z);
}

// A count of two bytes, one higher.
fn count_up(s: &mut [u8])
    requires { CountRoom s.old }
    ensures { s.new ≡ count_bytes s.old }
{
    let n = octets::two_at(s, 0);
    octets::put_two(s, n + 1);
}

// One token more that an input has taken.
pub fn count_taken(site: &Site, input: ProcessId, state: &mut [u8])
    requires standing { Stands site.now state.old }
    requires can_count { CanCount site.now.plan.net.counts (net_at site.now) (state_at site.now state.old) input.0 }
    ensures { Becomes site.now state.old state.new (after_count input.0 (state_at site.now state.old)) }
{
    let span = site.plan.own_span(input);
    count_up(&mut state[span.start..span.end]);
}

// One token more in an output.
pub fn receive(site: &Site, output: ProcessId, t: Token, state: &mut [u8])
    requires standing { Stands site.now state.old }
    requires can_receive { CanReceive site.now.plan.net.counts (net_at site.now) (state_at site.now state.old) output.0 t }
    ensures { Becomes site.now state.old state.new (after_receive output.0 t (state_at site.now state.old)) }
{
    let span = site.plan.own_span(output);
    queues::got_push(&mut state[span.start..span.end], t);
}
