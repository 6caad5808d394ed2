#![tactic(auto)]

// One firing of a process under the rule that was chosen at the cycle's start, in place on the lent state.
ghost use Rattle.lookup.specs.Views.{box_in};
ghost use Rattle.places.specs.Views.{net_at, state_at, Stands};
ghost use Rattle.moves.specs.Views.{Becomes};
ghost use Rattle.taking.specs.Taking.{fired};
ghost use Rattle.firing.specs.Firing.{BoxReady, Chosen};
ghost use Rattle.firing.specs.Views.{CanAct, acted};

use evaluation::Env;
use model::{ProcessId, RuleId};
use places::Site;
use putting::Actor;
use shapes::Arity;
use token_file::Feed;

// What a rule's body says, whose output actions begin at an offset, done by its box: tokens taken, then results put, then new values kept.
fn apply(actor: &Actor, a: Arity, from: usize, state: &mut [u8])
    requires standing { Stands actor.now.site.now state.old }
    requires can_act { CanAct actor.now state.old a from }
    ensures { Becomes actor.now.site.now state.old state.new (acted actor.now state.old a from) }
{
    taking::take_read(actor.site, actor.k, actor.body, state);
    let next = actor.put_sent(from, a.outs, state);
    actor.keep_new(next, a.vars, state);
}

// Box k fires under rule r: its shape, where the rule's actions begin, its types, and the values that it sees, all from before anything is taken.
pub fn fire_box(site: &Site, k: ProcessId, r: RuleId, state: &mut [u8])
    requires standing { Stands site.now state.old }
    requires box_ready { BoxReady (box_in site.now.plan.net k.0) site.now.plan.net.counts (net_at site.now) (state_at site.now state.old) k.0 r.0 }
    ensures { Becomes site.now state.old state.new (fired (net_at site.now) k.0 r.0 (state_at site.now state.old)) }
{
    let net = &site.plan.net;
    let mut ins = [0u8; 8];
    let mut outs = [0u8; 8];
    let mut vars = [0u8; 8];
    let at = net.box_at(k);
    let a = shapes::shape_of(
        net.file,
        net.table,
        net.counts.wires,
        at,
        &mut ins,
        &mut outs,
        &mut vars,
    );
    let body = net.rule_body(k, r);
    let from = trying::actions_at(body, a);
    let types = typing::scope(body, &ins, &vars, a);
    let vals = sights::values(site, k, state);
    let env = Env { types, vals };
    let actor = Actor {
        site,
        k,
        body,
        env: &env,
    };
    apply(&actor, a, from, state);
}

// Process k fires, a box under rule r; an input and an output have one way to fire.
pub fn fire(feed: &Feed, k: ProcessId, r: RuleId, state: &mut [u8])
    requires standing { Stands feed.now.site state.old }
    requires chosen { Chosen feed.now.site.plan.net.counts (net_at feed.now.site) (state_at feed.now.site state.old) k.0 r.0 }
    ensures { Becomes feed.now.site state.old state.new (fired (net_at feed.now.site) k.0 r.0 (state_at feed.now.site state.old)) }
{
    let site = &feed.site;
    let c = site.plan.net.counts;
    let i = usize::from(k.0);
    if i < c.boxes {
        fire_box(site, k, r, state);
    } else if i < c.boxes + c.inputs {
        taking::fire_input(feed, k, state);
    } else {
        taking::fire_output(site, k, state);
    }
}
