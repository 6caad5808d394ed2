#![tactic(auto)]

// What a rule's actions leave: the results put on the box's output wires, and the new values of its variables, in place on the lent state.
ghost use Rattle.std.specs.Prelude.{◌≡◌, true, false, ◌≤◌, ◌<◌, length};
ghost use Rattle.model.specs.Network.{proc};
ghost use Rattle.expressions.specs.Reading.{skip_to};
ghost use Rattle.rules.specs.Bodies.{actions_from};
ghost use Rattle.places.specs.Views.{net_at, state_at, Stands};
ghost use Rattle.moves.specs.Moves.{CanKeep, after_keep};
ghost use Rattle.moves.specs.Views.{Becomes};
ghost use Rattle.actions.proofs.Acting.{Ready};
ghost use Rattle.putting.specs.Putting.{Workable, Places, after_puts, Keeps, after_keeps};
ghost use Rattle.putting.specs.Actors.{scope_by, box_by, vars_by, sent_one, sent_all, new_one, new_all};

use evaluation::Env;
use model::ProcessId;
use places::Site;

// Box k of a site with the body of the rule that it fires by, and what the rule's expressions may name.
#[derive(Clone, Copy)]
pub struct Actor<'a> {
    pub site: &'a Site<'a>,
    pub k: ProcessId,
    pub body: &'a [u8],
    pub env: &'a Env,
}

impl<'a> Actor<'a> {
    // The new value of variable j, by the action at an offset of the body.
    fn keep_one(&self, j: usize, at: usize, state: &mut [u8])
        requires standing { Stands self.now.site.now state.old }
        requires j_bound { j < 4 }
        requires workable { Workable (scope_by self.now) self.now.body.now at }
        requires can_keep { CanKeep self.now.site.now.plan.net.counts (net_at self.now.site.now) (state_at self.now.site.now state.old) self.now.k.0 j (new_one self.now j at) }
        ensures { Becomes self.now.site.now state.old state.new (after_keep self.now.k.0 j (new_one self.now j at) (state_at self.now.site.now state.old)) }
    {
        let old = self.env.vals[4 + j];
        let z = actions::kept_value(self.body, at, old, self.env);
        moves::keep(self.site, self.k, j, z, state);
    }

    // The result of the action at an offset of the body, put on the wire of output j.
    fn put_one(&self, j: usize, at: usize, state: &mut [u8])
        requires standing { Stands self.now.site.now state.old }
        requires k_lt_boxes { self.now.k.0 < self.now.site.now.plan.net.counts.boxes }
        requires j_in_bounds { j < length (box_by self.now).outs }
        requires workable { Workable (scope_by self.now) self.now.body.now at }
        requires places { Places (net_at self.now.site.now) (state_at self.now.site.now state.old) (sent_one self.now j at) }
        ensures { Becomes self.now.site.now state.old state.new (after_puts (sent_one self.now j at) (state_at self.now.site.now state.old)) }
    {
        if let Some(token) = actions::sent(self.body, at, self.env) {
            let w = sights::out_wire(&self.site.plan.net, self.k, j);
            moves::put(self.site, w, token, state);
        }
    }

    // The results of the output actions from an offset of the body on, each put on the wire of its output. The answer is the offset after them.
    pub fn put_sent(&self, from: usize, outs: usize, state: &mut [u8]) -> usize
        requires standing { Stands self.now.site.now state.old }
        requires k_lt_boxes { self.now.k.0 < self.now.site.now.plan.net.counts.boxes }
        requires outs_value { outs ≡ length (box_by self.now).outs }
        requires ready { Ready (scope_by self.now) false self.now.body.now outs from }
        requires places { Places (net_at self.now.site.now) (state_at self.now.site.now state.old) (sent_all self.now outs from) }
        ensures { (result ≡ skip_to from (actions_from false outs from self.now.body.now)) × Becomes self.now.site.now state.old state.new (after_puts (sent_all self.now outs from) (state_at self.now.site.now state.old)) }
    {
        let mut at = from;
        for out in 0..outs {
            self.put_one(out, at, state);
            at = rules::skip_action(self.body, at);
        }
        at
    }

    // The new values of the variables, by the actions from an offset of the body on.
    pub fn keep_new(&self, from: usize, vars: usize, state: &mut [u8])
        requires standing { Stands self.now.site.now state.old }
        requires k_lt_boxes { self.now.k.0 < self.now.site.now.plan.net.counts.boxes }
        requires vars_bound { (vars ≤ 4) × (vars ≡ length (vars_by self.now state.old)) }
        requires ready { Ready (scope_by self.now) true self.now.body.now vars from }
        requires keeps { Keeps (net_at self.now.site.now) (proc (net_at self.now.site.now) self.now.k.0) self.now.env.now.vals (vars_by self.now state.old) (new_all self.now state.old vars from) }
        ensures { Becomes self.now.site.now state.old state.new (after_keeps self.now.k.0 (new_all self.now state.old vars from) (state_at self.now.site.now state.old)) }
    {
        let mut at = from;
        for var in 0..vars {
            self.keep_one(var, at, state);
            at = rules::skip_action(self.body, at);
        }
    }
}
