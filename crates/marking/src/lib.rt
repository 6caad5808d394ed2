#![tactic(auto)]

// Which processes are marked, and by which rule: from the state at the cycle's start alone.
ghost use Rattle.std.specs.Prelude.{◌≡◌, ◌+◌, ◌^◌, ◌≤◌, ◌<◌, length, replicate, Ok};
ghost use Rattle.model.specs.Cycles.{mark, flag, finding};
ghost use Rattle.model.specs.Calls.{marks_of};
ghost use Rattle.places.specs.Views.{net_at, state_at, Stands};
ghost use Rattle.trying.specs.Views.{mark_as};
ghost use Rattle.marking.specs.Noted.{step_as, with_rule, rules_as, marking_of};

use model::{Fault, ProcessId, Reason, Refusal, RuleId};
use places::Site;
use token_file::Feed;
use trying::Scene;

// The mark of a box, by its rule: its shape, what it sees, and its rules tried against that.
pub fn mark_box(site: &Site, k: ProcessId, state: &[u8]) -> Result<Option<RuleId>, Fault>
    requires standing { Stands site.now state.now }
    requires k_lt_boxes { k.0 < site.now.plan.net.counts.boxes }
    ensures { result ≡ mark_as (mark (net_at site.now) (state_at site.now state.now) k.0) }
{
    let net = &site.plan.net;
    let mut ins = [0u8; 8];
    let mut outs = [0u8; 8];
    let mut vars = [0u8; 8];
    let at = net.box_at(k);
    let arity = shapes::shape_of(
        net.file,
        net.table,
        net.counts.wires,
        at,
        &mut ins,
        &mut outs,
        &mut vars,
    );
    let view = sights::view_of(site, k, state);
    let scene = Scene {
        arity,
        ins: &ins,
        vars: &vars,
        heads: &view.heads,
        full: &view.full,
        vals: &view.vals,
    };
    trying::search(net, k, net.rules_of(k), &scene)
}

// The mark of an input or output, said as a box's.
#[tactic(auto, unfolding(trying::specs::Views::mark_as, model::specs::Cycles::flag))]
fn end_mark(there: bool) -> Option<RuleId>
    ensures { Ok result ≡ mark_as (flag there) }
{
    there.then_some(RuleId(0))
}

// The mark of any process: boxes come first, then inputs, then outputs.
pub fn mark_of(feed: &Feed, k: ProcessId, state: &[u8]) -> Result<Option<RuleId>, Fault>
    requires standing { Stands feed.now.site state.now }
    requires k_bound { k.0 < feed.now.site.plan.net.counts.boxes + feed.now.site.plan.net.counts.inputs + feed.now.site.plan.net.counts.outputs }
    ensures { result ≡ mark_as (mark (net_at feed.now.site) (state_at feed.now.site state.now) k.0) }
{
    let site = &feed.site;
    let c = site.plan.net.counts;
    let j = usize::from(k.0);
    if j < c.boxes {
        return mark_box(site, k, state);
    }
    if j < c.boxes + c.inputs {
        return Ok(end_mark(ends::input_marked(feed, k, state)));
    }
    Ok(end_mark(ends::output_marked(site, k, state)))
}

// A mark noted: the process's bit in the set, and a box's rule number.
#[tactic(auto, unfolding(crate::specs::Noted::with_rule))]
fn noted(k: ProcessId, r: RuleId, boxes: usize, set: u64, rules: &mut [u8]) -> u64
    requires k_bound { (k.0 < 64) × (set < 2 ^ k.0) }
    requires boxes_bound { (boxes ≤ 32) × (length rules.old ≡ 32) }
    ensures { (result ≡ set + 2 ^ k.0) × (rules.new ≡ with_rule k.0 boxes r.0 rules.old) }
{
    let j = usize::from(k.0);
    if j < boxes {
        rules[j] = r.0;
    }
    marks::with_mark(set, k)
}

// The mark of process k, which is above all those in the set.
fn mark_next(
    feed: &Feed,
    k: ProcessId,
    state: &[u8],
    set: u64,
    rules: &mut [u8],
) -> Result<u64, Fault>
    requires standing { Stands feed.now.site state.now }
    requires k_bound { k.0 < feed.now.site.plan.net.counts.boxes + feed.now.site.plan.net.counts.inputs + feed.now.site.plan.net.counts.outputs }
    requires set_bound { (set < 2 ^ k.0) × (length rules.old ≡ 32) }
    ensures marked { result ≡ step_as (mark (net_at feed.now.site) (state_at feed.now.site state.now) k.0) k.0 set }
    ensures numbers { rules.new ≡ rules_as (mark (net_at feed.now.site) (state_at feed.now.site state.now) k.0) k.0 feed.now.site.plan.net.counts.boxes rules.old }
{
    let Some(rule) = mark_of(feed, k, state)? else {
        return Ok(set);
    };
    Ok(noted(k, rule, feed.site.plan.net.counts.boxes, set, rules))
}

// The marks of all processes in turn, up to the lowest that faults; rule numbers of boxes that are marked are noted.
pub fn mark_all(feed: &Feed, state: &[u8], rules: &mut [u8]) -> Result<u64, Refusal>
    requires standing { Stands feed.now.site state.now }
    requires rules_value { rules.old ≡ replicate 32 16 }
    ensures { marking_of result rules.new ≡ marks_of (net_at feed.now.site) (state_at feed.now.site state.now) (finding (net_at feed.now.site) (state_at feed.now.site state.now)) }
{
    let c = feed.site.plan.net.counts;
    let total = c.boxes + c.inputs + c.outputs;
    let mut set = 0;
    for k in 0..total {
        match mark_next(feed, ProcessId(k as u8), state, set, rules) {
            Ok(more) => set = more,
            Err(fault) => {
                return Err(Refusal {
                    reason: Reason::Fault(fault),
                    place: k,
                });
            }
        }
    }
    Ok(set)
}
