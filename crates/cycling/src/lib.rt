#![tactic(auto)]

// A cycle: the marked processes fire one after another, each by the rule from the cycle's start. A run: cycle after cycle.
ghost use Rattle.std.specs.Prelude.{◌≡◌, true, cond, ◌≤◌, ◌<◌, length};
ghost use Rattle.model.specs.Cycles.{cycle_in, marked_of, has};
ghost use Rattle.model.specs.Calls.{cycle_of};
ghost use Rattle.model.specs.Orders.{Order};
ghost use Rattle.places.specs.Views.{net_at, state_at, Stands};
ghost use Rattle.moves.specs.Views.{Becomes};
ghost use Rattle.cycling.specs.Cycling.{rule_for, ended_as, cycle_as};
ghost use Rattle.cycling.specs.Views.{CanFire, fired_by, Notes, Tells, finding_at, Passes, run_at};

use model::{Ending, ProcessId, Ran, Reason, Refusal, RuleId, Turn};
use token_file::Feed;

// What the marking tells at a cycle's start: the marked set, and the rule by which each box was marked.
#[derive(Clone, Copy)]
struct Start<'a> {
    set: u64,
    rules: &'a [u8],
}

impl Start<'_> {
    // The rule by which a process was marked: that noted for a box; an input or output has one way to fire.
    fn rule_for(&self, boxes: usize, k: ProcessId) -> RuleId
        requires { (boxes ≤ 32) × (length self.now.rules.now ≡ 32) }
        ensures { result.0 ≡ rule_for self.now.rules.now boxes k.0 }
    {
        let i = usize::from(k.0);
        if i < boxes {
            return RuleId(self.rules[i]);
        }
        RuleId(0)
    }

    // Process k fires by the rule noted for it.
    fn fire_next(&self, feed: &Feed, k: ProcessId, state: &mut [u8])
        requires standing { Stands feed.now.site state.old }
        requires rules_len { length self.now.rules.now ≡ 32 }
        requires chosen { CanFire self.now feed.now.site state.old k.0 }
        ensures { Becomes feed.now.site state.old state.new (fired_by self.now feed.now.site state.old k.0) }
    {
        let r = self.rule_for(feed.site.plan.net.counts.boxes, k);
        firing::fire(feed, k, r, state);
    }

    // The processes fire as the order names them.
    fn fire_order(&self, feed: &Feed, order: &[u8], state: &mut [u8])
        requires standing { Stands feed.now.site state.old }
        requires noted { Notes self.now feed.now.site state.old }
        requires order { Order (net_at feed.now.site) (state_at feed.now.site state.old) order.now }
        ensures { Becomes feed.now.site state.old state.new (cycle_in (net_at feed.now.site) order.now (state_at feed.now.site state.old)) }
    {
        for &k in order {
            self.fire_next(feed, ProcessId(k), state);
        }
    }

    // Process k fires if it is in the set.
    fn fire_if(&self, feed: &Feed, k: ProcessId, state: &mut [u8])
        requires standing { Stands feed.now.site state.old }
        requires k_bound { (k.0 < 64) × (length self.now.rules.now ≡ 32) }
        requires chosen { has self.now.set k.0 ≡ true → CanFire self.now feed.now.site state.old k.0 }
        ensures { Becomes feed.now.site state.old state.new (cond (has self.now.set k.0) (fired_by self.now feed.now.site state.old k.0) (state_at feed.now.site state.old)) }
    {
        if marks::is_marked(self.set, k) {
            self.fire_next(feed, k, state);
        }
    }

    // The marked processes fire, lowest first: the run's own order.
    fn fire_marked(&self, feed: &Feed, state: &mut [u8])
        requires standing { Stands feed.now.site state.old }
        requires told { Tells self.now feed.now.site state.old }
        ensures { Becomes feed.now.site state.old state.new (cycle_in (net_at feed.now.site) (marked_of (net_at feed.now.site) (state_at feed.now.site state.old)) (state_at feed.now.site state.old)) }
    {
        let c = feed.site.plan.net.counts;
        for k in 0..c.boxes + c.inputs + c.outputs {
            self.fire_if(feed, ProcessId(k as u8), state);
        }
    }

    // A cycle once the marks are known: 8 for a wrong order, then nothing marked, then the firings.
    fn cycle(&self, feed: &Feed, order: &[u8], state: &mut [u8]) -> Result<Turn, Refusal>
        requires standing { Stands feed.now.site state.old }
        requires told { Tells self.now feed.now.site state.old }
        ensures { cycle_as result state.new ≡ cycle_of state.old order.now (net_at feed.now.site) (state_at feed.now.site state.old) (finding_at feed.now.site state.old) }
    {
        if !marks::order_fits(self.set, order) {
            return Err(Refusal {
                reason: Reason::Order,
                place: 0,
            });
        }
        if self.set == 0 {
            return Ok(Turn::Idle);
        }
        self.fire_order(feed, order, state);
        Ok(Turn::Done)
    }

    // A pass of a run once the marks are known: nothing marked, then no budget left, then the cycle. The answer is how the run ends, None where a cycle was done.
    fn pass(&self, feed: &Feed, left: u32, state: &mut [u8]) -> Option<Ending>
        requires standing { Stands feed.now.site state.old }
        requires told { Tells self.now feed.now.site state.old }
        ensures { Passes feed.now.site state.old left result state.new }
    {
        if self.set == 0 {
            return Some(Ending::Idle);
        }
        if left == 0 {
            return Some(Ending::Spent);
        }
        self.fire_marked(feed, state);
        None
    }
}

// A cycle in an order, on a state that stands: a fault is refused first.
pub fn cycle_in(feed: &Feed, order: &[u8], state: &mut [u8]) -> Result<Turn, Refusal>
    requires standing { Stands feed.now.site state.old }
    ensures { cycle_as result state.new ≡ cycle_of state.old order.now (net_at feed.now.site) (state_at feed.now.site state.old) (finding_at feed.now.site state.old) }
{
    let mut rules = [16u8; 32];
    let set = marking::mark_all(feed, state, &mut rules)?;
    let start = Start { set, rules: &rules };
    start.cycle(feed, order, state)
}

// One pass of a run: marks first, and a fault answers before all else.
fn one_pass(feed: &Feed, left: u32, state: &mut [u8]) -> Option<Ending>
    requires standing { Stands feed.now.site state.old }
    ensures { Passes feed.now.site state.old left result state.new }
{
    let mut rules = [16u8; 32];
    match marking::mark_all(feed, state, &mut rules) {
        Err(refusal) => {
            let Reason::Fault(fault) = refusal.reason else {
                unreachable!(); // the marking refuses nothing but a fault
            };
            Some(Ending::Fault {
                fault,
                place: refusal.place as u8,
            })
        }
        Ok(set) => {
            let start = Start { set, rules: &rules };
            start.pass(feed, left, state)
        }
    }
}

// A run with a budget, on a state that stands: pass after pass, each cycle done counted once.
// (No for counts the cycles: the last pass ends the run at any count, so that a for's own end would never come.)
pub fn run_in(feed: &Feed, budget: u32, state: &mut [u8]) -> Ran
    requires standing { Stands feed.now.site state.old }
    ensures { (result ≡ ended_as (run_at feed.now.site state.old budget)) × Becomes feed.now.site state.old state.new (run_at feed.now.site state.old budget).state }
{
    let mut cycles: u32 = 0;
    loop {
        let left = budget - cycles;
        match one_pass(feed, left, state) {
            Some(ending) => return Ran { ending, cycles },
            None => cycles += 1,
        }
    }
}
