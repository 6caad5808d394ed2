#![tactic(auto)]

// The calls of the bench on lent memory: refusals in the order of document 01, then the work. None of them asks for anything.
ghost use Rattle.std.specs.Prelude.{◌≡◌};
ghost use Rattle.model.specs.Cycles.{finding};
ghost use Rattle.model.specs.Calls.{said_check, said_load, said_cycle, said_run, said_write, refusal, no_marks, marks_of, check_call, body_call, load_call, mark_call, cycle_call, run_call, write_call};
ghost use Rattle.octets.specs.Part.{PartOf};
ghost use Rattle.lookup.specs.Views.{network_of};
ghost use Rattle.places.specs.Views.{net_at, state_at, Stands};
ghost use Rattle.bench.specs.Afters.{after, load_in, marked_as, begun, begins, write_in};

use model::{Marked, ProcessId, Ran, Reason, Refusal, RuleId, Turn};
use opening::Tables;
use places::Plan;
use states::Basis;
use token_file::Feed;

// The check of a network file: accepted, or the refusal.
pub fn check(net: &[u8]) -> Result<(), Refusal>
    ensures { said_check result ≡ check_call net.now }
{
    network::check(net)
}

// The body of rule r of box b, that very part of the file; empty at the file's end where there is none.
pub fn rule_body<'a>(net: &'a [u8], b: ProcessId, r: RuleId) -> &'a [u8]
    ensures { PartOf net.entry (body_call net.now b.0 r.0).start (body_call net.now b.0 r.0).len result }
{
    network::rule_body(net, b, r)
}

// A load of an accepted network: too little room is refused with the bytes needed. Answers the state's size.
fn load_in(plan: &Plan, state: &mut [u8]) -> Result<usize, Refusal>
    ensures { after (said_load result) state.new ≡ load_in (network_of plan.now.net) state.old }
{
    let size = states::size(plan);
    if state.len() < size {
        return Err(Refusal {
            reason: Reason::Space,
            place: size,
        });
    }
    states::load(plan, state);
    Ok(size)
}

// A load: wires and outputs empty, counts 0, variables initial. Answers the state's size.
pub fn load(net: &[u8], tokens: &[u8], state: &mut [u8]) -> Result<usize, Refusal>
    ensures { after (said_load result) state.new ≡ load_call net.now tokens.now state.old }
{
    let mut tables = Tables::new();
    let feed = tables.open_files(net, tokens)?;
    load_in(&feed.site.plan, state)
}

// A refusal beside 16 for each box.
#[tactic(auto, unfolding(crate::specs::Afters::marked_as, model::specs::Calls::said_mark, model::specs::Calls::no_marks))]
fn unmarked(why: Refusal) -> Marked
    ensures { marked_as result ≡ no_marks (refusal why) }
{
    Marked {
        answer: Err(why),
        rules: [16; 32],
    }
}

// The marks in a state that stands; beside a fault each box has 16.
fn mark_in(feed: &Feed, state: &[u8]) -> Marked
    requires { Stands feed.now.site state.now }
    ensures { marked_as result ≡ marks_of (net_at feed.now.site) (state_at feed.now.site state.now) (finding (net_at feed.now.site) (state_at feed.now.site state.now)) }
{
    let mut rules = [16; 32];
    match marking::mark_all(feed, state, &mut rules) {
        Ok(set) => Marked {
            answer: Ok(set),
            rules,
        },
        Err(refusal) => unmarked(refusal),
    }
}

// The marked set, and the rule number of each of 32 boxes.
pub fn mark(net: &[u8], tokens: &[u8], state: &[u8]) -> Marked
    ensures { marked_as result ≡ mark_call net.now tokens.now state.now }
{
    let mut tables = Tables::new();
    match tables.open_state(net, tokens, state) {
        Ok(feed) => mark_in(&feed, state),
        Err(refusal) => unmarked(refusal),
    }
}

// A single cycle in an order: the checks of the files and the state, then a fault, then the order, then the firings.
pub fn cycle(net: &[u8], tokens: &[u8], state: &mut [u8], order: &[u8]) -> Result<Turn, Refusal>
    ensures { after (said_cycle result) state.new ≡ cycle_call net.now tokens.now state.old order.now }
{
    let mut tables = Tables::new();
    let feed = tables.open_state(net, tokens, state)?;
    cycling::cycle_in(&feed, order, state)
}

// A run of at most as many cycles as the budget says; a budget above 65,535 is over the limits.
pub fn run(net: &[u8], tokens: &[u8], state: &mut [u8], budget: u32) -> Result<Ran, Refusal>
    ensures { (after (said_run result) state.new ≡ run_call net.now tokens.now state.old budget) × (begun result ≡ begins net.now tokens.now state.old budget) }
{
    if budget > 65535 {
        return Err(Refusal {
            reason: Reason::Limits,
            place: 0,
        });
    }
    let mut tables = Tables::new();
    let feed = tables.open_state(net, tokens, state)?;
    Ok(cycling::run_in(&feed, budget, state))
}

// The output file of an accepted network: the state is held against it first, without taken counts, then the output buffer is measured.
fn write_in(plan: &Plan, state: &[u8], out: &mut [u8]) -> Result<usize, Refusal>
    ensures { after (said_write result) out.new ≡ write_in (network_of plan.now.net) state.now out.old }
{
    opening::held(&Basis::Network(*plan), state)?;
    let written = output_file::output_size(plan, state);
    if out.len() < written {
        return Err(Refusal {
            reason: Reason::Space,
            place: written,
        });
    }
    output_file::write_file(plan, state, out);
    Ok(written)
}

// The tokens that outputs got, one field each, at the start of the output buffer. Answers the bytes written.
pub fn write_outputs(net: &[u8], state: &[u8], out: &mut [u8]) -> Result<usize, Refusal>
    ensures { after (said_write result) out.new ≡ write_call net.now state.now out.old }
{
    let mut tables = Tables::new();
    let plan = tables.open_network(net)?;
    write_in(&plan, state, out)
}
