#![tactic(auto)]

// The output file of a saved state: one field of tag 33 for each output, in order.
ghost use Rattle.std.specs.Prelude.{◌≡◌, ◌++◌, ◌≤◌, length, drop, false};
ghost use Rattle.model.specs.States.{output_file, state_in};
ghost use Rattle.lookup.specs.Views.{network_of};
ghost use Rattle.states.specs.Saved.{Holds};
ghost use Rattle.output_file.specs.Files.{field_on, IsOutput};

use model::ProcessId;
use places::Plan;

// How many bytes the field of output k takes.
fn field_size(plan: &Plan, k: ProcessId, state: &[u8]) -> usize
    requires saved { Holds (network_of plan.now.net) false state.now }
    requires output { IsOutput plan.now.net.counts k.0 }
    ensures { (result ≡ length (field_on (network_of plan.now.net) state.now k.0)) × (result ≤ 5003) }
{
    3 + 5 * octets::two_at(state, plan.own_span(k).start)
}

// How many bytes the output file takes.
pub fn output_size(plan: &Plan, state: &[u8]) -> usize
    requires { Holds (network_of plan.now.net) false state.now }
    ensures { result ≡ length (output_file (network_of plan.now.net) (state_in (network_of plan.now.net) state.now)) }
{
    let c = plan.net.counts;
    let first = c.boxes + c.inputs;
    let mut size: usize = 0;
    for k in first..first + c.outputs {
        size += field_size(plan, ProcessId(k as u8), state);
    }
    size
}

// The field of output k, written at the start. Answers the bytes written.
fn write_field(plan: &Plan, k: ProcessId, state: &[u8], out: &mut [u8]) -> usize
    requires saved { Holds (network_of plan.now.net) false state.now }
    requires output { IsOutput plan.now.net.counts k.0 }
    requires k_in_bounds { length (field_on (network_of plan.now.net) state.now k.0) ≤ length out.old }
    ensures { (result ≡ length (field_on (network_of plan.now.net) state.now k.0)) × (out.new ≡ field_on (network_of plan.now.net) state.now k.0 ++ drop (length (field_on (network_of plan.now.net) state.now k.0)) out.old) }
{
    let span = plan.own_span(k);
    tokens::field_out(&state[span.start..span.end], out)
}

// The output file, written at the buffer's start. Bytes beyond it stay.
pub fn write_file(plan: &Plan, state: &[u8], out: &mut [u8])
    requires saved { Holds (network_of plan.now.net) false state.now }
    requires state_in_bounds { length (output_file (network_of plan.now.net) (state_in (network_of plan.now.net) state.now)) ≤ length out.old }
    ensures { out.new ≡ output_file (network_of plan.now.net) (state_in (network_of plan.now.net) state.now) ++ drop (length (output_file (network_of plan.now.net) (state_in (network_of plan.now.net) state.now))) out.old }
{
    let c = plan.net.counts;
    let first = c.boxes + c.inputs;
    let mut at: usize = 0;
    for k in first..first + c.outputs {
        at += write_field(plan, ProcessId(k as u8), state, &mut out[at..]);
    }
}
