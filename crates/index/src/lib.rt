#![tactic(auto)]

// The check of all fields of a network file: each in its turn, and its offset noted in a table.
ghost use Rattle.std.specs.Prelude.{◌≡◌, ◌≤◌, length, IfOk};
ghost use Rattle.model.specs.Reasons.{fault_said};
ghost use Rattle.model.specs.NetworkFile.{field_fault, fields};
ghost use Rattle.table.specs.Table.{index_in, Within};
ghost use Rattle.model.proofs.Accepted.{Valid};
ghost use Rattle.index.specs.Verdicts.{verdict_in, Looked};

use model::{Field, Reason, Refusal};
use table::Counts;

// A rule of the last box: its shape is read off the table.
fn rule_in(net: &[u8], tab: &[u16], c: Counts, body: &[u8]) -> Result<(), Reason>
    requires within { Within c }
    requires in_bounds { (656 ≤ length tab.now) × (c.last ≡ 2) }
    requires valid { Valid net.now (index_in tab.now c) }
    ensures { fault_said result ≡ field_fault net.now (index_in tab.now c) 3 body.now }
{
    let mut ins = [0u8; 8];
    let mut outs = [0u8; 8];
    let mut vars = [0u8; 8];
    let o = octets::entry(tab, 63 + c.boxes);
    let a = shapes::shape_of(net, tab, c.wires, o, &mut ins, &mut outs, &mut vars);
    typing::rule_fault(body, &ins, &outs, &vars, a, c.inbox).map_err(|fault| fault.reason)
}

// What is wrong with a field after those counted: its order first, then the field by itself.
fn field_fault(net: &[u8], tab: &[u16], c: Counts, tag: u8, body: &[u8]) -> Result<(), Reason>
    requires within { Within c }
    requires in_bounds { 656 ≤ length tab.now }
    requires valid { Valid net.now (index_in tab.now c) }
    ensures { fault_said result ≡ field_fault net.now (index_in tab.now c) tag body.now }
{
    match tag {
        1 if c.last <= 1 => faults::wire_fault(body, c.wires),
        2 if c.last <= 2 => faults::box_fault(body, c.wires, c.boxes),
        3 if c.last == 2 => rule_in(net, tab, c, body),
        4 if c.last <= 4 => faults::input_fault(body, c.wires, c.inputs),
        5 => faults::output_fault(body, c.wires, c.outputs),
        _ => Err(Reason::Form),
    }
}

// The field at an offset, where it ends in the file and nothing is wrong with it.
fn next_field(net: &[u8], tab: &[u16], c: Counts, at: usize) -> Result<Field, Reason>
    requires within { Within c }
    requires in_bounds { 656 ≤ length tab.now }
    requires valid { Valid net.now (index_in tab.now c) }
    ensures { Looked net.now (index_in tab.now c) at result }
{
    let field = octets::field_at(net, at).ok_or(Reason::Form)?;
    let body = octets::part(net, field.start, field.len);
    field_fault(net, tab, c, field.tag, body)?;
    Ok(field)
}

// The check of all fields, each in its turn. Of good ones the table holds where each stands.
pub fn index(net: &[u8], tab: &mut [u16]) -> Result<Counts, Refusal>
    requires net_len_bound { length net.now ≤ 16384 }
    requires in_bounds { 656 ≤ length tab.old }
    ensures result_after { verdict_in tab.new result ≡ fields net.now }
    ensures fit { IfOk result (λ c. Within c) }
{
    let mut c = Counts {
        wires: 0,
        boxes: 0,
        rules: 0,
        inbox: 0,
        inputs: 0,
        outputs: 0,
        last: 0,
    };
    let mut at = 0;
    while at < net.len() {
        let field = next_field(net, tab, c, at).map_err(|reason| Refusal { reason, place: at })?;
        c = table::note(tab, c, field.tag, at);
        at = field.start + field.len;
    }
    Ok(c)
}
