#![tactic(auto)]

// What is wrong with a field of the network file by itself: its form, its limits or its types, the first that fails.
ghost use Rattle.std.specs.Prelude.{true, ◌≡◌, ◌+◌, ◌*◌, ◌<◌, leb, ltb, get_or};
ghost use Rattle.model.specs.Values.{in_precision};
ghost use Rattle.model.specs.Expressions.{type_at};
ghost use Rattle.model.specs.Reasons.{fault_said};
ghost use Rattle.faults.specs.Variables.{fits_at};
ghost use Rattle.model.specs.NetworkFile.{fault_of, wire_form, wire_limits, wire_type_fits, variable_start, every, box_form, box_limits, box_types, input_form, output_form, output_limits};

use model::{Reason, Ty};

// A wire: kind, p, capacity; `seen` wires stand before it.
#[tactic(auto, unfolding(model::specs::Reasons::fault_said, model::specs::Reasons::reason_number, model::specs::NetworkFile::fault_of, model::specs::NetworkFile::wire_form, model::specs::NetworkFile::wire_limits, model::specs::NetworkFile::wire_type_fits, model::specs::Values::in_precision, model::specs::Values::well_sized, model::specs::Values::is_bool, model::specs::Expressions::type_at,))]
pub fn wire_fault(b: &[u8], seen: usize) -> Result<(), Reason>
    ensures { fault_said result ≡ fault_of (wire_form b.now) (wire_limits seen b.now) (wire_type_fits b.now) }
{
    let [kind, p, capacity] = *b else {
        return Err(Reason::Form);
    };
    if 4 < kind {
        return Err(Reason::Form);
    }
    if 64 <= seen || p < 1 || 30 < p || capacity < 1 || 64 < capacity {
        return Err(Reason::Limits);
    }
    if kind == 0 && p != 1 {
        return Err(Reason::Types);
    }
    Ok(())
}

// An input: a wire number; `seen` inputs stand before it.
#[tactic(auto, unfolding(model::specs::Reasons::fault_said, model::specs::Reasons::reason_number, model::specs::NetworkFile::fault_of, model::specs::NetworkFile::input_form,))]
pub fn input_fault(b: &[u8], wires: usize, seen: usize) -> Result<(), Reason>
    ensures { fault_said result ≡ fault_of (input_form wires b.now) (ltb seen 8) true }
{
    let [w] = *b else {
        return Err(Reason::Form);
    };
    if wires <= usize::from(w) {
        return Err(Reason::Form);
    }
    if seen < 8 {
        Ok(())
    } else {
        Err(Reason::Limits)
    }
}

// An output: a wire number, a two-byte room; `seen` outputs stand before it.
#[tactic(auto, unfolding(model::specs::Reasons::fault_said, model::specs::Reasons::reason_number, model::specs::NetworkFile::fault_of, model::specs::NetworkFile::output_form, model::specs::NetworkFile::output_limits,))]
pub fn output_fault(b: &[u8], wires: usize, seen: usize) -> Result<(), Reason>
    ensures { fault_said result ≡ fault_of (output_form wires b.now) (output_limits seen b.now) true }
{
    if b.len() != 3 || wires <= usize::from(b[0]) {
        return Err(Reason::Form);
    }
    let room = octets::two_at(b, 1);
    if 8 <= seen || room < 1 || 1000 < room {
        return Err(Reason::Limits);
    }
    Ok(())
}

// How many ports a box's body states.
fn ports_of(b: &[u8]) -> usize
    ensures { (result ≡ get_or b.now 0 0 + get_or b.now 1 0) × (result < 512) }
{
    let ins = usize::from(octets::byte_at(b, 0));
    let outs = usize::from(octets::byte_at(b, 1));
    ins + outs
}

// Where variable j of a box's body begins.
#[tactic(auto, unfolding(model::specs::NetworkFile::variable_start))]
fn variable_start(b: &[u8], j: usize) -> usize
    requires { j < 256 }
    ensures { (result ≡ variable_start b.now j) × (result < 4000) }
{
    let ports = ports_of(b);
    3 + ports + 6 * j
}

// Each of the n wire numbers of a box's body is below the count of wires.
fn ports_declared(b: &[u8], n: usize, wires: usize) -> bool
    requires { n < 512 }
    ensures { result ≡ every n (λ k. ltb (get_or b.now (3 + k) 0) wires) }
{
    (0..n).all(|k| usize::from(octets::byte_at(b, 3 + k)) < wires)
}

// Each of the n variables of a box's body is of a known kind.
fn kinds_known(b: &[u8], n: usize) -> bool
    requires { n < 256 }
    ensures { result ≡ every n (λ j. leb (get_or b.now (variable_start b.now j) 0) 4) }
{
    (0..n).all(|j| octets::byte_at(b, variable_start(b, j)) <= 4)
}

// A box's form: its length fits its counts, its wires are declared, its variables' kinds are known.
#[tactic(auto, unfolding(model::specs::NetworkFile::box_form))]
fn box_form(b: &[u8], wires: usize) -> bool
    ensures { result ≡ box_form wires b.now }
{
    let vars = usize::from(octets::byte_at(b, 2));
    let is_long = b.len() >= 3 && b.len() == variable_start(b, vars);
    is_long && ports_declared(b, ports_of(b), wires) && kinds_known(b, vars)
}

// The type at an offset.
#[tactic(auto, unfolding(model::specs::Expressions::type_at))]
fn type_at(b: &[u8], at: usize) -> Ty
    requires { at < 4000 }
    ensures { result ≡ type_at b.now at }
{
    Ty {
        kind: octets::byte_at(b, at),
        p: octets::byte_at(b, at + 1),
    }
}

// Each of the n variables of a box's body has a precision of 1 to 30.
fn variables_precise(b: &[u8], n: usize) -> bool
    requires { n < 256 }
    ensures { result ≡ every n (λ j. in_precision (type_at b.now (variable_start b.now j))) }
{
    (0..n).all(|j| values::in_precision(type_at(b, variable_start(b, j))))
}

// A box's limits: 32 boxes, 4 inputs, outputs and variables, their precisions; `seen` boxes stand before it.
#[tactic(auto, unfolding(model::specs::NetworkFile::box_limits))]
fn box_limits(b: &[u8], seen: usize) -> bool
    ensures { result ≡ box_limits seen b.now }
{
    let vars = octets::byte_at(b, 2);
    seen < 32
        && octets::byte_at(b, 0) <= 4
        && octets::byte_at(b, 1) <= 4
        && vars <= 4
        && variables_precise(b, usize::from(vars))
}

// The variable at an offset is of a plain type, and its initial value of that type.
#[tactic(auto, unfolding(crate::specs::Variables::fits_at, model::specs::Values::in_precision))]
fn variable_fits(b: &[u8], at: usize) -> bool
    requires at_bound { at < 4000 }
    requires at_value { in_precision (type_at b.now at) ≡ true }
    ensures { result ≡ fits_at b.now at }
{
    let t = type_at(b, at);
    values::is_plain(t) && values::within(t, octets::value_at(b, at + 2))
}

// Each of the n variables of a box's body fits.
fn variables_fit(b: &[u8], n: usize) -> bool
    requires n_bound { n < 256 }
    requires j_value { every n (λ j. in_precision (type_at b.now (variable_start b.now j))) ≡ true }
    ensures { result ≡ every n (λ j. fits_at b.now (variable_start b.now j)) }
{
    (0..n).all(|j| variable_fits(b, variable_start(b, j)))
}

// A box: counts, wire numbers, variables; `seen` boxes stand before it.
#[tactic(auto, unfolding(model::specs::Reasons::fault_said, model::specs::Reasons::reason_number, model::specs::NetworkFile::fault_of, model::specs::NetworkFile::box_types, model::specs::NetworkFile::variable_fits, crate::specs::Variables::fits_at,))]
pub fn box_fault(b: &[u8], wires: usize, seen: usize) -> Result<(), Reason>
    ensures { fault_said result ≡ fault_of (box_form wires b.now) (box_limits seen b.now) (box_types b.now) }
{
    if !box_form(b, wires) {
        return Err(Reason::Form);
    }
    if !box_limits(b, seen) {
        return Err(Reason::Limits);
    }
    let vars = usize::from(octets::byte_at(b, 2));
    if variables_fit(b, vars) {
        Ok(())
    } else {
        Err(Reason::Types)
    }
}
