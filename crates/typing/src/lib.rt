#![tactic(auto)]

// The limits and the types of a rule's body, and what is wrong with a rule.
ghost use Rattle.std.specs.Prelude.{◌≡◌, true, false, ◌+◌, ◌*◌, ◌≤◌, ◌<◌, length, get_or, drop, set, Some};
ghost use Rattle.model.specs.Bytes.{value_at};
ghost use Rattle.model.specs.Values.{no_type};
ghost use Rattle.model.specs.Expressions.{type_at, expression, type_of};
ghost use Rattle.model.specs.Rules.{pattern_of, pattern_fits, patterns_fit, matched_types, fit_if, guard_fits, action_fits, actions_fit, send, rule_fits, rule_read, read_rule};
ghost use Rattle.expressions.specs.Reading.{limits_read, is_read};
ghost use Rattle.types.specs.Scopes.{scope_in};
ghost use Rattle.shapes.specs.Shapes.{types_in, shape_in};
ghost use Rattle.rules.specs.Bodies.{patterns_from, actions_from, sent_limits, limits_of, layout_of};
ghost use Rattle.typing.specs.Fits.{fitting_of, list_read, exp_read, action_at, tag_of, scope_read, expressions_fit, Precise, Agree, Kept};
ghost use Rattle.typing.specs.Limits.{actions_keep, rule_keeps};
ghost use Rattle.typing.specs.RuleFault.{rule_fault};

use model::{Reason, Ty};
use rules::Parts;
use shapes::Arity;

// What is wrong with a rule: its form, its limits or its types, and the offset in its body.
#[derive(Clone, Copy, PartialEq, Eq, Debug)]
pub struct RuleFault {
    pub reason: Reason,
    pub at: usize,
}

// Fits, or fails there.
#[tactic(auto, unfolding(crate::specs::Fits::fitting_of, model::specs::Rules::fit_if))]
fn fit_if(ok: bool, at: usize) -> Result<(), usize>
    ensures { result ≡ fitting_of (fit_if ok at) }
{
    if ok { Ok(()) } else { Err(at) }
}

// The type k of a table.
fn entry(types: &[u8], k: usize) -> Ty
    requires { k < 4 }
    ensures { result ≡ type_at types.now (2 * k) }
{
    expressions::type_at(types, 2 * k)
}

// The tag of a pattern code other than 0.
#[tactic(auto, unfolding(crate::specs::Fits::tag_of))]
pub fn pattern_tag(c: u8) -> u8
    ensures { result ≡ tag_of c }
{
    match c {
        0..=2 => 0,
        3..=5 => c - 2,
        _ => 3,
    }
}

// The pattern at an offset fits a wire's or a variable's type: its tag, and its constant.
fn pattern_fits(b: &[u8], at: usize, t: Ty) -> bool
    requires at_in_bounds { at < length b.now }
    requires le_p { (1 ≤ t.p) × (t.p ≤ 30) }
    ensures { result ≡ pattern_fits t (pattern_of (get_or b.now at 0) (value_at b.now (at + 1))) }
{
    let c = octets::byte_at(b, at);
    if c == 0 {
        return true;
    }
    if !values::tag_fits(t, pattern_tag(c)) {
        return false;
    }
    if (c == 2) | (6 <= c) {
        let u = values::carried(t);
        return values::within(u, octets::value_at(b, at + 1));
    }
    true
}

// The n patterns from an offset on fit the first types of a table. What can be a variable's can be an input's.
// This walk, actions_fit and actions_keep stay apart: what a step asks holds only where the walk has come, which an invariant says shorter than a closure's clauses.
fn patterns_fit(b: &[u8], from: usize, n: usize, types: &[u8]) -> Result<(), usize>
    requires n_bound { n ≤ 4 }
    requires b_value { is_read (patterns_from false n from b.now) ≡ true }
    requires precise { Precise types.now n }
    ensures { result ≡ fitting_of (patterns_fit from (types_in types.now n) (list_read (patterns_from false n from b.now))) }
{
    let mut at = from;
    for k in 0..n {
        if !pattern_fits(b, at, entry(types, k)) {
            return Err(at);
        }
        at = rules::skip_pattern(b, at);
    }
    Ok(())
}

// The type that a reference to input k has: its pattern must be 1 or 5.
fn matched_type(b: &[u8], n: usize, ins: &[u8], k: usize) -> Ty
    requires n_bound { n ≤ 4 }
    requires b_value { is_read (patterns_from false n 0 b.now) ≡ true }
    ensures { result ≡ get_or (matched_types (types_in ins.now n) (list_read (patterns_from false n 0 b.now))) k no_type }
{
    if n <= k {
        return Ty { kind: 255, p: 0 };
    }
    let mut at = 0;
    for _ in 0..k {
        at = rules::skip_pattern(b, at);
    }
    let c = octets::byte_at(b, at);
    if (c == 1) | (c == 5) {
        return values::carried(entry(ins, k));
    }
    Ty { kind: 255, p: 0 }
}

// The type of variable k of n.
#[tactic(auto, using(crate::proofs::Patterns::types_none, crate::proofs::Patterns::types_at), unfolding(model::specs::Values::no_type))]
fn variable_type(vars: &[u8], n: usize, k: usize) -> Ty
    requires { n ≤ 4 }
    ensures { result ≡ get_or (types_in vars.now n) k no_type }
{
    if n <= k {
        return Ty { kind: 255, p: 0 };
    }
    entry(vars, k)
}

// A type, written at an offset of a table.
fn put_type(types: &mut [u8; 16], at: usize, t: Ty)
    requires { at < 15 }
    ensures { types.new ≡ set (set types.old at t.kind) (at + 1) t.p }
{
    types[at] = t.kind;
    types[at + 1] = t.p;
}

// The types that a rule's expressions may name: of the four inputs, then of the four variables.
pub fn scope(b: &[u8], ins: &[u8], vars: &[u8], a: Arity) -> [u8; 16]
    requires ins_bound { (a.ins ≤ 4) × (a.vars ≤ 4) }
    requires b_value { is_read (patterns_from false a.ins 0 b.now) ≡ true }
    ensures { Agree (scope_in result) (scope_read (types_in ins.now a.ins) (types_in vars.now a.vars) (patterns_from false a.ins 0 b.now)) }
{
    let mut types = [0; 16];
    for k in 0..4 {
        put_type(&mut types, 2 * k, matched_type(b, a.ins, ins, k));
        put_type(&mut types, 8 + 2 * k, variable_type(vars, a.vars, k));
    }
    types
}

// A guard is bool.
fn guard_fits(b: &[u8], at: usize, types: &[u8; 16]) -> Result<(), usize>
    requires { limits_read (expression (drop at b.now)) ≡ true }
    ensures { result ≡ fitting_of (guard_fits at (type_of (scope_in types.now) (exp_read (expression (drop at b.now))))) }
{
    match types::type_of(&b[at..], types) {
        Ok(typed) => fit_if(values::is_bool(typed.ty), at),
        Err(k) => Err(at + k),
    }
}

// The expression of an action has the type of what it fills, which takes its tag.
fn sent_fits(b: &[u8], at: usize, tag: u8, t: Ty, types: &[u8; 16]) -> Result<(), usize>
    requires at_in_bounds { at < length b.now }
    requires b_value { limits_read (expression (drop (at + 1) b.now)) ≡ true }
    ensures { result ≡ fitting_of (action_fits (scope_in types.now) at t (send tag (exp_read (expression (drop (at + 1) b.now))))) }
{
    let from = at + 1;
    match types::type_of(&b[from..], types) {
        Ok(typed) => fit_if(
            values::same_type(typed.ty, values::carried(t)) & values::tag_fits(t, tag),
            at,
        ),
        Err(k) => Err(from + k),
    }
}

// The action at an offset fits what it fills.
fn action_fits(b: &[u8], at: usize, t: Ty, types: &[u8; 16]) -> Result<(), usize>
    requires at_in_bounds { at < length b.now }
    requires b_value { sent_limits (drop at b.now) ≡ true }
    ensures { result ≡ fitting_of (action_fits (scope_in types.now) at t (action_at (drop at b.now))) }
{
    match octets::byte_at(b, at) {
        0 => Ok(()),
        1 => sent_fits(b, at, 0, t, types),
        5 => sent_fits(b, at, 3, t, types),
        c => fit_if(values::tag_fits(t, c - 2), at),
    }
}

// The n actions from an offset on fit the first types of a table. What can be a variable's can be an output's.
fn actions_fit(b: &[u8], from: usize, n: usize, table: &[u8], types: &[u8; 16]) -> Result<(), usize>
    requires n_bound { n ≤ 4 }
    requires b_value { limits_of (actions_from false n from b.now) ≡ true }
    ensures { result ≡ fitting_of (actions_fit (scope_in types.now) from (types_in table.now n) (list_read (actions_from false n from b.now))) }
{
    let mut at = from;
    for k in 0..n {
        action_fits(b, at, entry(table, k), types)?;
        at = rules::skip_action(b, at);
    }
    Ok(())
}

// The guard, the output actions and the variable actions fit.
fn expressions_fit(
    b: &[u8],
    outs: &[u8],
    vars: &[u8],
    a: Arity,
    p: Parts,
    types: &[u8; 16],
) -> Result<(), usize>
    requires outs_bound { (a.outs ≤ 4) × (a.vars ≤ 4) }
    requires kept { Kept a p b.now }
    ensures { result ≡ fitting_of (expressions_fit (scope_in types.now) a p outs.now vars.now b.now) }
{
    guard_fits(b, p.guard, types)?;
    actions_fit(b, p.outs, a.outs, outs, types)?;
    actions_fit(b, p.sets, a.vars, vars, types)
}

// The parts of a rule fit the shape of its box, from the left.
pub fn types_fit(
    b: &[u8],
    ins: &[u8],
    outs: &[u8],
    vars: &[u8],
    a: Arity,
    p: Parts,
) -> Result<(), usize>
    requires ins_bound { (a.ins ≤ 4) × (a.outs ≤ 4) × (a.vars ≤ 4) }
    requires precise { Precise ins.now a.ins × Precise vars.now a.vars }
    requires b_value { layout_of a b.now ≡ Some p }
    requires kept { Kept a p b.now }
    ensures { result ≡ fitting_of (rule_fits (shape_in ins.now outs.now vars.now a) (rule_read (read_rule a.ins a.outs a.vars b.now))) }
{
    patterns_fit(b, 0, a.ins, ins)?;
    patterns_fit(b, p.vars, a.vars, vars)?;
    let types = scope(b, ins, vars, a);
    expressions_fit(b, outs, vars, a, p, &types)
}

// The n actions from an offset on keep the limits of their expressions.
fn actions_keep(b: &[u8], from: usize, n: usize) -> Result<(), usize>
    requires { is_read (actions_from false n from b.now) ≡ true }
    ensures { result ≡ fitting_of (actions_keep from (list_read (actions_from false n from b.now))) }
{
    let mut at = from;
    for _ in 0..n {
        if !rules::action_limits(b, at) {
            return Err(at + 1);
        }
        at = rules::skip_action(b, at);
    }
    Ok(())
}

// 16 rules a box, 512 bytes a body, and the limits of the guard and of each action; `seen` rules of its box stand before it.
fn limits(b: &[u8], a: Arity, p: Parts, seen: usize) -> Result<(), usize>
    requires { layout_of a b.now ≡ Some p }
    ensures { result ≡ fitting_of (rule_keeps seen b.now (rule_read (read_rule a.ins a.outs a.vars b.now))) }
{
    if 16 <= seen {
        return Err(0);
    }
    if 512 < b.len() {
        return Err(0);
    }
    if !rules::expression_limits(b, p.guard) {
        return Err(p.guard);
    }
    actions_keep(b, p.outs, a.outs)?;
    actions_keep(b, p.sets, a.vars)
}

// What is wrong with a rule, from the left: its form, then its limits, then its types; `seen` rules of its box stand before it.
pub fn rule_fault(
    body: &[u8],
    ins: &[u8],
    outs: &[u8],
    vars: &[u8],
    a: Arity,
    seen: usize,
) -> Result<(), RuleFault>
    requires ins_bound { (a.ins ≤ 4) × (a.outs ≤ 4) × (a.vars ≤ 4) }
    requires precise { Precise ins.now a.ins × Precise vars.now a.vars }
    ensures { result ≡ rule_fault (shape_in ins.now outs.now vars.now a) seen body.now }
{
    let Some(p) = rules::parts_of(body, a) else {
        return Err(RuleFault {
            reason: Reason::Form,
            at: rules::read_to(body, a),
        });
    };
    limits(body, a, p, seen).map_err(|at| RuleFault {
        reason: Reason::Limits,
        at,
    })?;
    types_fit(body, ins, outs, vars, a, p).map_err(|at| RuleFault {
        reason: Reason::Types,
        at,
    })
}
