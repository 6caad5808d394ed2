#![tactic(auto)]

// A rule's guard and actions, each worked out from the part of the rule body where it begins.
ghost use Rattle.std.specs.Prelude.{◌≡◌, Bool, true, ◌≤◌, ◌<◌, length, drop};
ghost use Rattle.model.specs.Expressions.{expression, value_of};
ghost use Rattle.model.specs.Cycles.{or_zero, result as result_of, new_var};
ghost use Rattle.expressions.specs.Reading.{limits_read};
ghost use Rattle.types.specs.Scopes.{scope_in};
ghost use Rattle.rules.specs.Bodies.{actions_from, sent_limits, limits_of};
ghost use Rattle.evaluation.specs.Named.{named_by};
ghost use Rattle.typing.specs.Fits.{exp_read, list_read, action_at};
ghost use Rattle.actions.specs.Acts.{has_type, sent_typed, all_typed, fault_of, faults_of};

use evaluation::Env;
use model::{Fault, Outcome, Token, Value};

// The value of the expression at an offset.
pub fn value(b: &[u8], at: usize, env: &Env) -> Outcome
    requires b_value { limits_read (expression (drop at b.now)) ≡ true }
    requires b_value_2 { has_type (scope_in env.now.types) (exp_read (expression (drop at b.now))) ≡ true }
    ensures { result ≡ value_of (named_by env.now) (exp_read (expression (drop at b.now))) }
{
    let v = evaluation::value_of(&b[at..], env)?;
    Ok(Value {
        ty: v.ty,
        value: v.value,
    })
}

// The value of the expression at an offset, 0 where it faults.
#[tactic(auto, unfolding(model::specs::Cycles::or_zero))]
fn number(b: &[u8], at: usize, env: &Env) -> i64
    requires b_value { limits_read (expression (drop at b.now)) ≡ true }
    requires b_value_2 { has_type (scope_in env.now.types) (exp_read (expression (drop at b.now))) ≡ true }
    ensures { result ≡ or_zero (value_of (named_by env.now) (exp_read (expression (drop at b.now)))) }
{
    value(b, at, env).map_or(0, |v| v.value)
}

// What the action at an offset sends.
pub fn sent(b: &[u8], at: usize, env: &Env) -> Option<Token>
    requires at_in_bounds { at < length b.now }
    requires b_value { sent_limits (drop at b.now) ≡ true }
    requires b_value_2 { sent_typed (scope_in env.now.types) (action_at (drop at b.now)) ≡ true }
    ensures { result ≡ result_of (named_by env.now) (action_at (drop at b.now)) }
{
    let c = octets::byte_at(b, at);
    match c {
        0 => None,
        1 => Some(Token {
            tag: 0,
            value: number(b, at + 1, env),
        }),
        5 => Some(Token {
            tag: 3,
            value: number(b, at + 1, env),
        }),
        _ => Some(Token {
            tag: c - 2,
            value: 0,
        }),
    }
}

// What the action at an offset leaves in a variable.
pub fn kept_value(b: &[u8], at: usize, old: i64, env: &Env) -> i64
    requires at_in_bounds { at < length b.now }
    requires b_value { sent_limits (drop at b.now) ≡ true }
    requires b_value_2 { sent_typed (scope_in env.now.types) (action_at (drop at b.now)) ≡ true }
    ensures { result ≡ new_var (named_by env.now) old (action_at (drop at b.now)) }
{
    let c = octets::byte_at(b, at);
    if !rules::holds_expression(c) {
        return old;
    }
    number(b, at + 1, env)
}

// The fault of the action at an offset.
fn action_fault(b: &[u8], at: usize, env: &Env) -> Result<(), Fault>
    requires at_in_bounds { at < length b.now }
    requires b_value { sent_limits (drop at b.now) ≡ true }
    requires b_value_2 { sent_typed (scope_in env.now.types) (action_at (drop at b.now)) ≡ true }
    ensures { result ≡ fault_of (named_by env.now) (action_at (drop at b.now)) }
{
    let c = octets::byte_at(b, at);
    if !rules::holds_expression(c) {
        return Ok(());
    }
    value(b, at + 1, env)?;
    Ok(())
}

// The first fault among n actions from an offset on, which are a variable's or an output's: the code is the same for both.
pub fn actions_fault(b: &[u8], from: usize, n: usize, env: &Env) -> Result<(), Fault>
    ghost var: { Bool }
    requires n_bound { n ≤ 4 }
    requires b_value { limits_of (actions_from var n from b.now) ≡ true }
    requires b_value_2 { all_typed (scope_in env.now.types) (list_read (actions_from var n from b.now)) ≡ true }
    ensures { result ≡ faults_of (named_by env.now) (list_read (actions_from var n from b.now)) }
{
    let mut at = from;
    for _action in 0..n {
        action_fault(b, at, env)?;
        at = rules::skip_action(b, at);
    }
    Ok(())
}
