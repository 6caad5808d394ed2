#![tactic(auto)]

// The value of an expression that keeps the limits and has a type, worked out from its operands.
ghost use Rattle.std.specs.Prelude.{Ok, ◌≡◌, true, false, cond, ◌&&◌, ◌+◌, ◌≤◌, ◌^◌, eqb, ltb, pos, length, get_or, drop};
ghost use Rattle.std.specs.Int.Signed.{mag};
ghost use Rattle.model.specs.Values.{gives, wrap, eq_z, apply, apply_one};
ghost use Rattle.model.specs.Expressions.{expression, operands, head_fits};
ghost use Rattle.expressions.specs.Reading.{is_read, skip_to, fits_at, limits_read};
ghost use Rattle.types.specs.Scopes.{scope_in, typed_at};
ghost use Rattle.evaluation.specs.Envs.{outcome_at, valued_at, is_typed};
ghost use Rattle.evaluation.specs.Named.{named_by};

use model::{Fault, Outcome, Ty};

mod names;

pub use names::Env;

// A value with its type, and the offset after its expression.
#[derive(Clone, Copy, PartialEq, Eq, Debug)]
pub struct Valued {
    pub ty: Ty,
    pub value: i64,
    pub next: usize,
}

// An outcome with the offset after its expression.
#[tactic(auto, unfolding(crate::specs::Envs::outcome_at))]
fn placed(outcome: Outcome, next: usize) -> Result<Valued, Fault>
    ensures { result ≡ outcome_at next outcome }
{
    let v = outcome?;
    Ok(Valued {
        ty: v.ty,
        value: v.value,
        next,
    })
}

// The value at i, 0 past the end.
pub fn number_at(vs: &[i64], i: usize) -> i64
    ensures { result ≡ get_or vs.now i (pos 0) }
{
    vs.get(i).copied().unwrap_or(0)
}

// The value of input i (from 0) or of variable i (from 4); 0 from 4 on.
fn kept(env: &Env, from: usize, i: u8) -> i64
    requires { from ≤ 4 }
    ensures { result ≡ cond (ltb i 4) (get_or env.now.vals (from + i) (pos 0)) (pos 0) }
{
    if i < 4 {
        return number_at(&env.vals, from + usize::from(i));
    }
    0
}

// A literal's own value; a matched value and a variable from the values.
fn leaf_value(s: &[u8], at: usize, env: &Env) -> Valued
    requires at_in_bounds { at ≤ length s.now }
    requires s_value { head_fits (drop at s.now) ≡ true }
    requires at_value { operands (get_or s.now at 0) ≡ 0 }
    ensures { Ok result ≡ valued_at (named_by env.now) at (expression (drop at s.now)) }
{
    let c = octets::byte_at(s, at);
    if c == 0 {
        return Valued {
            ty: expressions::type_at(s, at + 1),
            value: octets::value_at(s, at + 3),
            next: at + 7,
        };
    }
    let i = octets::byte_at(s, at + 1);
    if c == 1 {
        return Valued {
            ty: types::named(&env.types, 0, i),
            value: kept(env, 0, i),
            next: at + 2,
        };
    }
    Valued {
        ty: types::named(&env.types, 8, i),
        value: kept(env, 4, i),
        next: at + 2,
    }
}

// A cast, not, lnot.
#[tactic(auto, unfolding(crate::specs::Envs::outcome_at))]
fn one_value(c: u8, named: Ty, a: Valued) -> Result<Valued, Fault>
    requires le_p { c ≡ 3 → (1 ≤ named.p) × (named.p ≤ 62) }
    requires le_p_2 { (1 ≤ a.ty.p) × (a.ty.p ≤ 62) }
    ensures { result ≡ outcome_at a.next (cond (eqb c 3) (gives named (wrap named a.value)) (apply_one c a.ty a.value)) }
{
    if c == 3 {
        return Ok(Valued {
            ty: named,
            value: values::wrap(named, a.value),
            next: a.next,
        });
    }
    placed(values::apply_one(c, a.ty, a.value), a.next)
}

// A two-operand operator.
fn two_value(c: u8, a: Valued, b: Valued) -> Result<Valued, Fault>
    requires le_p { (1 ≤ a.ty.p) × (a.ty.p ≤ 30) }
    requires bound { (mag a.value ≤ 2 ^ 31) × (mag b.value ≤ 2 ^ 31) }
    ensures { result ≡ outcome_at b.next (apply c a.ty a.value b.value) }
{
    placed(values::apply(c, a.ty, a.value, b.value), b.next)
}

// Where the second operand to work out begins: the branch for false comes after the one for true.
#[tactic(auto, using(values::proofs::Machine::zero_bits))]
fn second_from(s: &[u8], k: usize, x: i64, at: usize) -> usize
    requires { is_read (expression (drop at s.now)) ≡ true }
    ensures { result ≡ cond (eqb k 3 && eq_z x (pos 0)) (skip_to at (expression (drop at s.now))) at }
{
    if (k == 3) & (x == 0) {
        return expressions::skip(s, at);
    }
    at
}

// Where an if ends, the branch that was worked out ending at an offset.
fn if_end(s: &[u8], x: i64, at: usize) -> usize
    requires { eq_z x (pos 0) ≡ false → is_read (expression (drop at s.now)) ≡ true }
    ensures { result ≡ cond (eq_z x (pos 0)) at (skip_to at (expression (drop at s.now))) }
{
    if x == 0 {
        return at;
    }
    expressions::skip(s, at)
}

// The value of the expression at an offset, of a depth that is at most `depth`.
fn value_at(s: &[u8], at: usize, depth: usize, env: &Env) -> Result<Valued, Fault>
    requires at_in_bounds { at ≤ length s.now }
    requires s_value { fits_at depth (expression (drop at s.now)) ≡ true }
    requires s_value_2 { is_typed (typed_at (scope_in env.now.types) at (expression (drop at s.now))) ≡ true }
    ensures { result ≡ valued_at (named_by env.now) at (expression (drop at s.now)) }
{
    let c = octets::byte_at(s, at);
    let k = expressions::operands(c);
    if k == 0 {
        return Ok(leaf_value(s, at, env));
    }
    let here = at + expressions::head_size(c);
    let a = value_at(s, here, depth - 1, env)?;
    if k == 1 {
        return one_value(c, expressions::type_at(s, at + 1), a);
    }
    let from = second_from(s, k, a.value, a.next);
    let b = value_at(s, from, depth - 1, env)?;
    if k == 2 {
        return two_value(c, a, b);
    }
    Ok(Valued {
        next: if_end(s, a.value, b.next),
        ..b
    })
}

// The value of an expression that keeps the limits and has a type.
#[tactic(auto, using(types::proofs::Leaves::limits_fit))]
pub fn value_of(s: &[u8], env: &Env) -> Result<Valued, Fault>
    requires s_value { limits_read (expression s.now) ≡ true }
    requires s_value_2 { is_typed (typed_at (scope_in env.now.types) 0 (expression s.now)) ≡ true }
    ensures { result ≡ valued_at (named_by env.now) 0 (expression s.now) }
{
    value_at(s, 0, 16, env)
}
