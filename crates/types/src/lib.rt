#![tactic(auto)]

// The type of an expression, worked out from its operands.
ghost use Rattle.std.specs.Prelude.{◌≡◌, true, cond, ◌&&◌, ◌+◌, ◌-◌, ◌*◌, ◌≤◌, [], eqb, ltb, length, get_or, drop};
ghost use Rattle.model.specs.Values.{is_bool, is_number, same_type, no_type};
ghost use Rattle.model.specs.Expressions.{expression, judged, one_type, two_type, operands, head_fits, build, type_of, type_at};
ghost use Rattle.expressions.specs.Reading.{precise_head, fits_at, limits_read};
ghost use Rattle.types.specs.Scopes.{scope_in, given, by_rule, typed_at};

use model::Ty;

// The type of an expression and the offset after it. Where none is found, the offset of what fails stands in its place.
#[derive(Clone, Copy, PartialEq, Eq, Debug)]
pub struct Typed {
    pub ty: Ty,
    pub next: usize,
}

// What a rule gives at its place: the type and the offset after the operands, or the expression's own offset where it does not hold.
#[tactic(auto, unfolding(crate::specs::Scopes::by_rule))]
fn by_rule(rule: Option<Ty>, at: usize, next: usize) -> Result<Typed, usize>
    ensures { result ≡ by_rule at next rule }
{
    match rule {
        Some(ty) => Ok(Typed { ty, next }),
        None => Err(at),
    }
}

// The type that entry i of the inputs (from 0) or of the variables (from 8) has; none from 4 on.
#[tactic(auto, unfolding(model::specs::Values::no_type))]
pub fn named(types: &[u8; 16], from: usize, i: u8) -> Ty
    requires { from ≤ 8 }
    ensures { result ≡ cond (ltb i 4) (type_at types.now (from + 2 * i)) no_type }
{
    if i < 4 {
        return expressions::type_at(types, from + 2 * usize::from(i));
    }
    Ty { kind: 255, p: 0 }
}

// A literal fits its type; a matched value and a variable have the type of the table.
fn leaf_type(s: &[u8], at: usize, types: &[u8; 16]) -> Option<Ty>
    requires inside { at ≤ length s.now }
    requires whole { head_fits (drop at s.now) ≡ true }
    requires precise { precise_head (drop at s.now) ≡ true }
    requires bare { operands (get_or s.now at 0) ≡ 0 }
    ensures { result ≡ given (type_of (scope_in types.now) (build (drop at s.now) [])) }
{
    let c = octets::byte_at(s, at);
    if c == 0 {
        let t = expressions::type_at(s, at + 1);
        let z = octets::value_at(s, at + 3);
        return (values::is_plain(t) && values::within(t, z)).then_some(t);
    }
    let from = if c == 1 { 0 } else { 8 };
    let t = named(types, from, octets::byte_at(s, at + 1));
    values::is_plain(t).then_some(t)
}

// A cast is of numbers, not takes a bool, lnot a number.
#[tactic(auto, using(crate::proofs::Judging::given_judged), unfolding(model::specs::Expressions::one_type))]
fn one_type(c: u8, named: Ty, t: Ty) -> Option<Ty>
    ensures { result ≡ given (cond (eqb c 3) (judged (is_number named && is_number t) named) (one_type c t)) }
{
    match c {
        3 => (values::is_number(named) && values::is_number(t)).then_some(named),
        4 => values::is_bool(t).then_some(t),
        _ => values::is_number(t).then_some(t),
    }
}

// The rule of a two-operand operator: the code chooses the family.
#[tactic(auto, using(crate::proofs::Judging::given_judged), unfolding(model::specs::Expressions::two_type, model::specs::Expressions::count_type, model::specs::Values::bool))]
fn two_type(c: u8, t: Ty, u: Ty) -> Option<Ty>
    ensures { result ≡ given (two_type c t u) }
{
    let count = Ty { kind: 2, p: 5 };
    let truth = Ty { kind: 0, p: 1 };
    match c {
        0..=17 => (values::is_number(t) && values::same_type(t, u)).then_some(t),
        18..=19 => (values::is_number(t) && values::same_type(u, count)).then_some(t),
        20..=21 => values::same_type(t, u).then_some(truth),
        22..=25 => (values::is_number(t) && values::same_type(t, u)).then_some(truth),
        _ => (values::is_bool(t) && values::is_bool(u)).then_some(truth),
    }
}

// A bool, and two branches of one type.
#[tactic(auto, using(crate::proofs::Judging::given_judged))]
fn if_type(b: Ty, t: Ty, u: Ty) -> Option<Ty>
    ensures { result ≡ given (judged (is_bool b && same_type t u) t) }
{
    (values::is_bool(b) && values::same_type(t, u)).then_some(t)
}

// The type of the expression at an offset, of a depth that is at most `depth`.
fn type_at(s: &[u8], at: usize, depth: usize, types: &[u8; 16]) -> Result<Typed, usize>
    requires inside { at ≤ length s.now }
    requires fits { fits_at depth (expression (drop at s.now)) ≡ true }
    ensures { result ≡ typed_at (scope_in types.now) at (expression (drop at s.now)) }
{
    let c = octets::byte_at(s, at);
    let k = expressions::operands(c);
    let here = at + expressions::head_size(c);
    if k == 0 {
        return by_rule(leaf_type(s, at, types), at, here);
    }
    let a = type_at(s, here, depth - 1, types)?;
    if k == 1 {
        let named = expressions::type_at(s, at + 1);
        return by_rule(one_type(c, named, a.ty), at, a.next);
    }
    let b = type_at(s, a.next, depth - 1, types)?;
    if k == 2 {
        return by_rule(two_type(c, a.ty, b.ty), at, b.next);
    }
    let d = type_at(s, b.next, depth - 1, types)?;
    by_rule(if_type(a.ty, b.ty, d.ty), at, d.next)
}

// The type of an expression that keeps the limits.
pub fn type_of(s: &[u8], types: &[u8; 16]) -> Result<Typed, usize>
    requires { limits_read (expression s.now) ≡ true }
    ensures { result ≡ typed_at (scope_in types.now) 0 (expression s.now) }
{
    type_at(s, 0, 16, types)
}
