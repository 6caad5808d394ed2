#![tactic(auto)]

// Prefix expressions on bytes: their form at any depth, and their limits.
ghost use Rattle.std.specs.Prelude.{◌≡◌, true, ◌||◌, eqb, ◌+◌, ◌≤◌, ◌<◌, ◌^◌, length, get_or, drop};
ghost use Rattle.std.specs.Int.Signed.{mag};
ghost use Rattle.model.specs.Bytes.{value_at};
ghost use Rattle.model.specs.Expressions.{head_size, operands as operands_of, known_code, head_fits, type_at, expression};
ghost use Rattle.expressions.specs.Reading.{end_from, is_read, skip_to, precise_head, limits_at, limits_read};

use model::Ty;

// The bytes before the operands.
#[tactic(auto, unfolding(model::specs::Expressions::head_size))]
pub fn head_size(c: u8) -> usize
    ensures { (result ≡ head_size c) × (result ≤ 7) }
{
    match c {
        0 => 7,
        1..=2 => 2,
        3 => 3,
        _ => 1,
    }
}

// How many operands follow.
#[tactic(auto, unfolding(model::specs::Expressions::operands))]
pub fn operands(c: u8) -> usize
    ensures { (result ≡ operands_of c) × (result ≤ 3) }
{
    match c {
        0..=2 => 0,
        3..=5 => 1,
        6..=27 => 2,
        _ => 3,
    }
}

// A code of the list.
#[tactic(auto, unfolding(model::specs::Expressions::known_code))]
pub fn known_code(c: u8) -> bool
    ensures { result ≡ known_code c }
{
    matches!(c, 0..=5 | 10..=27 | 30)
}

// A literal and a cast name a type.
fn names_type(c: u8) -> bool
    ensures { result ≡ (eqb c 0 || eqb c 3) }
{
    matches!(c, 0 | 3)
}

// The head at an offset is whole and known.
#[tactic(auto, using(crate::proofs::Heads::fits_is))]
pub fn head_fits(s: &[u8], at: usize) -> bool
    requires { at ≤ length s.now }
    ensures { result ≡ head_fits (drop at s.now) }
{
    let Some(&c) = s.get(at) else {
        return false;
    };
    known_code(c)
        && head_size(c) <= s.len() - at
        && (!names_type(c) || octets::byte_at(s, at + 1) <= 4)
}

// The kind and the precision at an offset.
#[tactic(auto, unfolding(model::specs::Expressions::type_at))]
pub fn type_at(s: &[u8], at: usize) -> Ty
    requires { at < 2 ^ 63 }
    ensures { result ≡ type_at s.now at }
{
    Ty {
        kind: octets::byte_at(s, at),
        p: octets::byte_at(s, at + 1),
    }
}

// The offset after the expression at an offset, none where it is malformed: `pending` expressions are still to come.
pub fn end_of(s: &[u8], from: usize) -> Option<usize>
    requires { from ≤ length s.now }
    ensures { result ≡ end_from from (expression (drop from s.now)) }
{
    let mut at = from;
    let mut pending: usize = 1;
    while 0 < pending {
        if !head_fits(s, at) {
            return None;
        }
        let c = octets::byte_at(s, at);
        at += head_size(c);
        pending = pending - 1 + operands(c);
    }
    Some(at)
}

// The offset after the expression at an offset, where one is known to stand: by the sizes of its heads alone, nothing is checked again.
pub fn skip(s: &[u8], from: usize) -> usize
    requires { is_read (expression (drop from s.now)) ≡ true }
    ensures { result ≡ skip_to from (expression (drop from s.now)) }
{
    let mut at = from;
    let mut left: usize = 1;
    while 0 < left {
        let c = octets::byte_at(s, at);
        at += head_size(c);
        left = left - 1 + operands(c);
    }
    at
}

// The precision that a head names, if it names one, is 1 to 30.
#[tactic(auto, using(crate::proofs::Heads::precise_is))]
fn precise_head(s: &[u8], at: usize) -> bool
    requires { at < length s.now }
    ensures { result ≡ precise_head (drop at s.now) }
{
    !names_type(octets::byte_at(s, at)) || values::in_precision(type_at(s, at + 1))
}

// The offset after the expression at an offset, none where it is malformed, deeper than `depth` or not precise.
fn limits_at(s: &[u8], at: usize, depth: usize) -> Option<usize>
    requires { at ≤ length s.now }
    ensures { result ≡ limits_at at depth (expression (drop at s.now)) }
{
    if depth == 0 {
        return None;
    }
    if !head_fits(s, at) {
        return None;
    }
    if !precise_head(s, at) {
        return None;
    }
    let c = octets::byte_at(s, at);
    let mut next = at + head_size(c);
    for _ in 0..operands(c) {
        next = limits_at(s, next, depth - 1)?;
    }
    Some(next)
}

// Depth 16 at most, and each precision 1 to 30.
pub fn limits(s: &[u8]) -> bool
    ensures { result ≡ limits_read (expression s.now) }
{
    limits_at(s, 0, 16).is_some()
}
