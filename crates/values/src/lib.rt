#![tactic(auto)]

// Types and their values: wrapping, tests on types, the operators.
ghost use Rattle.std.specs.Prelude.{◌≡◌, ◌^◌, ◌-◌, ◌≤◌, ◌<◌, pos};
ghost use Rattle.std.specs.Int.Signed.{mag};
ghost use Rattle.model.specs.Values.{is_bool, is_number, is_dc, carried as carried_of, same_type, in_precision, well_sized, is_plain, within as within_of};
ghost use Rattle.model.specs.Values.{pattern as pattern_of, read_back, wrap as wrap_of, truth as truth_of, gives, arithmetic as arithmetic_of};
ghost use Rattle.model.specs.Values.{bitwise as bitwise_of, compare as compare_of, logic as logic_of, apply as apply_of, apply_one};
ghost use Rattle.model.specs.Rules.{tag_fits};
ghost use Rattle.model.specs.States.{token_fits};

use model::{Fault, Outcome, Token, Ty, Value};

// The type of a truth value.
const BOOL: Ty = Ty { kind: 0, p: 1 };

// 2^p.
pub fn power(p: u8) -> i64
    requires { p ≤ 62 }
    ensures { result ≡ pos (2 ^ p) }
{
    1 << p
}

// The p-bit pattern of x: its lowest p bits.
pub fn pattern(t: Ty, x: i64) -> u64
    requires { t.p ≤ 62 }
    ensures { result ≡ pattern_of t x }
{
    x.cast_unsigned() & ones(t.p)
}

// A p-bit pattern read back in its type: for signed the upper half less 2^p.
pub fn read_back(t: Ty, n: u64) -> i64
    requires le_p { 1 ≤ t.p }
    requires p_bound { t.p ≤ 62 }
    requires n_bound { n < 2 ^ t.p }
    ensures { result ≡ read_back t n }
{
    let x = n as i64;
    if t.kind == 1 && power(t.p - 1) <= x {
        x - power(t.p)
    } else {
        x
    }
}

// A result wraps modulo 2^p.
pub fn wrap(t: Ty, x: i64) -> i64
    requires le_p { 1 ≤ t.p }
    requires p_bound { t.p ≤ 62 }
    ensures { result ≡ wrap_of t x }
{
    read_back(t, pattern(t, x))
}

// The bool type's kind.
#[tactic(auto, unfolding(model::specs::Values::is_bool))]
pub fn is_bool(t: Ty) -> bool
    ensures { result ≡ is_bool t }
{
    t.kind == 0
}

// Signed or unsigned.
#[tactic(auto, unfolding(model::specs::Values::is_number))]
pub fn is_number(t: Ty) -> bool
    ensures { result ≡ is_number t }
{
    matches!(t.kind, 1 | 2)
}

// A wire of marks and data.
#[tactic(auto, unfolding(model::specs::Values::is_dc))]
pub fn is_dc(t: Ty) -> bool
    ensures { result ≡ is_dc t }
{
    matches!(t.kind, 3 | 4)
}

// The type of the values that a wire carries.
#[tactic(auto, unfolding(model::specs::Values::carried, model::specs::Values::is_dc))]
pub fn carried(t: Ty) -> Ty
    ensures { result ≡ carried_of t }
{
    if is_dc(t) {
        Ty {
            kind: t.kind - 2,
            p: t.p,
        }
    } else {
        t
    }
}

// The same kind and the same precision.
#[tactic(auto, unfolding(model::specs::Values::same_type))]
pub fn same_type(t: Ty, u: Ty) -> bool
    ensures { result ≡ same_type t u }
{
    t == u
}

// Precision 1 to 30.
#[tactic(auto, unfolding(model::specs::Values::in_precision))]
pub fn in_precision(t: Ty) -> bool
    ensures { result ≡ in_precision t }
{
    (1..=30).contains(&t.p)
}

// A bool has p = 1.
#[tactic(auto, unfolding(model::specs::Values::well_sized, model::specs::Values::is_bool))]
pub fn well_sized(t: Ty) -> bool
    ensures { result ≡ well_sized t }
{
    t.kind != 0 || t.p == 1
}

// A type as an expression or a variable has one.
#[tactic(auto, unfolding(model::specs::Values::is_plain))]
pub fn is_plain(t: Ty) -> bool
    ensures { result ≡ is_plain t }
{
    t.kind <= 2 && well_sized(t)
}

// Is the value of the type: signed from -2^(p-1) to 2^(p-1) - 1, else from 0 to 2^p - 1.
pub fn within(t: Ty, z: i64) -> bool
    requires le_p { 1 ≤ t.p }
    requires p_bound { t.p ≤ 62 }
    ensures { result ≡ within_of t z }
{
    if t.kind == 1 {
        let half = power(t.p - 1);
        (-half..half).contains(&z)
    } else {
        (0..power(t.p)).contains(&z)
    }
}

// A dc wire takes the tags from 1 on, a plain one tag 0.
#[tactic(auto, unfolding(model::specs::Rules::tag_fits))]
pub fn tag_fits(t: Ty, tag: u8) -> bool
    ensures { result ≡ tag_fits t tag }
{
    if is_dc(t) { 1 <= tag } else { tag == 0 }
}

// A wire's token: a tag of its wire, the value zero for marks and else of the type carried.
pub fn token_fits(t: Ty, k: Token) -> bool
    requires le_p { 1 ≤ t.p }
    requires p_bound { t.p ≤ 62 }
    ensures { result ≡ token_fits t k }
{
    if !tag_fits(t, k.tag) || 3 < k.tag {
        return false;
    }
    match k.tag {
        1 | 2 => k.value == 0,
        _ => within(carried(t), k.value),
    }
}

// The greatest pattern of p bits.
pub fn ones(p: u8) -> u64
    requires { p ≤ 62 }
    ensures { result ≡ 2 ^ p - 1 }
{
    (1 << p) - 1
}

// 1 for true.
#[tactic(auto, unfolding(model::specs::Values::truth))]
pub fn truth(b: bool) -> i64
    ensures { result ≡ truth_of b }
{
    i64::from(b)
}

// A result of arithmetic: the number, wrapped to its type.
fn wrapped(t: Ty, x: i64) -> Outcome
    requires le_p { 1 ≤ t.p }
    requires p_bound { t.p ≤ 62 }
    ensures { result ≡ gives t (wrap_of t x) }
{
    Ok(Value {
        ty: t,
        value: wrap(t, x),
    })
}

// + - * / mod; nothing is divided by zero.
pub fn arithmetic(o: u8, t: Ty, a: i64, b: i64) -> Outcome
    requires le_p { 1 ≤ t.p }
    requires p_bound { t.p ≤ 30 }
    requires a_bound { mag a ≤ 2 ^ 31 }
    requires b_bound { mag b ≤ 2 ^ 31 }
    ensures { result ≡ arithmetic_of o t a b }
{
    match o {
        10 => wrapped(t, a + b),
        11 => wrapped(t, a - b),
        12 => wrapped(t, a * b),
        _ if b == 0 => Err(Fault::ZeroDivisor),
        13 => wrapped(t, a / b),
        _ => wrapped(t, a % b),
    }
}

// land, lor, lnand, <<, >> on the p-bit pattern.
pub fn bitwise(o: u8, t: Ty, a: i64, b: i64) -> i64
    requires le_p { 1 ≤ t.p }
    requires p_bound { t.p ≤ 30 }
    requires a_bound { mag a ≤ 2 ^ 31 }
    requires b_bound { mag b ≤ 2 ^ 31 }
    ensures { result ≡ bitwise_of o t a b }
{
    let x = pattern(t, a);
    let y = pattern(t, b);
    let n = pattern(Ty { kind: 2, p: 5 }, b);
    match o {
        15 => read_back(t, x & y),
        16 => read_back(t, x | y),
        17 => read_back(t, ones(t.p) - (x & y)),
        18 => wrap(t, a * (1i64 << n)),
        _ => read_back(t, x >> n),
    }
}

// = != < <= > >= of numbers.
pub fn compare(o: u8, a: i64, b: i64) -> bool
    ensures { result ≡ compare_of o a b }
{
    match o {
        20 => a == b,
        21 => a != b,
        22 => a < b,
        23 => a <= b,
        24 => b < a,
        _ => b <= a,
    }
}

// && and ||, both sides worked out.
pub fn logic(o: u8, a: i64, b: i64) -> bool
    ensures { result ≡ logic_of o a b }
{
    match o {
        26 => a != 0 && b != 0,
        _ => a != 0 || b != 0,
    }
}

// The two-operand operators: the code chooses the family.
pub fn apply(o: u8, t: Ty, a: i64, b: i64) -> Outcome
    requires le_p { 1 ≤ t.p }
    requires p_bound { t.p ≤ 30 }
    requires a_bound { mag a ≤ 2 ^ 31 }
    requires b_bound { mag b ≤ 2 ^ 31 }
    ensures { result ≡ apply_of o t a b }
{
    match o {
        0..=14 => arithmetic(o, t, a, b),
        15..=19 => Ok(Value {
            ty: t,
            value: bitwise(o, t, a, b),
        }),
        20..=25 => Ok(Value {
            ty: BOOL,
            value: truth(compare(o, a, b)),
        }),
        _ => Ok(Value {
            ty: BOOL,
            value: truth(logic(o, a, b)),
        }),
    }
}

// not and lnot.
pub fn apply_one(o: u8, t: Ty, a: i64) -> Outcome
    requires le_p { 1 ≤ t.p }
    requires p_bound { t.p ≤ 62 }
    ensures { result ≡ apply_one o t a }
{
    match o {
        4 => Ok(Value {
            ty: BOOL,
            value: truth(a == 0),
        }),
        _ => Ok(Value {
            ty: t,
            value: read_back(t, ones(t.p) - pattern(t, a)),
        }),
    }
}
