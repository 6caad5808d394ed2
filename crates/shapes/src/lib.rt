#![tactic(auto)]

// The shape of a box: the types of its wires and variables, laid out for the check of its rules.
ghost use Rattle.std.specs.Prelude.{◌≡◌, ℕ, ◌+◌, ◌*◌, ◌≤◌, ◌<◌, ◌^◌, length, get_or};
ghost use Rattle.model.specs.Expressions.{type_at};
ghost use Rattle.model.specs.NetworkFile.{variable_start, body_at, box_of};
ghost use Rattle.model.specs.Network.{shape_of};
ghost use Rattle.shapes.specs.Shapes.{type_in, wires_in, shape_in, BodyFits, BoxFits};

use model::Ty;

// How many inputs, outputs and variables a box has.
#[derive(Clone, Copy)]
pub struct Arity {
    pub ins: usize,
    pub outs: usize,
    pub vars: usize,
}

// The type at an offset: its kind, then its precision.
fn type_at(s: &[u8], at: usize) -> Ty
    requires { at < 2 ^ 17 }
    ensures { result ≡ type_at s.now at }
{
    Ty {
        kind: octets::byte_at(s, at),
        p: octets::byte_at(s, at + 1),
    }
}

// The type of wire w, where the first `wires` entries of the table are the wires' offsets; no type where there is no such wire.
pub fn wire_type(net: &[u8], table: &[u16], wires: usize, w: usize) -> Ty
    requires { wires ≤ length table.now }
    ensures { result ≡ type_in net.now table.now wires w }
{
    if wires <= w {
        return Ty { kind: 255, p: 0 };
    }
    type_at(net, octets::entry(table, w) + 3)
}

// The n types that `of` gives, laid out from the start of `types` on.
fn put_types<F: Fn(usize) -> Ty>(types: &mut [u8], n: usize, of: F)
    requires n_in_bounds { 2 * n ≤ length types.old }
    requires of_callable { (k : ℕ) → k < n → F.pre of k }
    ensures { (k : ℕ) → k < n → F.post of k (type_at types.new (2 * k)) }
{
    for k in 0..n {
        let t = of(k);
        let at = 2 * k;
        types[at] = t.kind;
        types[at + 1] = t.p;
    }
}

// The shape of a box with this body: its types into the lent bytes, its counts as the answer.
fn shape_in(
    net: &[u8],
    table: &[u16],
    wires: usize,
    body: &[u8],
    ins: &mut [u8],
    outs: &mut [u8],
    vars: &mut [u8],
) -> Arity
    requires wires_in_bounds { wires ≤ length table.now }
    requires body_fits { BodyFits body.now }
    requires in_bounds { (8 ≤ length ins.old) × (8 ≤ length outs.old) × (8 ≤ length vars.old) }
    ensures { shape_in ins.new outs.new vars.new result ≡ shape_of (wires_in net.now table.now wires) (box_of body.now) }
{
    let i = usize::from(octets::byte_at(body, 0));
    let n = usize::from(octets::byte_at(body, 1));
    let v = usize::from(octets::byte_at(body, 2));
    let wire_at = |at: usize| wire_type(net, table, wires, usize::from(octets::byte_at(body, at)));
    put_types(ins, i, |k| wire_at(3 + k));
    put_types(outs, n, |k| wire_at(3 + i + k));
    put_types(vars, v, |k| type_at(body, 3 + i + n + 6 * k));
    Arity {
        ins: i,
        outs: n,
        vars: v,
    }
}

// The shape of the box at offset o of a network whose wires' offsets are the first entries of the table.
pub fn shape_of(
    net: &[u8],
    table: &[u16],
    wires: usize,
    o: usize,
    ins: &mut [u8],
    outs: &mut [u8],
    vars: &mut [u8],
) -> Arity
    requires wires_in_bounds { wires ≤ length table.now }
    requires box_fits { BoxFits net.now o }
    requires in_bounds { (8 ≤ length ins.old) × (8 ≤ length outs.old) × (8 ≤ length vars.old) }
    ensures { shape_in ins.new outs.new vars.new result ≡ shape_of (wires_in net.now table.now wires) (box_of (body_at net.now o)) }
{
    let body = octets::part(net, o + 3, octets::two_at(net, o + 1));
    shape_in(net, table, wires, body, ins, outs, vars)
}
