#![tactic(auto)]

// What a token file's field, a wire's part, an output's part and a box's variables must hold, and what a load and the output file write there.
ghost use Rattle.std.specs.Prelude.{◌≡◌, ◌∷◌, ◌++◌, ◌+◌, ◌*◌, ◌≤◌, length, get_or, drop};
ghost use Rattle.model.specs.Bytes.{two_at, two_bytes};
ghost use Rattle.model.specs.Expressions.{type_at};
ghost use Rattle.model.specs.Network.{box, fresh};
ghost use Rattle.model.specs.NetworkFile.{box_of, variable_start};
ghost use Rattle.model.specs.States.{read_tokens, tokens_fit, token_field, all_zero, room_fits, wire_fits, values_fit, own_bytes};
ghost use Rattle.tokens.specs.Parts.{Precise, field_bytes};

use model::Ty;

// k tokens, each of the type of its wire.
pub fn tokens_fit(t: Ty, s: &[u8], k: usize) -> bool
    requires le_p { 1 ≤ t.p }
    requires p_bound { t.p ≤ 30 }
    requires k_in_bounds { 5 * k ≤ length s.now }
    ensures { result ≡ tokens_fit t (read_tokens k s.now) }
{
    (0..k).all(|i| values::token_fits(t, queues::token_at(s, 5 * i)))
}

// A field of the token file for an input: its tag, its length and its tokens.
pub fn token_field(t: Ty, tag: u8, body: &[u8]) -> bool
    requires le_p { 1 ≤ t.p }
    requires p_bound { t.p ≤ 30 }
    ensures { result ≡ token_field t tag body.now }
{
    let n = body.len();
    tag == 32 && n % 5 == 0 && tokens_fit(t, body, n / 5)
}

// Nothing but zeros from an offset on.
pub fn all_zero(s: &[u8], from: usize) -> bool
    ensures { result ≡ all_zero (drop from s.now) }
{
    let start = from.min(s.len());
    s[start..].iter().all(|x| *x == 0)
}

// A room that holds k tokens of a type, oldest first, and zeros behind them.
fn room_fits(t: Ty, room: usize, k: usize, s: &[u8]) -> bool
    requires le_p { 1 ≤ t.p }
    requires p_bound { t.p ≤ 30 }
    requires room_in_bounds { 5 * room ≤ length s.now }
    ensures { result ≡ room_fits t room k s.now }
{
    k <= room && tokens_fit(t, s, k) && all_zero(s, 5 * k)
}

// A wire's part: its count, and a room of its capacity.
pub fn wire_fits(t: Ty, capacity: usize, part: &[u8]) -> bool
    requires le_p { 1 ≤ t.p }
    requires p_bound { t.p ≤ 30 }
    requires part_len { length part.now ≡ 1 + 5 * capacity }
    ensures { result ≡ wire_fits (record { ty = t; capacity = capacity }) part.now }
{
    room_fits(t, capacity, queues::count(part), &part[1..])
}

// An output's part: its count of two bytes, and its room.
pub fn output_fits(t: Ty, room: usize, part: &[u8]) -> bool
    requires le_p { 1 ≤ t.p }
    requires p_bound { t.p ≤ 30 }
    requires part_len { length part.now ≡ 2 + 5 * room }
    ensures { result ≡ room_fits t room (two_at part.now 0) (drop 2 part.now) }
{
    room_fits(t, room, octets::two_at(part, 0), &part[2..])
}

// Where variable j of a box's body begins.
fn variable_start(body: &[u8], j: usize) -> usize
    requires { j ≤ 255 }
    ensures { (result ≡ variable_start body.now j) × (result ≤ 2043) }
{
    let ins = usize::from(octets::byte_at(body, 0));
    let outs = usize::from(octets::byte_at(body, 1));
    3 + ins + outs + 6 * j
}

// The type at an offset: its kind, then its precision.
fn type_at(s: &[u8], at: usize) -> Ty
    requires { at ≤ 2043 }
    ensures { result ≡ type_at s.now at }
{
    let kind = octets::byte_at(s, at);
    let p = octets::byte_at(s, at + 1);
    Ty { kind, p }
}

// The variables of the box whose field's body this is: each value in the state's part is of its type.
pub fn values_fit(body: &[u8], part: &[u8]) -> bool
    requires { Precise body.now }
    ensures { result ≡ values_fit (box_of body.now).vars part.now }
{
    let n = usize::from(octets::byte_at(body, 2));
    (0..n).all(|j| values::within(
        type_at(body, variable_start(body, j)),
        queues::var_at(part, j),
    ))
}

// A load: the initial values of the box's variables, whatever stood there.
pub fn load_values(body: &[u8], part: &mut [u8])
    requires { length part.old ≡ 4 * get_or body.now 2 0 }
    ensures { part.new ≡ own_bytes (box (box_of body.now)) (fresh (box (box_of body.now))) }
{
    let n = usize::from(octets::byte_at(body, 2));
    for j in 0..n {
        let at = variable_start(body, j) + 2;
        let z = octets::value_at(body, at);
        queues::put_var(part, j, z);
    }
}

// Tag 33 and a length, written at the start.
fn put_head(out: &mut [u8], n: usize)
    requires { (3 ≤ length out.old) × (n ≤ 65535) }
    ensures { out.new ≡ (33 ∷ two_bytes n) ++ drop 3 out.old }
{
    out[0] = 33;
    octets::put_two(&mut out[1..3], n);
}

// One field of the output file, from an output's part: tag 33, the length, the tokens. Answers the bytes written.
pub fn field_out(part: &[u8], out: &mut [u8]) -> usize
    requires part_bound { two_at part.now 0 ≤ 1000 }
    requires part_in_bounds { 2 + 5 * two_at part.now 0 ≤ length part.now }
    requires part_in_bounds_2 { 3 + 5 * two_at part.now 0 ≤ length out.old }
    ensures { (result ≡ 3 + 5 * two_at part.now 0) × (out.new ≡ field_bytes part.now ++ drop (3 + 5 * two_at part.now 0) out.old) }
{
    let n = 5 * octets::two_at(part, 0);
    put_head(out, n);
    let from = 2 + n;
    let end = 3 + n;
    out[3..end].copy_from_slice(&part[2..from]);
    end
}
