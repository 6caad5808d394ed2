#![tactic(auto)]

// The bytes of one wire, of one output and of one box's variables, as a part of the state that is handed on.
ghost use Rattle.std.specs.Prelude.{◌≡◌, ◌++◌, ◌+◌, ◌*◌, ◌≤◌, ◌<◌, ◌^◌, length, get_or, drop, replicate};
ghost use Rattle.std.specs.Int.Signed.{mag};
ghost use Rattle.model.specs.Bytes.{value_at, value_bytes};
ghost use Rattle.model.specs.States.{token_at, token_bytes};
ghost use Rattle.queues.specs.Segments.{put_mid};
ghost use Rattle.queues.specs.Queues.{WireRoom, WireHeld, GotRoom, push_bytes, pop_bytes, got_bytes, moved};

use model::Token;

// The token whose five bytes stand at an offset.
pub fn token_at(s: &[u8], at: usize) -> Token
    ensures { (result ≡ token_at (drop at s.now)) × (mag result.value < 2 ^ 31) }
{
    if s.len() <= at {
        return Token { tag: 0, value: 0 };
    }
    let tag = octets::byte_at(s, at);
    let value = octets::value_at(s, at + 1);
    Token { tag, value }
}

// How many tokens are on a wire. (An output's count and an input's are two bytes: octets::two_at and octets::put_two.)
pub fn count(s: &[u8]) -> usize
    ensures { (result ≡ get_or s.now 0 0) × (result < 256) }
{
    usize::from(octets::byte_at(s, 0))
}

// The oldest token of a wire.
pub fn oldest(s: &[u8]) -> Token
    ensures { (result ≡ token_at (drop 1 s.now)) × (mag result.value < 2 ^ 31) }
{
    token_at(s, 1)
}

// A token's five bytes, written at the start.
pub fn put_token(s: &mut [u8], t: Token)
    requires { (5 ≤ length s.old) × (mag t.value < 2 ^ 31) }
    ensures { s.new ≡ token_bytes t ++ drop 5 s.old }
{
    s[0] = t.tag;
    octets::put_value(&mut s[1..5], t.value);
}

// One token more at the back of a wire.
pub fn push(s: &mut [u8], t: Token)
    requires { WireRoom s.old × (mag t.value < 2 ^ 31) }
    ensures { s.new ≡ push_bytes s.old t }
{
    let n = usize::from(s[0]);
    let start = 1 + 5 * n;
    let end = start + 5;
    put_token(&mut s[start..end], t);
    s[0] = (n + 1) as u8;
}

// The tokens' bytes moved down over the oldest one, and zeros behind them.
fn move_down(s: &mut [u8])
    requires { 5 ≤ length s.old }
    ensures { s.new ≡ moved s.old }
{
    let kept = s.len() - 5;
    s.copy_within(5.., 0);
    s[kept..].fill(0);
}

// The oldest token away from a wire.
pub fn pop(s: &mut [u8])
    requires { WireHeld s.old }
    ensures { s.new ≡ pop_bytes s.old }
{
    let n = usize::from(s[0]);
    let end = 1 + 5 * n;
    move_down(&mut s[1..end]);
    s[0] = (n - 1) as u8;
}

// One token more in an output.
pub fn got_push(s: &mut [u8], t: Token)
    requires { GotRoom s.old × (mag t.value < 2 ^ 31) }
    ensures { s.new ≡ got_bytes s.old t }
{
    let n = octets::two_at(s, 0);
    let start = 2 + 5 * n;
    let end = start + 5;
    put_token(&mut s[start..end], t);
    octets::put_two(s, n + 1);
}

// Variable j of a box.
pub fn var_at(s: &[u8], j: usize) -> i64
    requires { j < 256 }
    ensures { (result ≡ value_at s.now (4 * j)) × (mag result < 2 ^ 31) }
{
    octets::value_at(s, 4 * j)
}

// Another value for variable j of a box.
pub fn put_var(s: &mut [u8], j: usize, z: i64)
    requires { (4 * j + 4 ≤ length s.old) × (mag z < 2 ^ 31) }
    ensures { s.new ≡ put_mid (4 * j) 4 s.old (value_bytes z) }
{
    let start = 4 * j;
    let end = start + 4;
    octets::put_value(&mut s[start..end], z);
}

// Nothing but zeros: a wire or an output that is empty.
pub fn clear(s: &mut [u8])
    ensures { s.new ≡ replicate (length s.old) 0 }
{
    s.fill(0);
}
