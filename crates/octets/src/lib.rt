#![tactic(auto)]

// Bytes, and the numbers of two and four bytes that they hold, high byte first. Every read is total: past the end stand zeros.
ghost use Rattle.std.specs.Prelude.{◌≡◌, ◌++◌, ◌+◌, ◌≤◌, ◌<◌, ◌^◌, length, get_or, drop};
ghost use Rattle.std.specs.Int.Signed.{mag};
ghost use Rattle.model.specs.Bytes.{mod_z, two_at, four_at, value_at, two_bytes, four_bytes, value_bytes};
ghost use Rattle.model.specs.NetworkFile.{field_at};
ghost use Rattle.octets.specs.Part.{PartOf};

use model::Field;

// A byte as a length or an index.
pub fn wide(x: u8) -> usize
    ensures { (result ≡ x) × (result < 256) }
{
    x as usize
}

// The byte at i.
pub fn byte_at(s: &[u8], i: usize) -> u8
    ensures { result ≡ get_or s.now i 0 }
{
    s.get(i).copied().unwrap_or(0)
}

// The entry i of a table.
pub fn entry(t: &[u16], i: usize) -> usize
    ensures { (result ≡ get_or t.now i 0) × (result < 65536) }
{
    t.get(i).map_or(0, |x| usize::from(*x))
}

// The bytes from an offset on.
fn behind(s: &[u8], at: usize) -> &[u8]
    ensures { result.now ≡ drop at s.now }
{
    s.get(at..).unwrap_or(&[])
}

// The two-byte number at an offset.
pub fn two_at(s: &[u8], at: usize) -> usize
    ensures { (result ≡ two_at s.now at) × (result < 65536) }
{
    let s = behind(s, at);
    usize::from(u16::from_be_bytes([byte_at(s, 0), byte_at(s, 1)]))
}

// The four-byte number at an offset.
pub fn four_at(s: &[u8], at: usize) -> usize
    ensures { (result ≡ four_at s.now at) × (result < 2 ^ 32) }
{
    let s = behind(s, at);
    u32::from_be_bytes([byte_at(s, 0), byte_at(s, 1), byte_at(s, 2), byte_at(s, 3)]) as usize
}

// The four-byte value at an offset, in two's complement.
pub fn value_at(s: &[u8], at: usize) -> i64
    ensures { (result ≡ value_at s.now at) × (mag result < 2 ^ 31) }
{
    let n = four_at(s, at) as u32;
    i64::from(n.cast_signed())
}

// The four-byte pattern of a value.
pub fn pattern(z: i64) -> usize
    requires { mag z < 2 ^ 31 }
    ensures { (result ≡ mod_z z (2 ^ 32)) × (result < 2 ^ 32) }
{
    let z = z as i32;
    z.cast_unsigned() as usize
}

// A two-byte number, written at the start.
pub fn put_two(s: &mut [u8], n: usize)
    requires { (2 ≤ length s.old) × (n < 65536) }
    ensures { s.new ≡ two_bytes n ++ drop 2 s.old }
{
    let n = n as u16;
    s[..2].copy_from_slice(&n.to_be_bytes());
}

// A four-byte number, written at the start.
fn put_four(s: &mut [u8], n: usize)
    requires { (4 ≤ length s.old) × (n < 2 ^ 32) }
    ensures { s.new ≡ four_bytes n ++ drop 4 s.old }
{
    let n = n as u32;
    s[..4].copy_from_slice(&n.to_be_bytes());
}

// A value, written at the start.
pub fn put_value(s: &mut [u8], z: i64)
    requires { (4 ≤ length s.old) × (mag z < 2 ^ 31) }
    ensures { s.new ≡ value_bytes z ++ drop 4 s.old }
{
    put_four(s, pattern(z));
}

// A part of the caller's slice: these bytes, and where they lie.
pub fn part(s: &[u8], start: usize, len: usize) -> &[u8]
    requires { start + len ≤ length s.now }
    ensures { PartOf s.entry start len result }
{
    &s[start..start + len]
}

// The field at an offset, if the file does not end before it does.
pub fn field_at(s: &[u8], at: usize) -> Option<Field>
    ensures { result ≡ field_at s.now at }
{
    let n = s.len();
    if n <= at || n - at < 3 {
        return None;
    }
    let tag = s[at];
    let len = two_at(s, at + 1);
    let start = at + 3;
    if n - start < len {
        return None;
    }
    Some(Field { tag, start, len })
}
