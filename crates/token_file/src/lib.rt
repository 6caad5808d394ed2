#![tactic(auto)]

// The token file of a network: its check, and the tokens of each input in it.
ghost use Rattle.std.specs.Prelude.{◌≡◌, ◌+◌, ◌≤◌, ◌<◌, ◌^◌, length, get_or};
ghost use Rattle.std.specs.Int.Signed.{mag};
ghost use Rattle.model.specs.Network.{no_token};
ghost use Rattle.model.specs.Values.{no_type};
ghost use Rattle.model.specs.NetworkFile.{field_at};
ghost use Rattle.model.specs.States.{input_tokens, input_types};
ghost use Rattle.model.proofs.Accepted.{InFile};
ghost use Rattle.model.proofs.Decoded.{GoodType};
ghost use Rattle.lookup.specs.Views.{network_of};
ghost use Rattle.token_file.specs.Fields.{field_end, Checked, Noted};
ghost use Rattle.token_file.specs.Props.{Noted_prop};

use lookup::Net;
use model::{ProcessId, Token, Ty};
use places::Site;

// Where the field for an input of type t ends that begins at an offset: nowhere for a field that is cut or bad.
fn field_end(t: Ty, tokens: &[u8], at: usize) -> Option<usize>
    requires le_p { 1 ≤ t.p }
    requires p_bound { t.p ≤ 30 }
    ensures { result ≡ field_end (input_tokens t tokens.now at (field_at tokens.now at)) }
{
    let field = octets::field_at(tokens, at)?;
    let body = octets::part(tokens, field.start, field.len);
    if !tokens::token_field(t, field.tag, body) {
        return None;
    }
    Some(field.start + field.len)
}

// The type of the tokens of input i.
fn input_type(net: &Net, i: usize) -> Ty
    requires { i < net.now.counts.inputs }
    ensures { (get_or (input_types (network_of net.now) (network_of net.now).procs) i no_type ≡ result) × GoodType result }
{
    let k = net.counts.boxes + i;
    net.wire_type(net.input_wire(ProcessId(k as u8)))
}

// One field of tag 32 for each input, in order, and nothing more: each field's offset is noted. Refused is a file at the place of a field that is
// missing, bad or one too many.
pub fn token_file(net: &Net, tokens: &[u8], fields: &mut [u16]) -> Result<(), usize>
    requires { 8 ≤ length fields.old }
    ensures { Checked net.now.file.now net.now.table.now tokens.now fields.new net.now.counts result }
{
    if tokens.len() > 16384 {
        return Err(0);
    }
    let mut at: usize = 0;
    for i in 0..net.counts.inputs {
        let t = input_type(net, i);
        let end = field_end(t, tokens, at).ok_or(at)?;
        fields[i] = at as u16;
        at = end;
    }
    if at != tokens.len() {
        return Err(at);
    }
    Ok(())
}

// A site whose inputs' fields are noted.
#[derive(Clone, Copy)]
pub struct Feed<'a> {
    pub site: Site<'a>,
    pub fields: &'a [u16],
    pub ghost noted: { Noted site fields.now } by { Noted_prop site fields.now },
}

impl<'a> Feed<'a> {
    ghost use Rattle.token_file.specs.Views.{listed};

    // How many tokens input i has.
    pub fn input_count(&self, i: usize) -> usize
        requires { InFile self.now.site.tokens.now (get_or self.now.fields.now i 0) }
        ensures { result ≡ length (listed self.now i) }
    {
        let at = octets::entry(self.fields, i);
        octets::two_at(self.site.tokens, at + 1) / 5
    }

    // Token k of input i.
    pub fn input_token(&self, i: usize, k: usize) -> Token
        requires in_file { InFile self.now.site.tokens.now (get_or self.now.fields.now i 0) }
        requires k_in_bounds { k < length (listed self.now i) }
        ensures { (result ≡ get_or (listed self.now i) k no_token) × (mag result.value < 2 ^ 31) }
    {
        let start = octets::entry(self.fields, i) + 3;
        queues::token_at(self.site.tokens, start + 5 * k)
    }
}
