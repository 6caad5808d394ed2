#![tactic(auto)]

// A rule's patterns and output actions against what its box sees.
ghost use Rattle.std.specs.Prelude.{◌≡◌, true, false, ◌+◌, ◌<◌, length, get_or};
ghost use Rattle.model.specs.Bytes.{value_at};
ghost use Rattle.model.specs.Rules.{pattern_of};
ghost use Rattle.model.specs.Cycles.{matches};
ghost use Rattle.expressions.specs.Reading.{is_read};
ghost use Rattle.rules.specs.Bodies.{actions_from};
ghost use Rattle.matching.specs.Outs.{outs_of};

use model::Token;

// The pattern at an offset against a token. A variable's value is a plain token; tag 4 stands for no token.
pub fn pattern_ready(b: &[u8], at: usize, token: Token) -> bool
    requires { at < length b.now }
    ensures { result ≡ matches (pattern_of (get_or b.now at 0) (value_at b.now (at + 1))) token }
{
    let c = octets::byte_at(b, at);
    if c == 0 {
        return true;
    }
    if typing::pattern_tag(c) != token.tag {
        return false;
    }
    if (c == 2) | (6 <= c) {
        return octets::value_at(b, at + 1) == token.value;
    }
    true
}

// Where the n output actions from an offset on end, if every output that they write is open: by the outputs' flags, 1 where the wire is full.
pub fn outs_open(b: &[u8], from: usize, n: usize, full: &[u8]) -> Option<usize>
    requires { is_read (actions_from false n from b.now) ≡ true }
    ensures { result ≡ outs_of full.now 0 from (actions_from false n from b.now) }
{
    let mut at = from;
    for k in 0..n {
        let c = octets::byte_at(b, at);
        let f = octets::byte_at(full, k);
        if (c != 0) & (f == 1) {
            return None;
        }
        at = rules::skip_action(b, at);
    }
    Some(at)
}
