#![tactic(auto)]

// The whole check of a network file: its length, then the fields, then the ports. And where the bodies of an accepted file's rules lie.
ghost use Rattle.std.specs.Prelude.{◌≡◌, ◌+◌, ◌≤◌, length, IfOk};
ghost use Rattle.model.specs.NetworkFile.{network};
ghost use Rattle.model.specs.Calls.{said_check, check_call, body_call};
ghost use Rattle.octets.specs.Part.{PartOf};
ghost use Rattle.table.specs.Table.{Within};
ghost use Rattle.index.specs.Verdicts.{verdict_in};
ghost use Rattle.network.specs.Answers.{Checked, Lies, Found};

use lookup::Net;
use model::{ProcessId, Reason, Refusal, RuleId};
use table::Counts;

// The most bytes that a network file may have.
const MOST: usize = 16384;

// What the check finds: the counts of an accepted file, whose table then holds where each field stands; or the refusal.
pub fn checked(file: &[u8], table: &mut [u16]) -> Result<Counts, Refusal>
    requires { 656 ≤ length table.old }
    ensures result_after { verdict_in table.new result ≡ network file.now }
    ensures fit { IfOk result (λ c. Within c) }
{
    if MOST < file.len() {
        return Err(Refusal {
            reason: Reason::Limits,
            place: 0,
        });
    }
    let counts = index::index(file, table)?;
    let w = ports::odd_wire(file, table, counts);
    if w < counts.wires {
        return Err(Refusal {
            reason: Reason::Ports,
            place: w,
        });
    }
    Ok(counts)
}

// The network of an accepted file, over a table that stays lent for it; or the refusal.
pub fn accepted<'a, 't>(file: &'a [u8], table: &'t mut [u16]) -> Result<Net<'a, 't>, Refusal>
    requires { 656 ≤ length table.old }
    ensures found { Checked file.now result }
    ensures that_file { IfOk result (λ n. n.file ≡ file.entry) }
{
    let counts = checked(file, table)?;
    Ok(Net {
        file,
        table,
        counts,
    })
}

// The check of a network file, as a call of the bench: accepted, or the refusal.
pub fn check(file: &[u8]) -> Result<(), Refusal>
    ensures { said_check result ≡ check_call file.now }
{
    let mut table = [0u16; 656];
    match checked(file, &mut table) {
        Ok(_) => Ok(()),
        Err(refusal) => Err(refusal),
    }
}

// A stretch of a file: where it begins, and how many bytes it has.
#[derive(Clone, Copy)]
pub struct Stretch {
    pub start: usize,
    pub len: usize,
}

// Where the body of rule r of box b lies in a network's file; none where there is no such rule.
fn stretch_in(net: &Net, b: ProcessId, r: RuleId) -> Option<Stretch>
    ensures { Found net.now.file.now b.0 r.0 result }
{
    if net.counts.boxes <= usize::from(b.0) {
        return None;
    }
    if net.rules_of(b) <= usize::from(r.0) {
        return None;
    }
    let at = net.rule_at(b, r);
    Some(Stretch {
        start: at + 3,
        len: octets::two_at(net.file, at + 1),
    })
}

// Where the body of rule r of box b lies; empty at the file's end for an unknown box or rule and for a refused network.
pub fn rule_stretch(file: &[u8], b: ProcessId, r: RuleId) -> Stretch
    ensures { Lies file.now b.0 r.0 result }
{
    let mut table = [0u16; 656];
    let found = accepted(file, &mut table)
        .ok()
        .and_then(|net| stretch_in(&net, b, r));
    found.unwrap_or(Stretch {
        start: file.len(),
        len: 0,
    })
}

// That body, that very part of the file.
pub fn rule_body<'a>(file: &'a [u8], b: ProcessId, r: RuleId) -> &'a [u8]
    ensures { PartOf file.entry (body_call file.now b.0 r.0).start (body_call file.now b.0 r.0).len result }
{
    let body = rule_stretch(file, b, r);
    octets::part(file, body.start, body.len)
}
