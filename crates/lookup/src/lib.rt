#![tactic(auto)]

// What stands at a wire's, a process's or a rule's number of an accepted network: read off the table of offsets, in the network file itself.
// A number is unwrapped here alone, where it meets the table.
ghost use Rattle.lookup.specs.Props.{Tabled_prop};
ghost use Rattle.lookup.specs.Tabled.{Tabled};

use model::{ProcessId, RuleId, Ty, WireId};
use table::Counts;

// An accepted network: its file, and the table of the offsets of its fields with their counts. A part of the file may outlive the table.
#[derive(Clone, Copy)]
pub struct Net<'a, 't> {
    pub file: &'a [u8],
    pub table: &'t [u16],
    pub counts: Counts,
    pub ghost tabled: { Tabled file.now table.now counts } by { Tabled_prop file.now table.now counts },
}

impl<'a, 't> Net<'a, 't> {
    ghost use Rattle.std.specs.Prelude.{◌≡◌, cond, ◌+◌, ◌≤◌, ◌<◌, ltb, length, get_or};
    ghost use Rattle.model.specs.Bytes.{two_at};
    ghost use Rattle.model.specs.Network.{output, wire, proc};
    ghost use Rattle.model.specs.NetworkFile.{body_at, rule_at};
    ghost use Rattle.model.proofs.Accepted.{InFile};
    ghost use Rattle.model.proofs.Decoded.{GoodType};
    ghost use Rattle.octets.specs.Part.{PartOf};
    ghost use Rattle.lookup.specs.Ends.{wire_at, room_at};
    ghost use Rattle.lookup.specs.Views.{index_of, network_of, box_in};

    // The type of a wire.
    pub fn wire_type(&self, w: WireId) -> Ty
        requires { w.0 < self.now.counts.wires }
        ensures { (result ≡ (wire (network_of self.now) w.0).ty) × GoodType result }
    {
        let at = octets::entry(self.table, usize::from(w.0));
        Ty {
            kind: octets::byte_at(self.file, at + 3),
            p: octets::byte_at(self.file, at + 4),
        }
    }

    // How many tokens a wire holds.
    pub fn capacity(&self, w: WireId) -> usize
        requires { w.0 < self.now.counts.wires }
        ensures { (result ≡ (wire (network_of self.now) w.0).capacity) × (result < 256) }
    {
        let at = octets::entry(self.table, usize::from(w.0));
        usize::from(octets::byte_at(self.file, at + 5))
    }

    // The body of the field at an offset, as that very part of the file.
    fn body_at(&self, at: usize) -> &'a [u8]
        requires { (at < 65536) × InFile self.now.file.now at }
        ensures { PartOf self.now.file (at + 3) (two_at self.now.file.now (at + 1)) result }
    {
        let len = octets::two_at(self.file, at + 1);
        octets::part(self.file, at + 3, len)
    }

    // The offset of a box's field.
    pub fn box_at(&self, b: ProcessId) -> usize
        requires { b.0 < self.now.counts.boxes }
        ensures { (result ≡ get_or (index_of self.now).boxes b.0 0) × (result < 65536) }
    {
        octets::entry(self.table, 64 + usize::from(b.0))
    }

    // The body of a box's field: its counts, the wires of its ports, its variables.
    pub fn box_body(&self, b: ProcessId) -> &'a [u8]
        requires { b.0 < self.now.counts.boxes }
        ensures { result.now ≡ body_at self.now.file.now (get_or (index_of self.now).boxes b.0 0) }
    {
        self.body_at(self.box_at(b))
    }

    // How many rules stand before the end of box k's: the first of the next box, or all.
    fn rules_end(&self, k: usize) -> usize
        requires { k < 256 }
        ensures { result ≡ cond (ltb (k + 1) self.now.counts.boxes) (get_or self.now.table.now (97 + k) 0) self.now.counts.rules }
    {
        if k + 1 < self.counts.boxes {
            return octets::entry(self.table, 97 + k);
        }
        self.counts.rules
    }

    // How many rules a box has.
    pub fn rules_of(&self, b: ProcessId) -> usize
        requires { b.0 < self.now.counts.boxes }
        ensures { result ≡ length (box_in self.now b.0).rules }
    {
        let k = usize::from(b.0);
        let first = octets::entry(self.table, 96 + k);
        self.rules_end(k).saturating_sub(first)
    }

    // Where the field of rule r of box b begins.
    pub fn rule_at(&self, b: ProcessId, r: RuleId) -> usize
        requires b_lt_boxes { b.0 < self.now.counts.boxes }
        requires r_in_bounds { r.0 < length (box_in self.now b.0).rules }
        ensures { (result ≡ rule_at (index_of self.now) b.0 r.0) × (result < 65536) }
    {
        let first = octets::entry(self.table, 96 + usize::from(b.0));
        octets::entry(self.table, 128 + (first + usize::from(r.0)))
    }

    // The body of rule r of box b, as that very part of the file.
    pub fn rule_body(&self, b: ProcessId, r: RuleId) -> &'a [u8]
        requires b_lt_boxes { b.0 < self.now.counts.boxes }
        requires r_in_bounds { r.0 < length (box_in self.now b.0).rules }
        ensures { PartOf self.now.file (rule_at (index_of self.now) b.0 r.0 + 3) (two_at self.now.file.now (rule_at (index_of self.now) b.0 r.0 + 1)) result }
    {
        self.body_at(self.rule_at(b, r))
    }

    // The wire of an input.
    pub fn input_wire(&self, k: ProcessId) -> WireId
        requires boxes_le_k { self.now.counts.boxes ≤ k.0 }
        requires k_bound { k.0 < self.now.counts.boxes + self.now.counts.inputs }
        ensures { (result.0 ≡ wire_at (proc (network_of self.now) k.0)) × (result.0 < self.now.counts.wires) }
    {
        let i = usize::from(k.0) - self.counts.boxes;
        let at = octets::entry(self.table, 640 + i);
        WireId(octets::byte_at(self.file, at + 3))
    }

    // The offset of an output's field.
    fn output_at(&self, k: ProcessId) -> usize
        requires inputs_bound { self.now.counts.boxes + self.now.counts.inputs ≤ k.0 }
        requires k_bound { k.0 < self.now.counts.boxes + self.now.counts.inputs + self.now.counts.outputs }
        ensures { (proc (network_of self.now) k.0 ≡ output (get_or self.now.file.now (result + 3) 0) (two_at self.now.file.now (result + 4))) × (result < 65536) }
    {
        let first = self.counts.boxes + self.counts.inputs;
        let i = usize::from(k.0) - first;
        octets::entry(self.table, 648 + i)
    }

    // The wire of an output.
    pub fn output_wire(&self, k: ProcessId) -> WireId
        requires inputs_bound { self.now.counts.boxes + self.now.counts.inputs ≤ k.0 }
        requires k_bound { k.0 < self.now.counts.boxes + self.now.counts.inputs + self.now.counts.outputs }
        ensures { (result.0 ≡ wire_at (proc (network_of self.now) k.0)) × (result.0 < self.now.counts.wires) }
    {
        let at = self.output_at(k);
        WireId(octets::byte_at(self.file, at + 3))
    }

    // How many tokens an output has room for.
    pub fn room(&self, k: ProcessId) -> usize
        requires inputs_bound { self.now.counts.boxes + self.now.counts.inputs ≤ k.0 }
        requires k_bound { k.0 < self.now.counts.boxes + self.now.counts.inputs + self.now.counts.outputs }
        ensures { (result ≡ room_at (proc (network_of self.now) k.0)) × (result < 65536) }
    {
        let at = self.output_at(k);
        octets::two_at(self.file, at + 4)
    }
}
