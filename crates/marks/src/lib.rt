#![tactic(auto)]

// The marked set: one 64-bit number, bit k for process k. Bits are set, tested and cleared by shifts and masks.
ghost use Rattle.std.specs.Prelude.{◌≡◌, true, ◌+◌, ◌-◌, ◌<◌, ◌^◌};
ghost use Rattle.model.specs.Cycles.{has, is_order};

use model::ProcessId;

// The set with process k, which is above all those in it.
pub fn with_mark(set: u64, k: ProcessId) -> u64
    requires { (k.0 < 64) × (set < 2 ^ k.0) }
    ensures { result ≡ set + 2 ^ k.0 }
{
    set | (1u64 << k.0)
}

// Is process k in the set?
pub fn is_marked(set: u64, k: ProcessId) -> bool
    requires { k.0 < 64 }
    ensures { result ≡ has set k.0 }
{
    (set >> k.0) & 1 == 1
}

// The set without process k, which is in it.
pub fn without_mark(set: u64, k: ProcessId) -> u64
    requires { (k.0 < 64) × (has set k.0 ≡ true) }
    ensures { result ≡ set - 2 ^ k.0 }
{
    set & !(1u64 << k.0)
}

// Is the order each marked process once? Each process named clears its bit; a byte of 64 or more is no process.
pub fn order_fits(set: u64, order: &[u8]) -> bool
    ensures { result ≡ is_order set order.now }
{
    let mut left = set;
    for &k in order {
        let process = ProcessId(k);
        if k >= 64 || !is_marked(left, process) {
            return false;
        }
        left = without_mark(left, process);
    }
    left == 0
}
