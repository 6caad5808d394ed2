#![tactic(auto)]

// The calls of the bench for C. Numbers and bytes come in; the answer's word is returned, and its numbers go into an array that the
// caller lends. A number that finds no place in a short array is left out. None of them asks for anything.
ghost use Rattle.std.specs.Prelude.{◌≡◌, cond, [], leb, set};
ghost use Rattle.model.specs.Calls.{refusal, said_check, said_load, said_mark, said_cycle, said_ending, said_run, said_write, check_call, body_call, load_call, mark_call, cycle_call, run_call, write_call};
ghost use Rattle.bench_c.specs.Heard.{spelt, numbers_of, stretch_of, listed, laid, heard, says_only, says_body, says, says_marks};

use model::{Ending, ProcessId, Ran, Refusal, RuleId, Turn};

// An answer in numbers: its word, a refusal's number and place, the cycles done, and a size or a set.
#[derive(Clone, Copy, PartialEq, Eq, Debug)]
pub struct Numbers {
    pub word: u64,
    pub number: u64,
    pub place: u64,
    pub cycles: u64,
    pub value: u64,
}

// A budget for the bench, which takes 32 bits: what is over the limit stays over it.
fn clip(budget: u64) -> u32
    ensures { result ≡ cond (leb budget 65535) budget 65536 }
{
    if 65535 < budget {
        return 65536;
    }
    budget as u32
}

// An answer that is no refusal.
#[tactic(auto, unfolding(crate::specs::Heard::spelt))]
fn spell(word: u64, cycles: u64, value: u64) -> Numbers
    ensures { result ≡ spelt word cycles value }
{
    Numbers {
        word,
        number: 0,
        place: 0,
        cycles,
        value,
    }
}

// A refusal: 0 cycles.
#[tactic(auto, unfolding(crate::specs::Heard::numbers_of, model::specs::Calls::refusal))]
fn refuse(x: Refusal) -> Numbers
    ensures { result ≡ numbers_of (refusal x) }
{
    Numbers {
        word: 0,
        number: u64::from(x.reason.number()),
        place: x.place as u64,
        cycles: 0,
        value: 0,
    }
}

// A check: accepted or refused.
#[tactic(auto, unfolding(model::specs::Calls::said_check, crate::specs::Heard::numbers_of))]
fn of_check(answer: Result<(), Refusal>) -> Numbers
    ensures { result ≡ numbers_of (said_check answer) }
{
    match answer {
        Ok(()) => spell(1, 0, 0),
        Err(refusal) => refuse(refusal),
    }
}

// A load: the state's size.
#[tactic(auto, unfolding(model::specs::Calls::said_load, crate::specs::Heard::numbers_of))]
fn of_load(answer: Result<usize, Refusal>) -> Numbers
    ensures { result ≡ numbers_of (said_load answer) }
{
    match answer {
        Ok(size) => spell(2, 0, size as u64),
        Err(refusal) => refuse(refusal),
    }
}

// A marking: the set; the rule numbers are laid apart.
#[tactic(auto, unfolding(model::specs::Calls::said_mark, crate::specs::Heard::numbers_of))]
fn of_mark(answer: Result<u64, Refusal>) -> Numbers
    ensures { result ≡ numbers_of (said_mark answer) }
{
    match answer {
        Ok(set) => spell(3, 0, set),
        Err(refusal) => refuse(refusal),
    }
}

// A single cycle: 1 or 0 cycles.
#[tactic(auto, unfolding(model::specs::Calls::said_cycle, crate::specs::Heard::numbers_of))]
fn of_cycle(answer: Result<Turn, Refusal>) -> Numbers
    ensures { result ≡ numbers_of (said_cycle answer) }
{
    match answer {
        Ok(Turn::Done) => spell(4, 1, 0),
        Ok(Turn::Idle) => spell(5, 0, 0),
        Err(refusal) => refuse(refusal),
    }
}

// How a run ended; a fault is a refusal with the cycles done before it.
#[tactic(auto, unfolding(model::specs::Calls::said_ending, crate::specs::Heard::numbers_of))]
fn of_ending(ending: Ending, cycles: u64) -> Numbers
    ensures { result ≡ numbers_of (said_ending ending cycles) }
{
    match ending {
        Ending::Idle => spell(5, cycles, 0),
        Ending::Spent => spell(6, cycles, 0),
        Ending::Fault { fault, place } => Numbers {
            word: 0,
            number: u64::from(fault.number()),
            place: u64::from(place),
            cycles,
            value: 0,
        },
    }
}

// A run: how it ended, or a refusal before it.
#[tactic(auto, unfolding(model::specs::Calls::said_run, crate::specs::Heard::numbers_of))]
fn of_run(answer: Result<Ran, Refusal>) -> Numbers
    ensures { result ≡ numbers_of (said_run answer) }
{
    match answer {
        Ok(ran) => of_ending(ran.ending, u64::from(ran.cycles)),
        Err(refusal) => refuse(refusal),
    }
}

// Writing: the bytes written.
#[tactic(auto, unfolding(model::specs::Calls::said_write, crate::specs::Heard::numbers_of))]
fn of_write(answer: Result<usize, Refusal>) -> Numbers
    ensures { result ≡ numbers_of (said_write answer) }
{
    match answer {
        Ok(size) => spell(7, 0, size as u64),
        Err(refusal) => refuse(refusal),
    }
}

// A stretch of the network file.
#[tactic(auto, unfolding(crate::specs::Heard::stretch_of))]
fn stretch(start: usize, len: usize) -> Numbers
    ensures { result ≡ stretch_of (record { start = start; len = len }) }
{
    Numbers {
        word: 8,
        number: 0,
        place: start as u64,
        cycles: 0,
        value: len as u64,
    }
}

// Where the body of rule r of box b stands; there is no box and no rule whose number takes more than a byte.
fn body(net: &[u8], b: u64, r: u64) -> Numbers
    ensures { result ≡ stretch_of (body_call net.now b r) }
{
    if 255 < b || 255 < r {
        return stretch(net.len(), 0);
    }
    let part = network::rule_stretch(net, ProcessId(b as u8), RuleId(r as u8));
    stretch(part.start, part.len)
}

// One number of the lent array, if the array has that place.
fn put(answer: &mut [u64], at: usize, n: u64)
    ensures { answer.new ≡ set answer.old at n }
{
    if at < answer.len() {
        answer[at] = n;
    }
}

// The numbers of an answer, laid into the lent array; gives the word.
fn lay(n: Numbers, answer: &mut [u64]) -> u64
    ensures { (result ≡ n.word) × (answer.new ≡ laid 0 (listed n) answer.old) }
{
    put(answer, 0, n.number);
    put(answer, 1, n.place);
    put(answer, 2, n.cycles);
    put(answer, 3, n.value);
    n.word
}

// The rule numbers of a marking, behind the answer's.
fn lay_rules(rules: &[u8], answer: &mut [u64])
    ensures { answer.new ≡ laid 4 rules.now answer.old }
{
    for (i, rule) in rules.iter().enumerate() {
        put(answer, 4 + i, u64::from(*rule));
    }
}

// Is this a good network file?
#[unsafe(no_mangle)]
pub extern "C" fn charmolys_check(net: &[u8], answer: &mut [u64]) -> u64
    ensures { heard result answer.new [] ≡ says_only (check_call net.now) answer.old }
{
    lay(of_check(network::check(net)), answer)
}

// Where the body of rule r of box b stands; empty at the file's end for an unknown one and for a refused network.
#[unsafe(no_mangle)]
pub extern "C" fn charmolys_rule_body(net: &[u8], b: u64, r: u64, answer: &mut [u64]) -> u64
    ensures { heard result answer.new [] ≡ says_body (body_call net.now b r) answer.old }
{
    lay(body(net, b, r), answer)
}

// A load: the state of a fresh start.
#[unsafe(no_mangle)]
pub extern "C" fn charmolys_load(
    net: &[u8],
    tokens: &[u8],
    state: &mut [u8],
    answer: &mut [u64],
) -> u64
    ensures { heard result answer.new state.new ≡ says (load_call net.now tokens.now state.old) answer.old }
{
    lay(of_load(bench::load(net, tokens, state)), answer)
}

// The marked set, and the rule number of each of 32 boxes.
#[unsafe(no_mangle)]
pub extern "C" fn charmolys_mark(net: &[u8], tokens: &[u8], state: &[u8], answer: &mut [u64]) -> u64
    ensures { heard result answer.new [] ≡ says_marks (mark_call net.now tokens.now state.now) answer.old }
{
    let marked = bench::mark(net, tokens, state);
    let word = lay(of_mark(marked.answer), answer);
    lay_rules(&marked.rules, answer);
    word
}

// A single cycle: the marked processes fire in the given order.
#[unsafe(no_mangle)]
pub extern "C" fn charmolys_cycle(
    net: &[u8],
    tokens: &[u8],
    state: &mut [u8],
    order: &[u8],
    answer: &mut [u64],
) -> u64
    ensures { heard result answer.new state.new ≡ says (cycle_call net.now tokens.now state.old order.now) answer.old }
{
    lay(of_cycle(bench::cycle(net, tokens, state, order)), answer)
}

// A run of at most as many cycles as the budget says.
#[unsafe(no_mangle)]
pub extern "C" fn charmolys_run(
    net: &[u8],
    tokens: &[u8],
    state: &mut [u8],
    budget: u64,
    answer: &mut [u64],
) -> u64
    ensures { heard result answer.new state.new ≡ says (run_call net.now tokens.now state.old budget) answer.old }
{
    lay(of_run(bench::run(net, tokens, state, clip(budget))), answer)
}

// The output file, at the start of the output buffer.
#[unsafe(no_mangle)]
pub extern "C" fn charmolys_write_outputs(
    net: &[u8],
    state: &[u8],
    out: &mut [u8],
    answer: &mut [u64],
) -> u64
    ensures { heard result answer.new out.new ≡ says (write_call net.now state.now out.old) answer.old }
{
    lay(of_write(bench::write_outputs(net, state, out)), answer)
}
