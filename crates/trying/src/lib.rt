#![tactic(auto)]

// A box's rules tried in the file's order against what the box sees.
ghost use Rattle.std.specs.Prelude.{◌≡◌, true, ◌+◌, ◌≤◌, ◌<◌, length};
ghost use Rattle.model.specs.Values.{is_true};
ghost use Rattle.model.specs.Rules.{rule_read, read_rule};
ghost use Rattle.model.specs.Cycles.{chosen as chosen_of, first, up_from};
ghost use Rattle.types.specs.Scopes.{scope_in};
ghost use Rattle.evaluation.specs.Named.{named_by};
ghost use Rattle.typing.specs.Fits.{list_read};
ghost use Rattle.actions.specs.Acts.{all_typed, faults_of};
ghost use Rattle.shapes.specs.Shapes.{types_in};
ghost use Rattle.rules.specs.Bodies.{layout_of, Parted, outs_at, actions_from, limits_of};
ghost use Rattle.trying.specs.Views.{token_of, view_env, judge_of, mark_as};
ghost use Rattle.trying.specs.Scenes.{trial, settled};
ghost use Rattle.trying.specs.Working.{AtGuard, AtActions, Settled, Rules, Smalls, judged_as};

use evaluation::Env;
use lookup::Net;
use model::{Fault, ProcessId, RuleId, Token};
use shapes::Arity;

// What a box's rules are tried against: how many ports and variables it has, the types of its inputs and of its variables, and what it
// sees: of each input the oldest token's tag and value, the values of its variables from 4 on, of each output whether its wire is full.
#[derive(Clone, Copy)]
pub struct Scene<'a> {
    pub arity: Arity,
    pub ins: &'a [u8],
    pub vars: &'a [u8],
    pub heads: &'a [u8],
    pub full: &'a [u8],
    pub vals: &'a [i64; 8],
}

// What pattern j is held against: the oldest token of input j, then the variables' values as plain tokens.
#[tactic(auto, unfolding(crate::specs::Views::token_of))]
fn token_at(scene: &Scene, j: usize) -> Token
    requires ins_bound { scene.now.arity.ins ≤ 4 }
    requires j_bound { j < scene.now.arity.ins + 4 }
    ensures { result ≡ token_of scene.now.arity.ins scene.now.heads.now scene.now.vals.now j }
{
    let ins = scene.arity.ins;
    if j < ins {
        return Token {
            tag: octets::byte_at(scene.heads, j),
            value: scene.vals[j],
        };
    }
    Token {
        tag: 0,
        value: scene.vals[4 + (j - ins)],
    }
}

// A guard's value.
#[tactic(auto, using(values::proofs::Machine::zero_bits), unfolding(model::specs::Values::is_true))]
fn is_true(z: i64) -> bool
    ensures { result ≡ is_true z }
{
    z != 0
}

// The first fault among the actions of n variables.
fn sets_fault(b: &[u8], sets: usize, n: usize, env: &Env) -> Result<(), Fault>
    requires n_bound { n ≤ 4 }
    requires limits { limits_of (actions_from true n sets b.now) ≡ true }
    requires typed { all_typed (scope_in env.now.types) (list_read (actions_from true n sets b.now)) ≡ true }
    ensures { result ≡ faults_of (named_by env.now) (list_read (actions_from true n sets b.now)) }
{
    actions::actions_fault(b, sets, n, env)
}

// A rule whose guard is true: its actions are worked out for faults, those of outputs first.
fn chosen(b: &[u8], outs: usize, sets: usize, a: Arity, env: &Env) -> Result<bool, Fault>
    requires { AtActions a b.now outs sets env.now.types }
    ensures { result ≡ judged_as (chosen_of (named_by env.now) (rule_read (read_rule a.ins a.outs a.vars b.now)) 0) }
{
    actions::actions_fault(b, outs, a.outs, env)?;
    sets_fault(b, sets, a.vars, env)?;
    Ok(true)
}

// Whether a rule whose patterns are ready fires, from its guard on: the outputs that it writes, and only then the guard, and then the actions.
fn judge(b: &[u8], at: usize, a: Arity, full: &[u8], env: &Env) -> Result<bool, Fault>
    requires { AtGuard a b.now at env.now.types }
    ensures { result ≡ judged_as (judge_of (named_by env.now) full.now (rule_read (read_rule a.ins a.outs a.vars b.now)) 0) }
{
    let outs = expressions::skip(b, at);
    let Some(sets) = matching::outs_open(b, outs, a.outs, full) else {
        return Ok(false);
    };
    let guard = actions::value(b, at, env)?;
    if !is_true(guard.value) {
        return Ok(false);
    }
    chosen(b, outs, sets, a, env)
}

// Whether a rule whose patterns are ready fires: the types that its expressions may name, then its judgement from its guard on.
fn settle(b: &[u8], at: usize, scene: &Scene) -> Result<bool, Fault>
    requires { Settled scene.now.arity scene.now.ins.now scene.now.vars.now b.now at scene.now.vals.now }
    ensures { result ≡ judged_as (settled scene.now b.now) }
{
    let env = Env {
        types: typing::scope(b, scene.ins, scene.vars, scene.arity),
        vals: *scene.vals,
    };
    judge(b, at, scene.arity, scene.full, &env)
}

// Where the output actions begin in the body of a rule, which has its parts: behind the patterns and the guard.
pub fn actions_at(b: &[u8], a: Arity) -> usize
    requires ins_bound { (a.ins ≤ 4) × (a.vars ≤ 4) }
    requires parted { Parted a b.now }
    ensures { result ≡ outs_at (layout_of a b.now) }
{
    let mut at = 0;
    for _pattern in 0..a.ins + a.vars {
        at += rules::pattern_size(octets::byte_at(b, at));
    }
    expressions::skip(b, at)
}

// The first of so many of a box's rules, in the file's order, that is fireable, up to one that faults. The guard is worked out only after the rest holds.
pub fn search(net: &Net, k: ProcessId, count: usize, scene: &Scene) -> Result<Option<RuleId>, Fault>
    requires rules { Rules net.now.file.now net.now.table.now net.now.counts k.0 count scene.now.arity scene.now.ins.now scene.now.vars.now }
    requires smalls { Smalls scene.now.vals.now }
    ensures { result ≡ mark_as (first (trial net.now scene.now k.0) (up_from 0 count)) }
{
    let patterns = scene.arity.ins + scene.arity.vars;
    let mut untried = 0..count;
    let found = 'rules: loop {
        let Some(r) = untried.next() else {
            break None;
        };
        let rule = RuleId(r as u8);
        let body = net.rule_body(k, rule);
        let mut at = 0;
        for j in 0..patterns {
            if !matching::pattern_ready(body, at, token_at(scene, j)) {
                continue 'rules;
            }
            at += rules::pattern_size(octets::byte_at(body, at));
        }
        let fires = settle(body, at, scene)?;
        if fires {
            break Some(rule);
        }
    };
    Ok(found)
}
