#![tactic(auto)]

// The body of a rule: where its parts lie, and the limits of each.
ghost use Rattle.std.specs.Prelude.{◌≡◌, true, ◌≤◌, drop};
ghost use Rattle.model.specs.Expressions.{expression};
ghost use Rattle.model.specs.Rules.{pattern_size, read_pattern, read_action, holds_expression};
ghost use Rattle.expressions.specs.Reading.{end_from, is_read, skip_to, limits_read};
ghost use Rattle.rules.specs.Bodies.{pattern_codes, action_codes, any_code, patterns_from, actions_from, sent_limits, layout_of, part_end, read_to};

use shapes::Arity;

// Where a rule's variable patterns, its guard, its output actions and its variable actions begin.
#[derive(Clone, Copy, PartialEq, Eq, Debug)]
pub struct Parts {
    pub vars: usize,
    pub guard: usize,
    pub outs: usize,
    pub sets: usize,
}

// A code of a variable's pattern, or of an input's.
#[tactic(auto, unfolding(crate::specs::Bodies::pattern_codes, model::specs::Rules::variable_code, model::specs::Rules::input_code))]
fn pattern_known(c: u8, var: bool) -> bool
    ensures { result ≡ pattern_codes var c }
{
    if var { matches!(c, 0 | 2) } else { c <= 6 }
}

// The bytes of a pattern: a constant takes four more.
#[tactic(auto, unfolding(model::specs::Rules::pattern_size))]
pub fn pattern_size(c: u8) -> usize
    ensures { result ≡ pattern_size c }
{
    if matches!(c, 2 | 6) { 5 } else { 1 }
}

// Where the pattern at an offset ends, if one is there.
pub fn pattern_end(b: &[u8], at: usize, var: bool) -> Option<usize>
    ensures { result ≡ end_from at (read_pattern (pattern_codes var) (drop at b.now)) }
{
    let c = *b.get(at)?;
    if !pattern_known(c, var) {
        return None;
    }
    let n = pattern_size(c);
    if b.len() - at < n {
        return None;
    }
    Some(at + n)
}

// The offset after the pattern at an offset, where one is known to stand: nothing is checked again.
pub fn skip_pattern(b: &[u8], at: usize) -> usize
    requires { is_read (read_pattern any_code (drop at b.now)) ≡ true }
    ensures { result ≡ skip_to at (read_pattern any_code (drop at b.now)) }
{
    at + pattern_size(b[at])
}

// Where n patterns from an offset on end, if they are there.
fn patterns_end(b: &[u8], from: usize, n: usize, var: bool) -> Option<usize>
    ensures { result ≡ end_from from (patterns_from var n from b.now) }
{
    (0..n).try_fold(from, |at, _| pattern_end(b, at, var))
}

// Where the expression at an offset ends, if one is there.
pub fn expression_end(b: &[u8], at: usize) -> Option<usize>
    ensures { result ≡ end_from at (expression (drop at b.now)) }
{
    if b.len() <= at {
        return None;
    }
    expressions::end_of(b, at)
}

// A code of a variable's action, or of an output's.
#[tactic(auto, unfolding(crate::specs::Bodies::action_codes, model::specs::Rules::variable_action, model::specs::Rules::output_action))]
fn action_known(c: u8, var: bool) -> bool
    ensures { result ≡ action_codes var c }
{
    if var { c <= 1 } else { c <= 5 && c != 2 }
}

// Codes 1 and 5 hold an expression.
#[tactic(auto, unfolding(model::specs::Rules::holds_expression))]
pub fn holds_expression(c: u8) -> bool
    ensures { result ≡ holds_expression c }
{
    matches!(c, 1 | 5)
}

// Where the action at an offset ends, if one is there.
pub fn action_end(b: &[u8], at: usize, var: bool) -> Option<usize>
    ensures { result ≡ end_from at (read_action (action_codes var) (drop at b.now)) }
{
    let c = *b.get(at)?;
    if !action_known(c, var) {
        return None;
    }
    if holds_expression(c) {
        return expression_end(b, at + 1);
    }
    Some(at + 1)
}

// The offset after the action at an offset, where one is known to stand: nothing is checked again.
pub fn skip_action(b: &[u8], at: usize) -> usize
    requires { is_read (read_action any_code (drop at b.now)) ≡ true }
    ensures { result ≡ skip_to at (read_action any_code (drop at b.now)) }
{
    let c = b[at];
    if holds_expression(c) {
        return expressions::skip(b, at + 1);
    }
    at + 1
}

// Where n actions from an offset on end, if they are there.
fn actions_end(b: &[u8], from: usize, n: usize, var: bool) -> Option<usize>
    ensures { result ≡ end_from from (actions_from var n from b.now) }
{
    (0..n).try_fold(from, |at, _| action_end(b, at, var))
}

// Where the parts of a whole body begin: the five one after another, each from where the one before it ends. None at a fault of form.
#[tactic(auto, unfolding(crate::specs::Bodies::layout_of))]
pub fn parts_of(b: &[u8], a: Arity) -> Option<Parts>
    ensures { result ≡ layout_of a b.now }
{
    let vars = patterns_end(b, 0, a.ins, false)?;
    let guard = patterns_end(b, vars, a.vars, true)?;
    let outs = expression_end(b, guard)?;
    let sets = actions_end(b, outs, a.outs, false)?;
    let end = actions_end(b, sets, a.vars, true)?;
    if end != b.len() {
        return None;
    }
    Some(Parts {
        vars,
        guard,
        outs,
        sets,
    })
}

// Where part k of a body ends, from its offset: input patterns, variable patterns, the guard, output actions, variable actions.
fn part_end(b: &[u8], at: usize, a: Arity, k: usize) -> Option<usize>
    requires { (a.ins ≤ 4) × (a.outs ≤ 4) × (a.vars ≤ 4) }
    ensures { result ≡ part_end a k at b.now }
{
    let guard = a.ins + a.vars;
    if k < guard {
        return pattern_end(b, at, a.ins <= k);
    }
    if k == guard {
        return expression_end(b, at);
    }
    let last = guard + a.outs;
    action_end(b, at, last < k)
}

// How far a body can be read: the offset of the part that cannot be, or of the first byte after all of them.
pub fn read_to(b: &[u8], a: Arity) -> usize
    requires { (a.ins ≤ 4) × (a.outs ≤ 4) × (a.vars ≤ 4) }
    ensures { result ≡ read_to a b.now }
{
    let n = a.ins + a.vars + 1 + a.outs + a.vars;
    let mut at = 0;
    for k in 0..n {
        let Some(end) = part_end(b, at, a, k) else {
            return at;
        };
        at = end;
    }
    at
}

// The expression at an offset keeps the limits.
pub fn expression_limits(b: &[u8], at: usize) -> bool
    ensures { result ≡ limits_read (expression (drop at b.now)) }
{
    if b.len() <= at {
        return false;
    }
    expressions::limits(&b[at..])
}

// The expression of the action at an offset, if it holds one, keeps the limits.
pub fn action_limits(b: &[u8], at: usize) -> bool
    ensures { result ≡ sent_limits (drop at b.now) }
{
    match b.get(at) {
        Some(c) if holds_expression(*c) => expression_limits(b, at + 1),
        _ => true,
    }
}
