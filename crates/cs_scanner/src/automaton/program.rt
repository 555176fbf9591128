// The steps of each pattern, and the classes of all.

ghost use Rattle.std.specs.Prelude.{◌≡◌, ◌+◌, ◌≤◌, IfOk, map, length};
ghost use Rattle.cs_pattern_parts.specs.Tree.Pattern.{regex};
ghost use Rattle.cs_scanner.specs.Automaton.Flat.{has_loop};
ghost use Rattle.cs_scanner.specs.Automaton.Meaning.{res_of, all_classes};
ghost use Rattle.cs_scanner.specs.Automaton.Places.{all_letters};
ghost use Rattle.cs_scanner.specs.Automaton.Programs.{AddsClasses, AreRules, GrowsBy, IsRule, classes_of, letters_of, values};

use crate::automaton::flat::push_ops;
use crate::automaton::op::Op;
use cs_pattern_parts::{ByteSet, Pattern};
use std::alloc::{AllocError, Global};

/// The steps of a pattern, and the numbers of its classes.
#[derive(Drop)]
pub(crate) struct Rule {
    pub(crate) ops: Vec<Op>,
    pub(crate) from: usize,
    pub(crate) to: usize,
    pub(crate) has_loop: bool,
}

fn any_loop(ops: &[Op]) -> bool
    ensures { result ≡ has_loop ops.now }
{
    for i in 0..ops.len() {
        if ops[i] == Op::Loop {
            return true;
        }
    }
    false
}

/// The steps of the pattern, whose classes come behind the others.
fn rule_of<'p>(
    alloc: Global,
    pattern: &'p Pattern,
    classes: &mut Vec<&'p ByteSet>,
) -> Result<Rule, AllocError>
    requires { length classes.old.items + letters_of pattern.now ≤ 16384 }
    ensures rule { IfOk result (λ rule.
        IsRule rule (length classes.old.items) (regex pattern.now)) }
    ensures classes { IfOk result (λ _.
        AddsClasses classes.old classes.new (classes_of pattern.now)) }
    ensures count { IfOk result (λ _. GrowsBy classes.old classes.new (letters_of pattern.now)) }
{
    let from = classes.len();
    let mut ops = Vec::new(alloc);
    push_ops(alloc, pattern, &mut ops, classes)?;
    let has_loop = any_loop(&ops);
    Ok(Rule {
        ops,
        from,
        to: classes.len(),
        has_loop,
    })
}

/// Patterns with the steps of each and the classes of all, in order.
#[derive(Drop)]
pub(crate) struct Program<'p> {
    pub(crate) patterns: &'p [Pattern],
    pub(crate) rules: Vec<Rule>,
    pub(crate) classes: Vec<&'p ByteSet>,
}

/// The program of the patterns.
pub(crate) fn make_program<'p>(
    alloc: Global,
    patterns: &'p [Pattern],
) -> Result<Program<'p>, AllocError>
    requires { all_letters (res_of patterns.now) ≤ 16384 }
    ensures patterns { IfOk result (λ p. p.patterns.now ≡ patterns.now) }
    ensures rules { IfOk result (λ p. AreRules p.rules.items 0 (map regex patterns.now)) }
    ensures classes { IfOk result (λ p.
        values p.classes.items ≡ all_classes (res_of patterns.now)) }
{
    let mut rules = Vec::new(alloc);
    let mut classes = Vec::new(alloc);
    for i in 0..patterns.len() {
        let rule = rule_of(alloc, &patterns[i], &mut classes)?;
        rules.push(rule)?;
    }
    Ok(Program {
        patterns,
        rules,
        classes,
    })
}
