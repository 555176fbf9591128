// Patterns, built from their operations on a stack in memory.

ghost use Rattle.std.specs.Prelude.{◌≡◌, ◌≤◌, ◌++◌, ◌∷◌, [], All, IfOk, OnOk, replicate};
ghost use Rattle.cs_pattern.specs.Operations.Building.{IsNextStack, IsShallow, below_last, last_of, next_stack, no_patterns, with_optionals};
ghost use Rattle.cs_pattern.specs.Operations.Evaluation.{top};
ghost use Rattle.cs_pattern.specs.Operations.Operations.{ops_of};
ghost use Rattle.cs_pattern.specs.Operations.Trees.{GiveShallow, IsPatternOf, known_at};
ghost use Rattle.cs_pattern_parts.specs.Tree.Pattern.{regex, regexes, Join, Either, Many, parts_of, alone_or, nesting};
ghost use Rattle.cs_pattern_parts.specs.Tree.Repeated as spec;

use crate::operations::operations::Op;
use cs_pattern_parts::{ByteSet, Pattern, Repetition, copy};
use indexmap::IndexMap;
use std::alloc::{AllocError, Global};

/// The patterns of definitions, by their indexes.
pub(crate) type Known = IndexMap<usize, Pattern>;

/// The class of one byte.
fn one_byte(byte: u8) -> Pattern
    ensures { regex result ≡ spec.one_byte byte }
{
    let mut set = ByteSet::new();
    set.insert(byte);
    Pattern::Class(set)
}

/// The bytes one after another.
fn quoted(alloc: Global, bytes: &[u8]) -> Result<Pattern, AllocError>
    ensures { IfOk result (λ p. regex p ≡ spec.quoted bytes.now) }
{
    if bytes.is_empty() {
        return Ok(Pattern::Empty);
    }
    let mut parts = Vec::new(alloc);
    for byte in bytes {
        parts.push(one_byte(*byte))?;
    }
    Ok(Pattern::Join(parts))
}

/// The pattern or the empty text.
fn optional(alloc: Global, inner: Pattern) -> Result<Pattern, AllocError>
    ensures { IfOk result (λ p. regex p ≡ spec.optional (regex inner)) }
{
    let mut parts = Vec::new(alloc);
    parts.push(inner)?;
    parts.push(Pattern::Empty)?;
    Ok(Pattern::Either(parts))
}

fn many(alloc: Global, inner: Pattern) -> Result<Pattern, AllocError>
    ensures { IfOk result (λ p. regex p ≡ Many (regex inner)) }
{
    Ok(Pattern::Many(Box::new(alloc, inner)?))
}

fn copies(alloc: Global, inner: &Pattern, times: u32) -> Result<Vec<Pattern>, AllocError>
    requires nested { nesting (regex inner.now) ≤ 1000 }
    ensures { IfOk result (λ v. regexes v.items ≡ replicate times (regex inner.now)) }
{
    let mut parts = Vec::new(alloc);
    for _i in 0..times {
        parts.push(copy(alloc, inner)?)?;
    }
    Ok(parts)
}

fn push_optional(
    alloc: Global,
    parts: &mut Vec<Pattern>,
    inner: &Pattern,
    times: u32,
) -> Result<(), AllocError>
    requires nested { nesting (regex inner.now) ≤ 1000 }
    ensures { OnOk result
        (regexes parts.new.items ≡ with_optionals parts.old.items times inner.now) }
{
    for _i in 0..times {
        parts.push(optional(alloc, copy(alloc, inner)?)?)?;
    }
    Ok(())
}

fn repeated(alloc: Global, inner: Pattern, repetition: Repetition) -> Result<Pattern, AllocError>
    requires nested { nesting (regex inner) ≤ 1000 }
    ensures { IfOk result (λ p. regex p ≡ spec.repeated (regex inner) repetition) }
{
    match repetition {
        Repetition::Optional => optional(alloc, inner),
        Repetition::Exactly(times) => Ok(Pattern::Join(copies(alloc, &inner, times)?)),
        Repetition::AtLeast(0) => many(alloc, inner),
        Repetition::AtLeast(times) => {
            let mut parts = copies(alloc, &inner, times)?;
            parts.push(many(alloc, inner)?)?;
            Ok(Pattern::Join(parts))
        }
        Repetition::Between(least, most) => {
            let mut parts = copies(alloc, &inner, least)?;
            push_optional(alloc, &mut parts, &inner, most.saturating_sub(least))?;
            Ok(Pattern::Join(parts))
        }
    }
}

/// Takes the last patterns off the stack, or all of them where there are fewer.
fn take_last(stack: &mut Vec<Pattern>, count: usize) -> Result<Vec<Pattern>, AllocError>
    ensures taken { IfOk result (λ v. regexes v.items ≡ last_of count stack.old.items) }
    ensures left { OnOk result (regexes stack.new.items ≡ below_last count stack.old.items) }
{
    let from = stack.len().saturating_sub(count);
    let parts = stack.split_off(from)?;
    Ok(parts)
}

/// Takes the top off a stack.
fn take_top(stack: &mut Vec<Pattern>) -> Pattern
    ensures taken { regex result ≡ top no_patterns (regexes stack.old.items) }
    ensures left { regexes stack.new.items ≡ below_last 1 stack.old.items }
{
    stack.pop().unwrap_or(Pattern::Empty)
}

fn push(stack: &mut Vec<Pattern>, pattern: Pattern) -> Result<(), AllocError>
    ensures { OnOk result
        (regexes stack.new.items ≡ regexes stack.old.items ++ regex pattern ∷ []) }
{
    stack.push(pattern)?;
    Ok(())
}

/// The parts one after another.
fn several_joined(parts: Vec<Pattern>) -> Pattern
    ensures { regex result ≡ Join (parts_of (regexes parts.items)) }
{
    Pattern::Join(parts)
}

/// One of the parts.
fn one_of_several(parts: Vec<Pattern>) -> Pattern
    ensures { regex result ≡ Either (parts_of (regexes parts.items)) }
{
    Pattern::Either(parts)
}

/// The parts one after another, or the part where it is one alone.
fn join(mut parts: Vec<Pattern>) -> Pattern
    ensures { regex result ≡ alone_or Join (parts_of (regexes parts.items)) }
{
    if parts.len() == 1 {
        take_top(&mut parts)
    } else {
        several_joined(parts)
    }
}

/// One of the parts, or the part where it is one alone.
fn either(mut parts: Vec<Pattern>) -> Pattern
    ensures { regex result ≡ alone_or Either (parts_of (regexes parts.items)) }
{
    if parts.len() == 1 {
        take_top(&mut parts)
    } else {
        one_of_several(parts)
    }
}

/// The pattern of a definition.
fn substitute(alloc: Global, known: &Known, index: usize) -> Result<Pattern, AllocError>
    requires nested { nesting (known_at known.now.entries index) ≤ 1000 }
    ensures { IfOk result (λ p. regex p ≡ known_at known.now.entries index) }
{
    match known.get(&index) {
        Some(pattern) => copy(alloc, pattern),
        None => Ok(Pattern::Empty),
    }
}

fn apply(alloc: Global, stack: &mut Vec<Pattern>, op: &Op, known: &Known) -> Result<(), AllocError>
    requires before { All IsShallow (regexes stack.old.items) }
    requires after { All IsShallow (next_stack known.now.entries stack.old.items op.now) }
    ensures { OnOk result
        (IsNextStack known.now.entries op.now stack.old.items stack.new.items) }
{
    match op {
        Op::Class(set) => push(stack, Pattern::Class(set.duplicate())),
        Op::Quoted(bytes) => push(stack, quoted(alloc, bytes)?),
        Op::Substitute(index) => push(stack, substitute(alloc, known, *index)?),
        Op::Repeat(repetition) => {
            let inner = take_top(stack);
            push(stack, repeated(alloc, inner, *repetition)?)
        }
        Op::Group => {
            let inner = take_top(stack);
            push(stack, inner)
        }
        Op::Join(count) => {
            let parts = take_last(stack, *count)?;
            push(stack, join(parts))
        }
        Op::Either(count) => {
            let parts = take_last(stack, *count)?;
            push(stack, either(parts))
        }
    }
}

/// The pattern of a tree's operations, where the definitions have the known ones; an index that has none stands for the empty
/// text. No pattern that it makes on the way is nested deeper than 1,000.
pub(crate) fn build(alloc: Global, ops: &[Op], known: &Known) -> Result<Pattern, AllocError>
    requires { GiveShallow known.now.entries (ops_of ops.now) }
    ensures { IfOk result (λ p. IsPatternOf known.now.entries (ops_of ops.now) (regex p)) }
{
    let mut stack = Vec::new(alloc);
    for op in ops {
        apply(alloc, &mut stack, op, known)?;
    }
    Ok(take_top(&mut stack))
}
