// What may come behind a set of places in a rule: a walk to the front of its steps, and one to their end.

ghost use Rattle.std.specs.Prelude.{◌≡◌, ℕ, ◌+◌, ◌<◌, ◌≤◌, false, true, ◌++◌, ◌∷◌, [], OnOk, IfOk};
ghost use Rattle.cs_scanner.specs.Automaton.Bits.{bit, Puts};
ghost use Rattle.cs_scanner.specs.Automaton.Runs.{backward_of, ends_in, forward_of, live_on, put_on, FindsEnds, IsWalked};
ghost use Rattle.cs_scanner.specs.Automaton.Walks as spec;

use crate::automaton::bits::{has, put};
use crate::automaton::op::{Frame, Op};
use crate::automaton::program::Rule;
use std::alloc::{AllocError, Global};

/// A walk to the front, which finds whether the part of each many may end at a place of the set.
#[derive(Drop)]
struct Backward {
    ahead: bool,
    ends: bool,
    frames: Vec<Frame>,
    finals: Vec<bool>,
}

/// A walk to the end, which puts what may come next.
#[derive(Drop)]
struct Forward {
    live: bool,
    frames: Vec<Frame>,
    finals: Vec<bool>,
}

/// Takes the last frame off.
fn pop(frames: &mut Vec<Frame>) -> Frame
    ensures value { result ≡ spec.top frames.old.items }
    ensures rest { frames.new.items ≡ spec.below frames.old.items }
{
    frames.pop().unwrap_or(Frame {
        entered: false,
        left: false,
    })
}

/// Takes the last end off.
fn pop_final(finals: &mut Vec<bool>) -> bool
    ensures value { result ≡ spec.last_of finals.old.items }
    ensures rest { finals.new.items ≡ spec.before_last finals.old.items }
{
    finals.pop().unwrap_or(false)
}

fn push(frames: &mut Vec<Frame>, entered: bool, left: bool) -> Result<(), AllocError>
    ensures { OnOk result
        (frames.new.items ≡ frames.old.items ++ spec.frame entered left ∷ []) }
{
    frames.push(Frame { entered, left })?;
    Ok(())
}

fn push_final(finals: &mut Vec<bool>, ends: bool) -> Result<(), AllocError>
    ensures { OnOk result (finals.new.items ≡ finals.old.items ++ ends ∷ []) }
{
    finals.push(ends)?;
    Ok(())
}

/// One step to the front.
fn back(walk: &mut Backward, op: Op, set: &[u64]) -> Result<(), AllocError>
    ensures { OnOk result
        (backward_of walk.new ≡ spec.back (bit set.now) op (backward_of walk.old)) }
{
    match op {
        Op::Place(n) => {
            let marked = has(set, n as usize);
            walk.ends = walk.ends || (walk.ahead && marked);
            walk.ahead = false;
        }
        Op::Close => {
            push(&mut walk.frames, walk.ahead, false)?;
            walk.ahead = false;
        }
        Op::Or => {
            let frame = pop(&mut walk.frames);
            push(&mut walk.frames, frame.entered, frame.left || walk.ahead)?;
            walk.ahead = frame.entered;
        }
        Op::Open => {
            let frame = pop(&mut walk.frames);
            walk.ahead = frame.left || walk.ahead;
        }
        Op::Again => {
            push(&mut walk.frames, walk.ahead, walk.ends)?;
            walk.ahead = true;
            walk.ends = false;
        }
        Op::Loop => {
            let frame = pop(&mut walk.frames);
            push_final(&mut walk.finals, walk.ends)?;
            walk.ahead = frame.entered;
            walk.ends = frame.left || (frame.entered && walk.ends);
        }
    }
    Ok(())
}

/// For each many, from the last to the first, whether its part may end at a place of the set.
fn finals(alloc: Global, rule: &Rule, set: &[u64]) -> Result<Vec<bool>, AllocError>
    ensures { IfOk result (λ v. v.items ≡ ends_in rule.now set.now) }
{
    let mut walk = Backward {
        ahead: true,
        ends: false,
        frames: Vec::new(alloc),
        finals: Vec::new(alloc),
    };
    let steps = rule.ops.len();
    for i in 0..steps {
        back(&mut walk, rule.ops[steps - 1 - i], set)?;
    }
    let Backward { finals, .. } = walk;
    Ok(finals)
}

/// One step to the end.
fn go(walk: &mut Forward, op: Op, set: &[u64], next: &mut [u64]) -> Result<(), AllocError>
    ensures state { OnOk result
        (forward_of walk.new ≡ spec.go (bit set.now) op (forward_of walk.old)) }
    ensures next { OnOk result (Puts next.old next.new (spec.put (bit set.now) op walk.old.live)) }
{
    match op {
        Op::Place(n) => {
            if walk.live {
                put(next, n as usize);
            }
            walk.live = has(set, n as usize);
        }
        Op::Open => push(&mut walk.frames, walk.live, false)?,
        Op::Or => {
            let frame = pop(&mut walk.frames);
            push(&mut walk.frames, frame.entered, frame.left || walk.live)?;
            walk.live = frame.entered;
        }
        Op::Close => {
            let frame = pop(&mut walk.frames);
            walk.live = frame.left;
        }
        Op::Loop => {
            let left = pop_final(&mut walk.finals);
            push(&mut walk.frames, walk.live, left)?;
            walk.live = walk.live || left;
        }
        Op::Again => {
            let frame = pop(&mut walk.frames);
            walk.live = frame.entered || frame.left;
        }
    }
    Ok(())
}

/// Whether no class of the rule is in the set.
fn is_idle(rule: &Rule, set: &[u64]) -> bool
    ensures { result ≡ true → (n : ℕ) → rule.now.from ≤ n → n < rule.now.to
        → bit set.now n ≡ false }
{
    for n in rule.from..rule.to {
        if has(set, n) {
            return false;
        }
    }
    true
}

/// Walks to the end, from these ends of manies.
fn walk_on(
    alloc: Global,
    ops: &[Op],
    entered: bool,
    finals: Vec<bool>,
    set: &[u64],
    next: &mut [u64],
) -> Result<bool, AllocError>
    ensures ends { IfOk result (λ ends. ends ≡ live_on set.now ops.now entered finals.items) }
    ensures next { OnOk result
        (Puts next.old next.new (put_on set.now ops.now entered finals.items)) }
{
    let mut walk = Forward {
        live: entered,
        frames: Vec::new(alloc),
        finals,
    };
    for i in 0..ops.len() {
        let op = ops[i];
        go(&mut walk, op, set, next)?;
    }
    Ok(walk.live)
}

/// The ends of the manies of a rule; no walk finds them where there are none.
fn ends_of(alloc: Global, rule: &Rule, set: &[u64]) -> Result<Vec<bool>, AllocError>
    ensures { IfOk result (λ v. FindsEnds rule.now set.now v.items) }
{
    if !rule.has_loop {
        return Ok(Vec::new(alloc));
    }
    finals(alloc, rule, set)
}

/// Puts the places that may come next in the rule, and answers whether a word of it may end.
pub(crate) fn walk(
    alloc: Global,
    rule: &Rule,
    entered: bool,
    set: &[u64],
    next: &mut [u64],
) -> Result<bool, AllocError>
    ensures { IfOk result (λ ends. IsWalked rule.now entered set.now next.old next.new ends) }
{
    if !entered {
        if is_idle(rule, set) {
            return Ok(false);
        }
    }
    let ends = ends_of(alloc, rule, set)?;
    walk_on(alloc, &rule.ops, entered, ends, set, next)
}
