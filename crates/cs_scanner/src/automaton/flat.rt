// A pattern as a list of steps.

ghost use Rattle.std.specs.Prelude.{◌≡◌, ◌+◌, ◌≤◌, ◌++◌, ◌∷◌, [], IfOk, OnOk, length, map};
ghost use Rattle.cs_pattern_parts.specs.Tree.Pattern.{regex, parts_of};
ghost use Rattle.cs_scanner.specs.Automaton.Pieces.{AppendsAll, Lays, Opens, either, join, letters_in, piece_letters, piece_of, pieces, whole};
ghost use Rattle.cs_scanner.specs.Automaton.Programs.{AddsClasses, GrowsBy, classes_of, letters_of, ops_of, place_behind};

use crate::automaton::op::Op;
use cs_pattern_parts::{ByteSet, Pattern};
use std::alloc::{AllocError, Global};

/// A piece of a pattern that is still to be laid out.
#[derive(Clone, Copy)]
enum Piece<'p> {
    Step(Op),
    /// The step of a class.
    Place(&'p ByteSet),
    Whole(&'p Pattern),
    /// The parts of a join.
    Join(&'p [Pattern]),
    /// The parts of an either, and its end.
    Either(&'p [Pattern]),
}

fn push_class<'p>(
    class: &'p ByteSet,
    ops: &mut Vec<Op>,
    classes: &mut Vec<&'p ByteSet>,
) -> Result<(), AllocError>
    requires { length classes.old.items + 1 ≤ 16384 }
    ensures ops { IfOk result (λ _.
        ops.new.items ≡ ops.old.items ++ place_behind classes.old ∷ []) }
    ensures classes { IfOk result (λ _. AddsClasses classes.old classes.new (class.now ∷ [])) }
    ensures count { IfOk result (λ _. GrowsBy classes.old classes.new 1) }
{
    ops.push(Op::Place(classes.len() as u16))?;
    classes.push(class)?;
    Ok(())
}

fn push_op(op: Op, ops: &mut Vec<Op>) -> Result<(), AllocError>
    ensures { IfOk result (λ _. ops.new.items ≡ ops.old.items ++ op ∷ []) }
{
    ops.push(op)?;
    Ok(())
}

fn put<'p>(piece: Piece<'p>, left: &mut Vec<Piece<'p>>) -> Result<(), AllocError>
    ensures { OnOk result (pieces left.new ≡ piece_of piece.entry ∷ pieces left.old) }
{
    left.push(piece)?;
    Ok(())
}

/// Puts what the pattern falls into on the stack, the first on top.
fn open_pattern<'p>(pattern: &'p Pattern, left: &mut Vec<Piece<'p>>) -> Result<(), AllocError>
    ensures { OnOk result (Opens (whole (regex pattern.now)) left.old left.new) }
{
    match pattern {
        Pattern::Empty => Ok(()),
        Pattern::Class(class) => put(Piece::Place(class), left),
        Pattern::Join(parts) => put(Piece::Join(parts), left),
        Pattern::Either(parts) => {
            put(Piece::Either(parts), left)?;
            put(Piece::Step(Op::Open), left)
        }
        Pattern::Many(part) => {
            put(Piece::Step(Op::Again), left)?;
            put(Piece::Whole(part), left)?;
            put(Piece::Step(Op::Loop), left)
        }
    }
}

fn open_join<'p>(parts: &'p [Pattern], left: &mut Vec<Piece<'p>>) -> Result<(), AllocError>
    ensures { OnOk result (Opens (join (parts_of (map regex parts.now))) left.old left.new) }
{
    let [first, others @ ..] = parts else {
        return Ok(());
    };
    put(Piece::Join(others), left)?;
    put(Piece::Whole(first), left)
}

fn open_either<'p>(parts: &'p [Pattern], left: &mut Vec<Piece<'p>>) -> Result<(), AllocError>
    ensures { OnOk result (Opens (either (parts_of (map regex parts.now))) left.old left.new) }
{
    let [first, others @ ..] = parts else {
        return put(Piece::Step(Op::Close), left);
    };
    put(Piece::Either(others), left)?;
    put(Piece::Step(Op::Or), left)?;
    put(Piece::Whole(first), left)
}

/// Lays out a step or a class, and puts what another piece falls into on the stack.
fn take_on<'p>(
    piece: Piece<'p>,
    left: &mut Vec<Piece<'p>>,
    ops: &mut Vec<Op>,
    classes: &mut Vec<&'p ByteSet>,
) -> Result<(), AllocError>
    requires { length classes.old.items + piece_letters (piece_of piece) ≤ 16384 }
    ensures { OnOk result
        (Lays piece.entry left.old left.new ops.old ops.new classes.old classes.new) }
{
    match piece {
        Piece::Step(op) => push_op(op, ops),
        Piece::Place(class) => push_class(class, ops, classes),
        Piece::Whole(pattern) => open_pattern(pattern, left),
        Piece::Join(parts) => open_join(parts, left),
        Piece::Either(parts) => open_either(parts, left),
    }
}

/// Lays out what is left, the top of the stack first.
fn lay_out<'p>(
    left: &mut Vec<Piece<'p>>,
    ops: &mut Vec<Op>,
    classes: &mut Vec<&'p ByteSet>,
) -> Result<(), AllocError>
    requires { length classes.old.items + letters_in (pieces left.old) ≤ 16384 }
    ensures { OnOk result (AppendsAll (pieces left.old) ops.old ops.new classes.old classes.new) }
{
    while let Some(piece) = left.pop() {
        take_on(piece, left, ops, classes)?;
    }
    Ok(())
}

/// Appends the steps of the pattern and its classes, whose numbers go on from those that are there.
pub(crate) fn push_ops<'p>(
    alloc: Global,
    pattern: &'p Pattern,
    ops: &mut Vec<Op>,
    classes: &mut Vec<&'p ByteSet>,
) -> Result<(), AllocError>
    requires { length classes.old.items + letters_of pattern.now ≤ 16384 }
    ensures ops { IfOk result (λ _.
        ops.new.items ≡ ops.old.items ++ ops_of classes.old pattern.now) }
    ensures classes { IfOk result (λ _.
        AddsClasses classes.old classes.new (classes_of pattern.now)) }
    ensures count { IfOk result (λ _. GrowsBy classes.old classes.new (letters_of pattern.now)) }
{
    let mut left = Vec::new(alloc);
    put(Piece::Whole(pattern), &mut left)?;
    lay_out(&mut left, ops, classes)
}
