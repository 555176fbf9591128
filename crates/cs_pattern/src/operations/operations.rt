// A pattern's items as operations, each behind what it works on.

ghost use Rattle.std.specs.Prelude.{◌≡◌, ◌+◌, ◌-◌, ◌++◌, ◌∷◌, [], IfOk, OnOk};
ghost use Rattle.cs_pattern.specs.Operations.Definitions.{definitions_of};
ghost use Rattle.cs_pattern.specs.Operations.Operations as operations;
ghost use Rattle.cs_pattern.specs.Operations.Operations.{op_of, ops_of, number_of};
ghost use Rattle.cs_pattern.specs.Operations.Postfix as spec;
ghost use Rattle.cs_pattern.specs.Operations.Postfix.{state_of};
ghost use Rattle.cs_pattern.specs.Operations.Trees.{AreOperationsOf};

use crate::operations::names::{Texts, index_of};
use cs_pattern_parts::{ByteSet, Item, Placed, Repetition};
use std::alloc::{AllocError, Global};

/// An operation on a stack of patterns: the first three put one on it, the others replace what is on top.
#[derive(Debug, Drop)]
pub(crate) enum Op {
    Class(ByteSet),
    Quoted(Vec<u8>),
    /// The pattern of a definition, by its index.
    Substitute(usize),
    Repeat(Repetition),
    /// A group or a substitution ends here.
    Group,
    /// So many pieces make a branch.
    Join(usize),
    /// So many branches make a pattern.
    Either(usize),
}

/// How many pieces and branches an open group has: the pieces of its last branch, and the branches before that.
#[derive(Clone, Copy, Debug)]
struct Level {
    branches: usize,
    pieces: usize,
}

impl Level {
    fn new() -> Level
        ensures { result ≡ spec.new_level }
    {
        Level {
            branches: 0,
            pieces: 0,
        }
    }

    fn with_piece(self) -> Level
        ensures { result ≡ spec.with_piece self }
    {
        Level {
            branches: self.branches,
            pieces: self.pieces.saturating_add(1),
        }
    }

    fn with_branch(self) -> Level
        ensures { result ≡ spec.with_branch self }
    {
        Level {
            branches: self.branches.saturating_add(1),
            pieces: 0,
        }
    }
}

/// The operations of the items so far, the open groups from the outermost on, and the group that is read.
#[derive(Drop)]
struct Reader {
    ops: Vec<Op>,
    outer: Vec<Level>,
    level: Level,
}

impl Reader {
    fn repeat(&mut self, repetition: Repetition) -> Result<(), AllocError>
        ensures { OnOk result
            (state_of self.new ≡ spec.with_repetition (state_of self.old) repetition) }
    {
        self.ops.push(Op::Repeat(repetition))?;
        Ok(())
    }

    fn bar(&mut self) -> Result<(), AllocError>
        ensures { OnOk result (state_of self.new ≡ spec.barred (state_of self.old)) }
    {
        self.ops.push(Op::Join(self.level.pieces))?;
        self.level = self.level.with_branch();
        Ok(())
    }

    fn open(&mut self) -> Result<(), AllocError>
        ensures { OnOk result (state_of self.new ≡ spec.opened (state_of self.old)) }
    {
        self.outer.push(self.level)?;
        self.level = Level::new();
        Ok(())
    }

    fn close(&mut self) -> Result<(), AllocError>
        ensures { OnOk result (state_of self.new ≡ spec.closed (state_of self.old)) }
    {
        push_end(&mut self.ops, self.level)?;
        self.ops.push(Op::Group)?;
        self.level = self.outer.pop().unwrap_or(Level::new()).with_piece();
        Ok(())
    }

    fn atom(&mut self, op: Op) -> Result<(), AllocError>
        ensures { OnOk result
            (state_of self.new ≡ spec.with_atom (state_of self.old) (op_of op ∷ [])) }
    {
        self.ops.push(op)?;
        self.level = self.level.with_piece();
        Ok(())
    }

    fn name(&mut self, index: usize) -> Result<(), AllocError>
        ensures { OnOk result (state_of self.new ≡ spec.with_name (state_of self.old) index) }
    {
        self.ops.push(Op::Substitute(index))?;
        self.ops.push(Op::Group)?;
        self.level = self.level.with_piece();
        Ok(())
    }

    fn take(&mut self, alloc: Global, item: &Item, names: &Texts) -> Result<(), AllocError>
        ensures { OnOk result
            (state_of self.new ≡ spec.next_state names.now.entries self.old item.now) }
    {
        match item {
            Item::Class(set) => self.atom(Op::Class(set.duplicate())),
            Item::Quoted(bytes) => self.atom(Op::Quoted(Vec::from_slice(alloc, bytes)?)),
            Item::Name(name) => self.name(number_of(names, name)),
            Item::Open => self.open(),
            Item::Close => self.close(),
            Item::Bar => self.bar(),
            Item::Repeat(repetition) => self.repeat(*repetition),
        }
    }
}

/// The index of the definition of a name, or how many definitions there are.
fn number_of(names: &Texts, name: &[u8]) -> usize
    ensures { result ≡ operations.number_of (definitions_of names.now.entries) name.now }
{
    index_of(names, name).unwrap_or(names.len())
}

/// Ends the branch and the pattern of a level.
fn push_end(ops: &mut Vec<Op>, level: Level) -> Result<(), AllocError>
    ensures { OnOk result (ops_of ops.new.items ≡ ops_of ops.old.items ++ spec.ended level) }
{
    ops.push(Op::Join(level.pieces))?;
    ops.push(Op::Either(level.with_branch().branches))?;
    Ok(())
}

/// The operations of the items of a pattern, each name by the index of its definition; one that has none by the number of
/// definitions.
pub(crate) fn postfix(alloc: Global, items: &[Placed], names: &Texts) -> Result<Vec<Op>, AllocError>
    ensures { IfOk result (λ v. AreOperationsOf names.now.entries items.now v.items) }
{
    let mut reader = Reader {
        ops: Vec::new(alloc),
        outer: Vec::new(alloc),
        level: Level::new(),
    };
    for placed in items {
        reader.take(alloc, &placed.item, names)?;
    }
    let Reader { mut ops, level, .. } = reader;
    push_end(&mut ops, level)?;
    Ok(ops)
}
