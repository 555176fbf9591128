//! What workers do to an item, and the gate that they pass before it.
ghost use Rattle.std.specs.Prelude.{IfOk};

use std::alloc::{AllocError, Global};

/// Work on items of type `T`, each of which has an answer of type `U`.
///
/// An implementation says by `takes` which items it can work on, and by `answers` what the answer
/// of an item is. [`crate::fan`] asks it only of items that it takes.
pub trait Work<T, U> {
    // The items that it can work on.
    ghost takes: { Self → T → Type 0 };

    // An item and its answer.
    ghost answers: { Self → T → U → Type 0 };

    /// The answer of an item that the work takes. Want of memory alone is an error.
    fn one(&self, alloc: Global, item: &T) -> Result<U, AllocError>
        requires { takes self.now item.now }
        ensures { IfOk result (λ answer. answers self.now item.now answer) };
}

/// What a worker does when it has drawn an item's number, before it works on the item.
pub trait Gate {
    /// Called with the item's place in the list, from 0. It may wait.
    fn enter(&self, index: u32);
}

/// A gate that lets each worker pass at once.
pub struct OpenGate;

impl Gate for OpenGate {
    fn enter(&self, _index: u32) {}
}

/// What work is shared out with: the threads that workers run in, and the gate that they pass.
#[derive(Clone, Copy)]
pub struct Crew<'c, R, G> {
    pub rt: &'c R,
    pub gate: &'c G,
}
