// Laws of kinds.

ghost use Rattle.std.specs.Prelude.{ℕ, List};
ghost use Rattle.cs_lex.specs.Actions.Laws as spec;

/// An action has one kind: no two rows of the table apply first.
pub fn one_kind()
    ensures { (action : List ℕ) → spec.HasOneKind action }
{}
