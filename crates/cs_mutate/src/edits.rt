// The edits of a list, one after another.

ghost use Rattle.std.specs.Prelude.{◌≡◌, ◌≤◌, [], ◌∷◌, length, IfSome, IfNone};
ghost use Rattle.cs_mutate.specs.Edit.{IsPlaced};
ghost use Rattle.cs_mutate.specs.Edits.{is_fresh, is_listed, edits};

use crate::candidates::Candidates;
use crate::edit::Edit;
use cs_choices::Operators;
use std::marker::Model;

/// The edits of a list of tokens that are still to be given: by operator in the order of `Edit`, then place, then token.
#[derive(Debug, Drop)]
pub struct Edits<'b> {
    base: &'b [u16],
    candidates: Candidates,
}

impl<'b> Model for Edits<'b> {
    ghost use Rattle.std.specs.Prelude.{List, length};
    ghost use Rattle.std.specs.List.{filter, All};
    ghost use Rattle.cs_mutate.specs.declared.edit.Edit.{Edit};
    ghost use Rattle.cs_mutate.specs.Edit.{IsPlaced};
    ghost use Rattle.cs_mutate.specs.Edits.{is_listed};

    ghost Value = { List Edit };

    ghost view = { λ e. filter (is_listed e.base.now) e.candidates };

    ghost invariant = { λ e. All (IsPlaced (length e.base.now)) e.candidates };
}

impl<'b> Edits<'b> {
    /// The edits of a list for the chosen operators, with tokens from 1 to so many.
    pub fn new(tokens: u16, base: &'b [u16], operators: Operators) -> Edits<'b>
        requires { length base.now ≤ 1000000 }
        ensures { result ≡ edits tokens base.now operators }
    {
        Edits {
            base,
            candidates: Candidates::new(base.len() as u32, tokens, operators),
        }
    }

    // The same edits, which may be taken away without taking these away.
    pub(crate) fn copied(&self) -> Edits<'b>
        ensures { result ≡ self.now }
    {
        Edits {
            base: self.base,
            candidates: self.candidates.copied(),
        }
    }

    /// Takes the first edit away. None where there is none, and then there is none from then on.
    pub fn next(&mut self) -> Option<Edit>
        ensures some { IfSome result (λ edit. self.old ≡ edit ∷ self.new) }
        ensures none { IfNone result ((self.old ≡ []) × (self.new ≡ [])) }
    {
        while let Some(edit) = self.candidates.next() {
            if is_edit(self.base, &edit) {
                return Some(edit);
            }
        }
        None
    }
}

// Whether an edit is listed.
fn is_edit(base: &[u16], edit: &Edit) -> bool
    requires { IsPlaced (length base.now) edit.now }
    ensures { result ≡ is_listed base.now edit.now }
{
    match *edit {
        Edit::Delete(place) => fresh(base, place as usize, base[place as usize]),
        Edit::Insert(place, token) => fresh(base, place as usize, token),
        Edit::Replace(place, token) => base[place as usize] != token,
        Edit::Swap(place) => base[place as usize] != base[place as usize + 1],
    }
}

// Whether a place is the first, or another token than this stands in front of it.
fn fresh(base: &[u16], place: usize, token: u16) -> bool
    requires { place ≤ length base.now }
    ensures { result ≡ is_fresh base.now place token }
{
    place == 0 || base[place - 1] != token
}
