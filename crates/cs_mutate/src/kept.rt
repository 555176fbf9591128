// Which negatives are kept, decided one after another.

ghost use Rattle.std.specs.Prelude.{◌≡◌, ◌+◌, ◌*◌, ◌≤◌, [], IfOk, IfSome};
ghost use Rattle.cs_goals.specs.Goal.{IsLeft};
ghost use Rattle.cs_mutate.specs.Keeping.{FindsNextKept, Tells, left_number, slot_of};
ghost use Rattle.cs_mutate.specs.Keeping.{HasFewer, IsNegativeOf, KeepsNext, TellsFound, TellsIf};
ghost use Rattle.cs_mutate.specs.Negatives.{FitsBase};

use crate::edit::Edit;
use crate::negative::{Negative, Negatives};
use cs_grammar::Mark;
use std::alloc::{AllocError, Global};
use std::marker::Model;

/// Which negatives are kept, of lists that come one after another: of those with one poisoned pair the first so many of each
/// operator and left mark, or all negatives.
///
/// It counts those that were kept, for each operator and left mark.
#[derive(Debug, Drop)]
pub struct Keeper {
    first: Option<u16>,
    tokens: u16,
    counts: Vec<u16>,
}

impl Model for Keeper {
    ghost use Rattle.std.specs.Prelude.{◌≡◌, length};
    ghost use Rattle.cs_mutate.specs.Keeping.{Counters, many_counts};

    ghost Value = { Counters };

    ghost view = { λ k. record { first = k.first; tokens = k.tokens; counts = k.counts.items } };

    ghost invariant = { λ k. length k.counts.items ≡ many_counts k.first k.tokens };
}

impl Keeper {
    /// One that has kept no negative so far, of lists of tokens from 1 to so many.
    pub fn new(alloc: Global, first: Option<u16>, tokens: u16) -> Result<Keeper, AllocError>
        ensures first { IfOk result (λ keeper. keeper.first ≡ first) }
        ensures tokens { IfOk result (λ keeper. keeper.tokens ≡ tokens) }
        ensures told { IfOk result (λ keeper. Tells keeper []) }
    {
        let many = match first {
            Some(_) => 4 * (tokens as usize + 1),
            None => 0,
        };
        let counts = vec![in alloc; 0u16; many]?;
        Ok(Keeper {
            first,
            tokens,
            counts,
        })
    }

    /// Takes the edits of a search away up to the first negative that is kept. None where each edit that is left is harmless or
    /// has a negative that isn't kept; then none is left. Want of memory alone is an error.
    #[inline(always)]
    pub fn next(&mut self, search: &mut Negatives<'_>) -> Result<Option<Negative>, AllocError>
        requires tokens { search.old.grammar.tokens ≡ self.old.tokens }
        ensures first { self.new.first ≡ self.old.first }
        ensures tokens { self.new.tokens ≡ self.old.tokens }
        ensures found { IfOk result (λ found. FindsNextKept self.old search.old found search.new) }
        ensures told { IfOk result (λ found. TellsFound self.old found self.new) }
        ensures negative { IfOk result (λ found. IfSome found (IsNegativeOf search.old)) }
        ensures fits { IfOk result (λ found. IfSome found (λ n. FitsBase search.old n.edit)) }
        ensures fewer { IfOk result (λ found.
            IfSome found (λ _. HasFewer search.old search.new)) }
        ensures grammar { search.new.grammar ≡ search.old.grammar }
        ensures base { search.new.base ≡ search.old.base }
    {
        while let Some(negative) = search.next()? {
            if self.keeps(search, &negative)? {
                return Ok(Some(negative));
            }
        }
        Ok(None)
    }

    // Whether a negative of a search's list is kept; then it is counted.
    #[inline(always)]
    fn keeps(&mut self, search: &Negatives<'_>, negative: &Negative) -> Result<bool, AllocError>
        requires negative { IsNegativeOf search.now negative.now }
        requires fits { FitsBase search.now negative.now.edit }
        requires left { IsLeft self.old.tokens negative.now.left }
        ensures first { self.new.first ≡ self.old.first }
        ensures tokens { self.new.tokens ≡ self.old.tokens }
        ensures kept { IfOk result (KeepsNext self.old search.now negative.now) }
        ensures told { IfOk result (λ kept. TellsIf kept self.old negative.now self.new) }
    {
        let Some(most) = self.first else {
            return Ok(true);
        };
        let slot = slot(self.tokens, negative);
        if most <= self.counts[slot] {
            return Ok(false);
        }
        if !search.is_only(negative)? {
            return Ok(false);
        }
        self.counts[slot] += 1;
        Ok(true)
    }
}

// Which count is that of a negative's operator and left mark.
fn slot(tokens: u16, negative: &Negative) -> usize
    requires { IsLeft tokens negative.now.left }
    ensures slot { result ≡ slot_of tokens negative.now }
    ensures within { result + 1 ≤ 4 * (tokens + 1) }
{
    let many = tokens as usize + 1;
    let row = match negative.edit {
        Edit::Delete(_) => 0,
        Edit::Insert(..) => many,
        Edit::Replace(..) => 2 * many,
        Edit::Swap(_) => 3 * many,
    };
    row + left_place(negative.left)
}

// The number of a left mark: of the begin mark 0, of a token its own.
fn left_place(mark: Mark) -> usize
    ensures { result ≡ left_number mark }
{
    match mark {
        Mark::Token(token) => token as usize,
        Mark::Begin | Mark::End => 0,
    }
}
