// The edits that fit a list, one after another.

ghost use Rattle.std.specs.Prelude.{◌≡◌, ◌≤◌, [], ◌∷◌, IfSome, IfNone};
ghost use Rattle.std.specs.List.{range_with_len};
ghost use Rattle.cs_mutate.specs.Edits.{cells, fitting_edits};

use crate::edit::Edit;
use cs_choices::Operators;
use std::marker::Model;

// Places that are still to be given.
#[derive(Debug, Drop)]
pub(crate) struct Places {
    place: u32,
    places: u32,
}

impl Model for Places {
    ghost use Rattle.std.specs.Prelude.{ℕ, List};
    ghost use Rattle.cs_mutate.specs.Rest.{places_left};

    ghost Value = { List ℕ };

    ghost view = { λ p. places_left p.place p.places };
}

impl Places {
    pub fn new(places: u32) -> Places
        ensures { result ≡ range_with_len 0 places }
    {
        Places { place: 0, places }
    }

    pub fn copied(&self) -> Places
        ensures { result ≡ self.now }
    {
        Places {
            place: self.place,
            places: self.places,
        }
    }

    pub fn next(&mut self) -> Option<u32>
        ensures some { IfSome result (λ place. self.old ≡ place ∷ self.new) }
        ensures none { IfNone result ((self.old ≡ []) × (self.new ≡ [])) }
    {
        if self.place < self.places {
            let place = self.place;
            self.place += 1;
            Some(place)
        } else {
            None
        }
    }
}

// Places with tokens that are still to be given.
#[derive(Debug, Drop)]
pub(crate) struct Cells {
    place: u32,
    token: u16,
    places: u32,
    tokens: u16,
}

impl Model for Cells {
    ghost use Rattle.std.specs.Prelude.{ℕ, ◌-◌, ◌≤◌, List};
    ghost use Rattle.cs_mutate.specs.Rest.{cells_left};

    ghost Value = { List (ℕ × ℕ) };

    ghost view = { λ c. cells_left c.places c.tokens c.place c.token };

    ghost invariant = { λ c. c.token ≤ c.tokens - 1 };
}

impl Cells {
    pub fn new(places: u32, tokens: u16) -> Cells
        ensures { result ≡ cells places tokens }
    {
        Cells {
            place: 0,
            token: 0,
            places,
            tokens,
        }
    }

    pub fn copied(&self) -> Cells
        ensures { result ≡ self.now }
    {
        Cells {
            place: self.place,
            token: self.token,
            places: self.places,
            tokens: self.tokens,
        }
    }

    pub fn next(&mut self) -> Option<(u32, u16)>
        ensures some { IfSome result (λ cell. self.old ≡ cell ∷ self.new) }
        ensures none { IfNone result ((self.old ≡ []) × (self.new ≡ [])) }
    {
        if self.tokens == 0 || self.places <= self.place {
            return None;
        }
        let place = self.place;
        let token = self.token + 1;
        if token < self.tokens {
            self.token = token;
        } else {
            self.place += 1;
            self.token = 0;
        }
        Some((place, token))
    }
}

// The edits that are still to be given.
#[derive(Debug, Drop)]
pub(crate) struct Candidates {
    deletions: Places,
    insertions: Cells,
    replacements: Cells,
    swaps: Places,
}

impl Model for Candidates {
    ghost use Rattle.std.specs.Prelude.{List, ◌++◌, map};
    ghost use Rattle.cs_mutate.specs.declared.edit.Edit.{Edit};
    ghost use Rattle.cs_mutate.specs.declared.edit.Edit.TheVariants.{Delete, Swap};
    ghost use Rattle.cs_mutate.specs.Edits.{insertion, replacement};

    ghost Value = { List Edit };

    ghost view = { λ c. map Delete c.deletions ++ map insertion c.insertions
        ++ map replacement c.replacements ++ map Swap c.swaps };
}

impl Candidates {
    pub fn new(length: u32, tokens: u16, operators: Operators) -> Candidates
        requires { length ≤ 1000000 }
        ensures { result ≡ fitting_edits length tokens operators }
    {
        // An operator that isn't chosen has no place.
        Candidates {
            deletions: Places::new(if operators.delete { length } else { 0 }),
            insertions: Cells::new(if operators.insert { length + 1 } else { 0 }, tokens),
            replacements: Cells::new(if operators.replace { length } else { 0 }, tokens),
            swaps: Places::new(if operators.swap {
                length.saturating_sub(1)
            } else {
                0
            }),
        }
    }

    pub fn copied(&self) -> Candidates
        ensures { result ≡ self.now }
    {
        Candidates {
            deletions: self.deletions.copied(),
            insertions: self.insertions.copied(),
            replacements: self.replacements.copied(),
            swaps: self.swaps.copied(),
        }
    }

    pub fn next(&mut self) -> Option<Edit>
        ensures some { IfSome result (λ edit. self.old ≡ edit ∷ self.new) }
        ensures none { IfNone result ((self.old ≡ []) × (self.new ≡ [])) }
    {
        if let Some(place) = self.deletions.next() {
            return Some(Edit::Delete(place));
        }
        if let Some((place, token)) = self.insertions.next() {
            return Some(Edit::Insert(place, token));
        }
        if let Some((place, token)) = self.replacements.next() {
            return Some(Edit::Replace(place, token));
        }
        self.swaps.next().map(Edit::Swap)
    }
}
