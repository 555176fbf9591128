// How the numbers of texts are noted.

ghost use Rattle.std.specs.Prelude.{◌≡◌, ◌⊎◌, ◌+◌, ◌≤◌, All, IfOk, IfSome, IsTrue, length};
ghost use Rattle.cs_grammar.specs.Grammar.{IsNumberOf};
ghost use Rattle.cs_lexical.specs.Least.{lists};
ghost use Rattle.cs_lexical.specs.Noting.{AreBlank, AreRows, NotesRow, NotesRows, NotesWin};
ghost use Rattle.cs_lexical.specs.Noting as spec;

use cs_grammar::place_of;
use std::alloc::{AllocError, Global};

/// A row of zeros for each rule.
pub(crate) fn no_rows(alloc: Global, rules: u16) -> Result<Vec<Vec<u16>>, AllocError>
    ensures { IfOk result (λ rows. AreBlank rules rules (lists rows.items)) }
{
    let mut rows = Vec::new(alloc);
    for place in 0..rules {
        rows.push(vec![in alloc; 0; (rules - place - 1) as usize]?)?;
    }
    Ok(rows)
}

// Notes the number where none is noted yet, and answers whether it did.
fn note(entry: &mut u16, number: u16) -> bool
    ensures entry { entry.new ≡ spec.noted entry.old number }
    ensures told { IsTrue result ⊎ (entry.new ≡ entry.old) }
{
    if *entry != 0 {
        return false;
    }
    *entry = number;
    true
}

/// Notes the number for the rule that wins, and answers whether it was new.
pub(crate) fn note_win(wins: &mut [u16], rule: Option<u16>, number: u16) -> bool
    requires { IfSome rule (IsNumberOf (length wins.old)) }
    ensures wins { NotesWin rule number wins.old wins.new }
    ensures told { IsTrue result ⊎ (wins.new ≡ wins.old) }
{
    match rule {
        None => false,
        Some(rule) => note(&mut wins[place_of(rule)], number),
    }
}

// Notes the number in the row of a rule, for those of the rules that are behind it.
fn note_row(row: &mut [u16], rule: u16, rules: &[u16], number: u16) -> bool
    requires { All (λ other. other ≤ rule + length row.old) rules.now }
    ensures row { NotesRow rule number rules.now row.old row.new }
    ensures told { IsTrue result ⊎ (row.new ≡ row.old) }
{
    let mut new = false;
    for other in rules {
        if *other > rule {
            new = note(&mut row[(*other - rule) as usize - 1], number) || new;
        }
    }
    new
}

/// Notes the number for each two of the rules, and answers whether it was new for some.
pub(crate) fn note_rows(rows: &mut [Vec<u16>], rules: &[u16], number: u16) -> bool
    requires rules { All (IsNumberOf (length rows.old)) rules.now }
    requires rows { AreRows (length rows.old) (lists rows.old) }
    ensures rows { NotesRows number rules.now rules.now (lists rows.old) (lists rows.new) }
    ensures told { IsTrue result ⊎ (lists rows.new ≡ lists rows.old) }
{
    let mut new = false;
    for rule in rules {
        new = note_row(&mut rows[place_of(*rule)], *rule, rules, number) || new;
    }
    new
}
