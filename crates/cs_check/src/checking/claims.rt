// The sets that the closed lines claim.

ghost use Rattle.std.specs.Prelude.{◌≡◌, ◌↔◌, IsTrue, All, length};
ghost use Rattle.std.specs.Bool.{OnTrue};
ghost use Rattle.cs_grammar.specs.Grammar.{IsNumberOf};
ghost use Rattle.cs_lines.specs.Lines.Read.{names_in, row_kind};
ghost use Rattle.cs_check.specs.Passing.Head.{IsTokenName, IsNonterminalName, IsRowName};
ghost use Rattle.cs_check.specs.Checking.Claims.{IsWithNonterminals, HasTokens, IsTable, AreWholeSets, IsRowNumber};
ghost use Rattle.cs_check.specs.Checking.Claims.{ClaimsSetLine, ClaimsRowLine};

use crate::checking::finding::{look_for_nonterminal, look_up_token};
use crate::checking::marks::put_next;
use cs_closed::{Set, Sets};
use cs_grammar::place_of;
use cs_lines::{Names, RowKind, SetKind};
use cs_yacc::YaccFile;

// Puts the nonterminals with these names into the set; false where there is none with a name.
fn put_nonterminals(file: &YaccFile, set: &mut Set, names: Names<'_>) -> bool
    requires { length set.old ≡ file.now.grammar.nonterminals }
    ensures known { IsTrue result ↔ All (IsNonterminalName file.now) (names_in names.entry) }
    ensures put { OnTrue result
        (IsWithNonterminals file.now (names_in names.entry) set.old set.new) }
    ensures length { length set.new ≡ length set.old }
{
    let mut rest = names;
    let mut likely = 0;
    while let Some(name) = rest.next() {
        match look_for_nonterminal(file, likely, name) {
            Some(nonterminal) => {
                set.insert(nonterminal);
                likely = nonterminal as usize;
            }
            None => return false,
        }
    }
    true
}

// Puts the nonterminal into the sets of the tokens with these names; false where there is none with a name.
fn put_in_each(file: &YaccFile, table: &mut [Set], nonterminal: u16, names: Names<'_>) -> bool
    requires table { IsTable file.now.grammar.tokens file.now.grammar.nonterminals table.old }
    requires number { IsNumberOf file.now.grammar.nonterminals nonterminal }
    ensures known { IsTrue result ↔ All (IsTokenName file.now) (names_in names.entry) }
    ensures put { OnTrue result
        (HasTokens file.now names.entry nonterminal table.old table.new) }
    ensures table { IsTable file.now.grammar.tokens file.now.grammar.nonterminals table.new }
{
    let mut rest = names;
    while let Some(name) = rest.next() {
        match look_up_token(file, name) {
            Some(token) => table[place_of(token)].insert(nonterminal),
            None => return false,
        }
    }
    true
}

/// Claims what the line of a set names; false where there is none with a name.
pub(crate) fn claim_set(file: &YaccFile, sets: &mut Sets, kind: SetKind, names: Names<'_>) -> bool
    requires { AreWholeSets file.now.grammar sets.old }
    ensures known { IsTrue result ↔ All (IsNonterminalName file.now) (names_in names.entry) }
    ensures whole { AreWholeSets file.now.grammar sets.new }
    ensures claimed { OnTrue result
        (ClaimsSetLine file.now kind names.entry sets.old sets.new) }
{
    match kind {
        SetKind::Productive => put_nonterminals(file, &mut sets.productive, names),
        SetKind::Reachable => put_nonterminals(file, &mut sets.reachable, names),
        SetKind::Empty => put_nonterminals(file, &mut sets.empty, names),
    }
}

/// Claims what the line of a nonterminal or a mark names; false where there is none with a name.
pub(crate) fn claim_row(
    file: &YaccFile,
    sets: &mut Sets,
    kind: RowKind,
    number: u16,
    names: Names<'_>,
) -> bool
    requires whole { AreWholeSets file.now.grammar sets.old }
    requires number { IsRowNumber file.now.grammar (row_kind kind) number }
    ensures known { IsTrue result
        ↔ All (IsRowName file.now (row_kind kind)) (names_in names.entry) }
    ensures whole { AreWholeSets file.now.grammar sets.new }
    ensures claimed { OnTrue result
        (ClaimsRowLine file.now kind number names.entry sets.old sets.new) }
{
    match kind {
        RowKind::First => put_in_each(file, sets.first.as_mut_slice(), number, names),
        RowKind::Last => put_in_each(file, sets.last.as_mut_slice(), number, names),
        RowKind::Next => put_next(file, sets, number, names),
    }
}
