// The marks that the closed lines put behind others.

ghost use Rattle.std.specs.Prelude.{◌≡◌, ◌↔◌, ◌≤◌, IsTrue, All};
ghost use Rattle.cs_grammar.specs.declared.symbol.Mark.TheVariants as marks;
ghost use Rattle.std.specs.Bool.{OnTrue};
ghost use Rattle.cs_grammar.specs.Grammar.{IsNumberOf};
ghost use Rattle.cs_lines.specs.Lines.Read.{names_in};
ghost use Rattle.cs_check.specs.Passing.Head.{mark_at, IsBehindName};
ghost use Rattle.cs_check.specs.Checking.Claims.{AreWholeSets, AreSameButNext, IsWithNext, IsWithNamed, HasBehind};

use crate::checking::finding::look_up_token;
use cs_bytes::same_bytes;
use cs_closed::Sets;
use cs_grammar::place_of;
use cs_lines::Names;
use cs_yacc::YaccFile;

// Puts the token behind the mark of this number, which is that of a token, or 0 for the begin mark.
fn put_token(file: &YaccFile, sets: &mut Sets, mark: u16, token: u16)
    requires whole { AreWholeSets file.now.grammar sets.old }
    requires mark { mark ≤ file.now.grammar.tokens }
    requires token { IsNumberOf file.now.grammar.tokens token }
    ensures whole { AreWholeSets file.now.grammar sets.new }
    ensures same { AreSameButNext sets.old sets.new }
    ensures next { IsWithNext (mark_at mark) (marks.Token token) sets.old sets.new }
{
    if mark == 0 {
        sets.begin.insert(token);
    } else {
        sets.next[place_of(token)].insert(mark);
    }
}

// Puts the end mark behind the mark.
fn put_end(file: &YaccFile, sets: &mut Sets, mark: u16)
    requires whole { AreWholeSets file.now.grammar sets.old }
    requires mark { mark ≤ file.now.grammar.tokens }
    ensures whole { AreWholeSets file.now.grammar sets.new }
    ensures same { AreSameButNext sets.old sets.new }
    ensures next { IsWithNext (mark_at mark) marks.End sets.old sets.new }
{
    if mark == 0 {
        sets.bare = true;
    } else {
        sets.end.insert(mark);
    }
}

// Puts the marks with this name behind the mark; false where there is none.
fn put_behind(file: &YaccFile, sets: &mut Sets, mark: u16, name: &[u8]) -> bool
    requires whole { AreWholeSets file.now.grammar sets.old }
    requires mark { mark ≤ file.now.grammar.tokens }
    ensures known { IsTrue result ↔ IsBehindName file.now name.now }
    ensures put { OnTrue result (IsWithNamed file.now name.now (mark_at mark) sets.old sets.new) }
    ensures whole { AreWholeSets file.now.grammar sets.new }
    ensures same { AreSameButNext sets.old sets.new }
{
    let is_end = same_bytes(name, b"<end>");
    if is_end {
        put_end(file, sets, mark);
    }
    match look_up_token(file, name) {
        Some(token) => {
            put_token(file, sets, mark, token);
            true
        }
        None => is_end,
    }
}

/// Puts the marks with these names behind the mark; false where there is none with a name.
pub(crate) fn put_next(file: &YaccFile, sets: &mut Sets, mark: u16, names: Names<'_>) -> bool
    requires whole { AreWholeSets file.now.grammar sets.old }
    requires mark { mark ≤ file.now.grammar.tokens }
    ensures known { IsTrue result ↔ All (IsBehindName file.now) (names_in names.entry) }
    ensures put { OnTrue result
        (HasBehind file.now names.entry (mark_at mark) sets.old sets.new) }
    ensures whole { AreWholeSets file.now.grammar sets.new }
    ensures same { AreSameButNext sets.old sets.new }
{
    let mut rest = names;
    while let Some(name) = rest.next() {
        if !put_behind(file, sets, mark, name) {
            return false;
        }
    }
    true
}
