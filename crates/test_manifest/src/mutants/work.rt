//! What lists of tokens are rendered with, by a yacc file and a lex file.

ghost use Rattle.cs_writing.specs.Mutants.Makers.{CanRender};

use cs_sample_files::{Trouble, read_files};
use cs_scanner::{Automaton, Lexemes, Scanner};
use cs_texts::RenderWork;
use cs_yacc::YaccFile;
use std::alloc::Global;

// What the call answers of these, which it can be called with.
fn answer_of<T: Drop, F: FnOnce(&YaccFile, &RenderWork<'_>, u16) -> Result<T, Trouble>>(
    yacc: &YaccFile,
    work: &RenderWork<'_>,
    most: u16,
    call: F,
) -> Result<T, Trouble>
    requires work { CanRender work.now most }
    requires calls { (y : _) (work : _) (most : _)
        → CanRender work.now most → F.pre call y work most }
{
    call(yacc, work, most)
}

/// What the call answers of a yacc file, of what lists are rendered with by it, a lex file and this separator, and of how many
/// tokens there are. A call, since what it gets lends what is made here.
pub(crate) fn with_work<T: Drop, F: FnOnce(&YaccFile, &RenderWork<'_>, u16) -> Result<T, Trouble>>(
    alloc: Global,
    files: (&[u8], &[u8]),
    separator: &[u8],
    call: F,
) -> Result<T, Trouble>
    requires { (y : _) (work : _) (most : _)
        → CanRender work.now most → F.pre call y work most }
{
    let (yacc, lex) = read_files(alloc, files.0, files.1)?;
    let automaton = Automaton::new(alloc, lex.patterns())?;
    let scanner = Scanner {
        automaton: &automaton,
        kinds: lex.kinds(),
        literals: lex.literals(),
    };
    let most = yacc.grammar().tokens();
    let lexemes = Lexemes::new(alloc, &scanner, most)?;
    let work = RenderWork {
        scanner: &scanner,
        lexemes: &lexemes,
        separator,
    };
    answer_of(&yacc, &work, most, call)
}
