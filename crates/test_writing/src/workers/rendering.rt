// Lists of tokens of the grammar of sums, rendered by workers.

ghost use Rattle.std.specs.Prelude.{◌≡◌, ◌<◌, ◌≤◌, length};

use cs_fan::{Counter, OpenGate, fan};
use cs_lex::LexFile;
use cs_sample_files::{Trouble, read_files};
use cs_samples::{SCANNER, SUMS};
use cs_scanner::{Automaton, Lexemes, Scanner};
use cs_texts::{RenderWork, Rendered};
use std::alloc::{AllocError, Global};
use std::process::Abort;
use std::test::Fail;
use std::thread::Threads;

// What comes of `NUM`, `NUM NUM` and the empty list, by so many workers.
fn rendered<R: Threads + Sync>(
    rt: &R,
    alloc: Global,
    work: &RenderWork<'_>,
    workers: u16,
) -> Result<Vec<Rendered>, AllocError>
    requires tokens { length work.now.lexemes.now ≡ 4 }
    requires some { 0 < workers }
    requires few { workers ≤ 64 }
{
    let lists = [vec![in alloc; 1]?, vec![in alloc; 1, 1]?, Vec::new(alloc)];
    let (counter, mut seat) = Counter::new(alloc, 3, workers)?;
    fan(rt, alloc, &lists, work, &OpenGate, &counter, &mut seat)
}

// Whether this text came of a list.
fn is_text(rendered: &Rendered, wanted: &[u8]) -> bool {
    match rendered {
        Rendered::Text(text) => text.as_slice() == wanted,
        _ => false,
    }
}

// Whether these are the texts of the lists.
fn are_texts(texts: &[Rendered]) -> bool {
    texts.len() == 3
        && is_text(&texts[0], b"0")
        && is_text(&texts[1], b"0 0")
        && is_text(&texts[2], b"")
}

// The lists are rendered by some numbers of workers.
fn check<R: Abort + Threads + Sync>(
    rt: &R,
    alloc: Global,
    work: &RenderWork<'_>,
) -> Result<(), AllocError>
    requires tokens { length work.now.lexemes.now ≡ 4 }
{
    for workers in [2, 1, 3, 4, 5] {
        let texts = rendered(rt, alloc, work, workers)?;
        assert!(rt; are_texts(&texts), "{workers}");
    }
    Ok(())
}

fn check_file<R: Abort + Threads + Sync>(
    rt: &R,
    alloc: Global,
    file: &LexFile,
) -> Result<(), Trouble> {
    let automaton = Automaton::new(alloc, file.patterns())?;
    let scanner = Scanner {
        automaton: &automaton,
        kinds: file.kinds(),
        literals: file.literals(),
    };
    let lexemes = Lexemes::new(alloc, &scanner, 4)?;
    let work = RenderWork {
        scanner: &scanner,
        lexemes: &lexemes,
        separator: b" ",
    };
    Ok(check(rt, alloc, &work)?)
}

// Worked by hand: the lexeme of NUM is `0`, and one space stands between two lexemes.
#[test]
fn texts_stand_in_the_order_of_the_lists(rt: HostRuntime) -> Result<(), Fail> {
    let (_, file) = read_files(rt.alloc(), SUMS, SCANNER)?;
    check_file(&rt, rt.alloc(), &file)?;
    Ok(())
}
