// What rules win and in what they overlap, worked by hand; and a scanner of 2,048 rules.

use cs_lexical::Lexical;
use cs_sample_files::{Trouble, read_files};
use cs_scanner::Automaton;
use std::alloc::Global;
use std::test::Fail;

const NAMES: &[u8] = b"%token IF ID\n%%\ns : IF | ID ;\n";

// The least texts of the rules of a lex file.
fn lexical_of(alloc: Global, lex: &[u8]) -> Result<Lexical, Trouble> {
    let (_yacc, lex) = read_files(alloc, NAMES, lex)?;
    let automaton = Automaton::new(alloc, lex.patterns())?;
    Ok(Lexical::new(alloc, &automaton, lex.patterns().len() as u16)?)
}

fn is_text(found: Option<&[u8]>, want: &[u8]) -> bool {
    match found {
        Some(text) => text == want,
        None => false,
    }
}

#[test]
fn least_by_rank_among_the_shortest(rt: HostRuntime) -> Result<(), Fail> {
    let alloc = rt.alloc();
    let lexical = lexical_of(
        alloc,
        b"%%\n[ab]x return IF;\n[A-Za-z0-9][!-~] return ID;\n",
    )?;
    assert_eq!(rt; lexical.rules(), 2);
    assert!(rt; is_text(lexical.wins(1), b"ax"));
    assert!(rt; is_text(lexical.wins(2), b"aa"));
    assert!(rt; is_text(lexical.both(1, 2), b"ax"));
    Ok(())
}
