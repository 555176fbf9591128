// Files that are accepted, however long or deep. The ends of the outputs were worked by hand: `s : NUM` has a rule goal and four
// pairs, of which `<begin> <end>` and `NUM NUM` are infeasible, and its base without its token, or with one more, is a negative.

use crate::ending::is_written;
use cs_samples::{NUMBER, SCANNER, repeated};
use std::alloc::{AllocError, Global};
use std::test::Fail;
use std::thread::Threads;

const END: &[u8] = b"end goals 5 feasible 3 infeasible 2 large 0 negatives 2\n";

fn takes_yacc<R: Threads + Sync>(rt: &R, alloc: Global, yacc: String) -> Result<bool, AllocError> {
    is_written(rt, alloc, yacc.as_bytes(), SCANNER, END)
}

fn takes_lex<R: Threads + Sync>(rt: &R, alloc: Global, lex: String) -> Result<bool, AllocError> {
    is_written(rt, alloc, NUMBER, lex.as_bytes(), END)
}

// So many braces within one another.
fn braces(alloc: Global, front: &str, depth: u32, back: &str) -> Result<String, AllocError> {
    let mut text = repeated(alloc, front, "{", depth, "")?;
    text.push_str(repeated(alloc, "", "}", depth, back)?.as_str())?;
    Ok(text)
}

const NUMBERS: &str = "%%\n5 return NUM;\n[ ]+ ";

#[test]
fn long_names_and_blocks(rt: HostRuntime) -> Result<(), Fail> {
    let token = repeated(
        rt.alloc(),
        "%token NUM ",
        "a",
        1_000_000,
        "\n%%\ns : NUM ;\n",
    )?;
    assert!(rt; takes_yacc(&rt, rt.alloc(), token)?);
    let blocks = braces(rt.alloc(), "%token NUM\n%%\ns : NUM ", 500_000, " ;\n")?;
    assert!(rt; takes_yacc(&rt, rt.alloc(), blocks)?);
    Ok(())
}

#[test]
fn long_parts_of_a_lex_file(rt: HostRuntime) -> Result<(), Fail> {
    let back = "]\n%%\n{D} return NUM;\n[ ]+ ;\n";
    let bracket = repeated(rt.alloc(), "D [", "5", 100_000, back)?;
    assert!(rt; takes_lex(&rt, rt.alloc(), bracket)?);
    let back = " x\n%%\n5 return NUM;\n[ ]+ ;\n";
    let name = repeated(rt.alloc(), "", "D", 100_000, back)?;
    assert!(rt; takes_lex(&rt, rt.alloc(), name)?);
    let action = braces(rt.alloc(), NUMBERS, 50_000, "\n")?;
    assert!(rt; takes_lex(&rt, rt.alloc(), action)?);
    Ok(())
}

// `x12 : x11 x11 ;` and so on down to `x0 : 'x' ;`, behind a front.
fn doubling(alloc: Global, front: &str) -> Result<String, AllocError> {
    let mut text = String::from_str(alloc, front)?;
    for level in 0..12u32 {
        let left = 12 - level;
        let right = 11 - level;
        write!(text, "x{left} : x{right} x{right} ;\n")?;
    }
    text.push_str("x0 : 'x' ;\n")?;
    Ok(text)
}

// The least tree of x12 has 12,287 nodes, so that every goal of its 13 rules and 24 contexts is large, and of its four pairs all
// but `<begin> <end>`. From x11 rule 1 and its two contexts aren't reached, and trees of 6,143 nodes meet the other goals.
#[test]
fn trees_about_the_limit(rt: HostRuntime) -> Result<(), Fail> {
    let alloc = rt.alloc();
    let large = doubling(alloc, "%%\n")?;
    let end = b"end goals 41 feasible 0 infeasible 1 large 40 negatives 0\n".as_slice();
    assert!(rt; is_written(&rt, alloc, large.as_bytes(), SCANNER, end)?);
    let least = doubling(alloc, "%start x11\n%%\n")?;
    let end = b"end goals 41 feasible 37 infeasible 4 large 0 negatives 0\n".as_slice();
    assert!(rt; is_written(&rt, alloc, least.as_bytes(), SCANNER, end)?);
    Ok(())
}
