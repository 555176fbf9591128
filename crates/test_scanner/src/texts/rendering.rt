//! Renderings, worked by hand.

use crate::texts::files::rendered;
use cs_samples::SUMS;
use std::test::Fail;

const LEX: &str = "%%\n[0-9]+ return NUM;\n[-+*/(] return yytext[0];\n[ \\t\\n]+ ;\n";

// NUM is 1, '+' is 2, '(' is 3 and ')', which no rule gives, is 4.
const ROWS: &[(&str, &[u16], &str)] = &[
    (" ", &[1, 1], "text 0 0"),
    ("", &[1, 1], "differs 1"),
    ("", &[1, 2, 1], "text 0+0"),
    (" ", &[], "text "),
    (" ", &[1], "text 0"),
    (" ", &[1, 4, 2, 4], "no lexeme 4"),
    ("?", &[1, 2, 1], "differs 1"),
    ("+", &[1, 1], "differs 1"),
    ("\n", &[3, 3], "text (\\n("),
];

#[test]
fn texts_of_tokens(rt: HostRuntime) -> Result<(), Fail> {
    let alloc = rt.alloc();
    for &(separator, tokens, want) in ROWS {
        let found = rendered(alloc, SUMS, LEX.as_bytes(), separator.as_bytes(), tokens)?;
        assert_eq!(rt; found.as_str(), want, "{separator} {tokens:?}");
    }
    Ok(())
}
