// The three kinds of line ends. In both files a carriage return is a blank; a line of a lex file ends at a newline alone.
// So all these files have one suite: that of the letter in `cs_samples`, which was written by hand.

use crate::ending::{FIRST, suite};
use cs_samples::{LETTER, LETTER_SCANNER, LETTER_SUITE_ONE};
use std::test::Fail;

#[test]
fn line_ends_change_nothing(rt: HostRuntime) -> Result<(), Fail> {
    let alloc = rt.alloc();
    let grammars: [&[u8]; 4] = [
        LETTER,
        b"%%\r\ns : 'x' ;\r\n",
        b"%%\rs : 'x' ;\r",
        b"// a comment\r\n%%\r\n\n\rs :\r'x'\n;",
    ];
    let scanners: [&[u8]; 3] = [
        LETTER_SCANNER,
        b"%%\r\nx return 'x';\r\n[ ]+ ;\r\n",
        b"\r\n\n%% \r\nx\rreturn\r'x'\r;\n\r\n[ ]+\r;",
    ];
    for yacc in grammars {
        for lex in scanners {
            let ended = suite(&rt, alloc, FIRST, yacc, lex)?;
            assert!(rt; ended.status == 0);
            assert!(rt; ended.out.written() == LETTER_SUITE_ONE);
        }
    }
    Ok(())
}
