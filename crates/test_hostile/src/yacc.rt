// Yacc files of a mebibyte that are made to be slow: each is read in time linear in its size. What they give is worked by hand:
// where the first fault stands, or that there is none.

use cs_samples::repeated;
use cs_yacc::{MOST_BYTES, YaccError, read_yacc};
use std::test::Fail;

#[test]
fn slow_texts(rt: HostRuntime) -> Result<(), Fail> {
    let rows = [
        ("%% s : {", "\\'", 524_000, YaccError::Unended { at: 7 }),
        ("%% s : {", "\\\"\\'", 262_000, YaccError::Unended { at: 7 }),
        ("%% s : ", "{", 1_048_000, YaccError::Unended { at: 7 }),
        ("%% s : /*", "*", 1_048_000, YaccError::Unended { at: 7 }),
        ("%{", "%", 1_048_000, YaccError::Unended { at: 0 }),
        ("%% s", "\ns", 524_000, YaccError::Syntax { at: 5 }),
        ("%% s : ", "<", 1_048_000, YaccError::BadItem { at: 7 }),
        ("%% s : '", "\\", 1_048_000, YaccError::BadItem { at: 7 }),
    ];
    for (front, piece, times, want) in rows {
        let text = repeated(rt.alloc(), front, piece, times, "")?;
        assert!(rt; text.len() <= MOST_BYTES);
        let fault = read_yacc(rt.alloc(), text.as_bytes()).err();
        assert!(rt; fault == Some(want), "{front}{piece}");
    }
    Ok(())
}

#[test]
fn blocks_of_one_line(rt: HostRuntime) -> Result<(), Fail> {
    let text = repeated(rt.alloc(), "%% s : ", "{\\'}", 262_000, "")?;
    assert!(rt; text.len() <= MOST_BYTES);
    let file = read_yacc(rt.alloc(), text.as_bytes())
        .ok()
        .ok_or("accepted")?;
    assert!(rt; file.grammar().rules().len() == 1);
    Ok(())
}
