// The items of patterns, and sets of bytes.

use crate::scanning::sets::show_set;
use cs_pattern_parts::{ByteSet, Front, Item, front_of};
use std::alloc::{AllocError, Global};
use std::test::Fail;

// What stands at the front of a text, as text.
fn answer(alloc: Global, text: &[u8]) -> Result<String, AllocError> {
    let (item, size) = match front_of(alloc, text)? {
        Front::Item(item, size) => (item, size),
        Front::Stop(stop) => return format!(in alloc; "{stop:?}"),
    };
    let mut out = String::new(alloc);
    match item {
        Item::Class(set) => show_set(&mut out, &set)?,
        other => write!(out, " {other:?}")?,
    }
    write!(out, " of {size}")?;
    Ok(out)
}

// A text and what stands at its front, separated by a tab: worked by hand from the grammar of patterns and the escapes of POSIX
// lex, with the bytes of ASCII.
const ROWS: &str = "\
ab\t 61 of 1\n\
\\x414\t 41 of 4\n\
\\08\t 00 of 2\n\
\\400\tSyntax\n\
.\t 00-09 0b-ff of 1\n\
\"a\\n\"b\t Quoted([97, 10]) of 5\n\
[]a-c]d\t 5d 61-63 of 6\n\
[^\\0-`b-\\xff]\t 61 of 13\n\
[b-a]\tSyntax\n\
[[.a.]]\tCollation\n\
{x-1}y\t Name([120, 45, 49]) of 5\n\
{1x}\tSyntax\n\
{002}\t Repeat(Exactly(2)) of 5\n\
{2,}\t Repeat(AtLeast(2)) of 4\n\
{0,1000}\t Repeat(Between(0, 1000)) of 8\n\
{1001}\tSyntax\n\
{0}\tSyntax\n\
*\t Repeat(AtLeast(0)) of 1\n\
+\t Repeat(AtLeast(1)) of 1\n\
??\t Repeat(Optional) of 1\n\
(\t Open of 1\n\
)\t Close of 1\n\
||\t Bar of 1\n\
^\tAnchor\n\
$\tAnchor\n\
/\tTrailing\n\
<\t 3c of 1\n\
\x20a\tSyntax\n\
\tSyntax\n\
";

#[test]
fn fronts(rt: HostRuntime) -> Result<(), Fail> {
    let alloc = rt.alloc();
    let mut count = 0u32;
    for row in ROWS.lines() {
        if let Some((text, want)) = row.split_once('\t') {
            let found = answer(alloc, text.as_bytes())?;
            assert_eq!(rt; found.as_str(), want, "{text}");
            count = count.wrapping_add(1);
        }
    }
    assert_eq!(rt; count, 29);
    Ok(())
}

// Worked by hand: the letters a to c and the byte 255, what is left of 256 bytes, and both with the byte 0 beside them.
fn some_letters() -> ByteSet {
    let mut set = ByteSet::new();
    set.insert_range(b'a', b'c');
    set.insert(0xff);
    set
}

fn show_three(alloc: Global, set: &ByteSet) -> Result<String, AllocError> {
    let mut zero = ByteSet::new();
    zero.insert(0);
    let mut shown = String::new(alloc);
    show_set(&mut shown, &set.duplicate())?;
    show_set(&mut shown, &set.complement())?;
    show_set(&mut shown, &set.union(&zero))?;
    Ok(shown)
}

#[test]
fn sets_of_bytes(rt: HostRuntime) -> Result<(), Fail> {
    let set = some_letters();
    assert!(rt; ByteSet::new().is_empty() && set.len() == 4);
    let shown = show_three(rt.alloc(), &set)?;
    assert_eq!(rt; shown.as_str(), " 61-63 ff 00-60 64-fe 00 61-63 ff");
    Ok(())
}
