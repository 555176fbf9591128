//! Texts and the ends of their constructs, worked out by hand.

use cs_ctext::{
    CText, Word, opens_comment, read_literal, skip_block, skip_comment, skip_quoted, words,
};
use std::alloc::{AllocError, Global};
use std::test::Fail;

const COMMENTS: &[(&str, usize, Option<usize>)] = &[
    ("/**/", 0, Some(4)),
    ("/***/", 0, Some(5)),
    ("/*/", 0, None),
    ("/*/ */x", 0, Some(6)),
    ("a/* \" */b", 1, Some(8)),
    ("/* /* */ */", 0, Some(8)),
    ("/* x", 0, None),
    ("// x\ny", 0, Some(4)),
    ("//*/ \n", 0, Some(5)),
    ("x//", 1, Some(3)),
];

#[test]
fn comments(rt: HostRuntime) {
    for &(text, at, end) in COMMENTS {
        assert!(rt; opens_comment(text.as_bytes(), at));
        assert_eq!(rt; skip_comment(text.as_bytes(), at), end, "{text}");
    }
}

const QUOTED: &[(&str, usize, Option<usize>)] = &[
    ("\"\"", 0, Some(2)),
    ("a\"b\"c", 1, Some(4)),
    ("'\"'", 0, Some(3)),
    ("\"'\"", 0, Some(3)),
    ("\"/*\"", 0, Some(4)),
    ("\"\\\"\"x", 0, Some(4)),
    ("\"\\\\\"", 0, Some(4)),
    ("'\\''", 0, Some(4)),
    ("\"a\\\nb\"", 0, Some(6)),
    ("\"a\n\"", 0, None),
    ("\"\\", 0, None),
    ("'a\"", 0, None),
];

#[test]
fn quoted_constructs(rt: HostRuntime) {
    for &(text, at, end) in QUOTED {
        let bytes = text.as_bytes();
        assert!(rt; at < bytes.len() && (bytes[at] == b'"' || bytes[at] == b'\''));
        assert_eq!(rt; skip_quoted(bytes, at), end, "{text}");
    }
}

const BLOCKS: &[(&str, usize, Option<usize>)] = &[
    ("{}", 0, Some(2)),
    ("x{}}", 1, Some(3)),
    ("{a{b}c}d", 0, Some(7)),
    ("{/}", 0, Some(3)),
    ("{ /* } */ }", 0, Some(11)),
    ("{ // }\n}", 0, Some(8)),
    ("{ \"}\" }", 0, Some(7)),
    ("{ '}' }", 0, Some(7)),
    ("{ \"/*\" }", 0, Some(8)),
    ("{/*\"*/}", 0, Some(7)),
    ("{\"\\\n}\"}", 0, Some(7)),
    ("{ \"}\n\"", 0, Some(4)),
    ("{", 0, None),
    ("{{}", 0, None),
    ("{ // }", 0, None),
    ("{ /* }", 0, None),
];

#[test]
fn blocks(rt: HostRuntime) {
    for &(text, at, end) in BLOCKS {
        let bytes = text.as_bytes();
        assert!(rt; at < bytes.len() && bytes[at] == b'{');
        assert_eq!(rt; skip_block(bytes, at), end, "{text}");
    }
}

/// The end of the block of so many `{` and then so many `}`.
fn end_of(alloc: Global, opened: usize, closed: usize) -> Result<Option<usize>, AllocError> {
    let mut bytes = vec![in alloc; b'{'; opened]?;
    for _ in 0..closed {
        bytes.push(b'}')?;
    }
    let bytes = bytes.as_slice();
    if bytes.len() > 0 && bytes[0] == b'{' {
        return Ok(skip_block(bytes, 0));
    }
    Ok(Some(0))
}

#[test]
fn deep_blocks(rt: HostRuntime) -> Result<(), Fail> {
    let depth = 1 << 20;
    assert_eq!(rt; end_of(rt.alloc(), depth, 0)?, None);
    assert_eq!(rt; end_of(rt.alloc(), depth, depth)?, Some(2 * depth));
    Ok(())
}

const WORDS: &[(&str, usize, usize, &[(usize, usize)])] = &[
    ("return NUM;", 0, 11, &[(0, 6), (7, 10)]),
    ("a1 1a _b", 0, 8, &[(0, 2), (6, 8)]),
    ("1.5e3x 0x1F", 0, 11, &[]),
    ("a/b", 0, 3, &[(0, 1), (2, 3)]),
    ("x /* y */ z", 0, 11, &[(0, 1), (10, 11)]),
    ("a // b\nc", 0, 8, &[(0, 1), (7, 8)]),
    ("\"a\" b 'c d", 0, 10, &[(4, 5), (7, 8), (9, 10)]),
    ("a /* b", 0, 6, &[(0, 1)]),
    ("\"a\" b", 1, 5, &[(1, 2), (4, 5)]),
    ("a/*b*/c", 0, 4, &[(0, 1)]),
    ("abc", 1, 2, &[(1, 2)]),
    ("", 0, 0, &[]),
];

#[test]
fn words_of_parts(rt: HostRuntime) {
    for &(text, from, to, expected) in WORDS {
        assert!(rt; from <= to && to <= text.len());
        let mut found = words(text.as_bytes(), from, to);
        for &(from, to) in expected {
            assert_eq!(rt; found.next(), Some(Word { from, to }), "{text}");
        }
        assert_eq!(rt; found.next(), None, "{text}");
    }
}

const LITERALS: &[(&str, Option<(u8, usize)>)] = &[
    ("'a'", Some((97, 3))),
    ("' '", Some((32, 3))),
    ("'\"'", Some((34, 3))),
    ("'\\n'", Some((10, 4))),
    ("'\\''", Some((39, 4))),
    ("'\\?'", Some((63, 4))),
    ("'\\7'", Some((7, 4))),
    ("'\\101'", Some((65, 6))),
    ("'\\377'", Some((255, 6))),
    ("'\\x4'", Some((4, 5))),
    ("'\\xFf'", Some((255, 6))),
    ("'\\0'", None),
    ("'\\400'", None),
    ("'\\1234'", None),
    ("'\\8'", None),
    ("'\\x'", None),
    ("'\\x123'", None),
    ("'\\q'", None),
    ("'\\", None),
    ("''", None),
    ("'''", None),
    ("'ab'", None),
    ("'\n'", None),
    ("'\0'", None),
    ("'", None),
];

#[test]
fn literals(rt: HostRuntime) {
    for &(text, read) in LITERALS {
        let bytes = text.as_bytes();
        assert!(rt; bytes.len() > 0 && bytes[0] == b'\'');
        assert_eq!(rt; read_literal(bytes, 0), read, "{text}");
    }
}

/// How far the part at the front of so many `\'` goes: none of these marks is closed.
fn escaped_marks(alloc: Global, count: usize) -> Result<usize, AllocError> {
    let mut bytes = Vec::new(alloc);
    for _ in 0..count {
        bytes.push(b'\\')?;
        bytes.push(b'\'')?;
    }
    let mut text = CText::new(&bytes);
    let mut at = 0;
    while at < text.bytes().len() {
        match text.skip_part(at) {
            Some(end) => at = end,
            None => return Ok(0),
        }
    }
    Ok(at)
}

#[test]
fn a_line_of_escaped_marks(rt: HostRuntime) -> Result<(), Fail> {
    assert_eq!(rt; escaped_marks(rt.alloc(), 1 << 19)?, 1 << 20);
    Ok(())
}
