//! Texts and what stands in them, worked by hand from the classes of the POSIX locale.

use cs_bytes::*;

const RUNS: &[(&str, ByteClass, usize)] = &[
    ("0789a", ByteClass::Digit, 4),
    ("0789a", ByteClass::OctalDigit, 2),
    ("09afAFgG", ByteClass::HexadecimalDigit, 6),
    (" \t\r\n", ByteClass::Blank, 3),
    (" \t\r\n\x0b", ByteClass::Space, 4),
    ("_a1", ByteClass::WordStart, 2),
    ("_a1-", ByteClass::Word, 3),
    ("_a1-.", ByteClass::WordOr(b'-'), 4),
    ("ab]\n", ByteClass::Neither(b']', b'\n'), 2),
];

#[test]
fn longest_runs(rt: HostRuntime) {
    for &(text, class, len) in RUNS {
        assert_eq!(rt; run_len(text.as_bytes(), class), len, "{text:?}");
        assert_eq!(rt; begins(text.as_bytes(), class), len > 0, "{text:?}");
    }
}

// A text, and the size of the line in front without and with its newline.
const LINES: &[(&[u8], usize, usize)] = &[(b"ab\nc", 2, 3), (b"ab", 2, 2)];

// A text, and where `*/` stands in it first.
const PAIRS: &[(&[u8], Option<usize>)] = &[(b"/**/", Some(2)), (b"*", None)];

#[test]
fn lines_and_pairs(rt: HostRuntime) {
    for &(text, len, size) in LINES {
        assert!(rt;
            line_len(text) == len && line_size(text) == size,
            "{text:?}"
        );
    }
    for &(text, at) in PAIRS {
        assert_eq!(rt; find_pair(text, b'*', b'/'), at, "{text:?}");
    }
}

#[test]
fn bytes_at_places(rt: HostRuntime) {
    assert!(rt; has_at(b"ab", 1, b'b') && !has_at(b"ab", 2, b'b'));
    assert!(rt; has_pair(b"xab", 1, b'a', b'b') && !same_bytes(b"ab", b"ba"));
}

#[test]
fn numbers_of_digits(rt: HostRuntime) {
    assert_eq!(rt; number(8, b"377"), 255);
    assert_eq!(rt; number(16, b"fF"), 255);
    assert_eq!(rt; number(10, b"4294967295"), u32::MAX);
    assert_eq!(rt; number(10, b"99999999999"), u32::MAX);
}
