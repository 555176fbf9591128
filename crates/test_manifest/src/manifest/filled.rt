// Negatives that fill lines with holes: what is expected was written by hand from the page on formats.

ghost use Rattle.std.specs.Prelude.{◌≡◌, All, IsTrue, length};
ghost use Rattle.cs_grammar.specs.Grammar.{IsNumberOf};
ghost use Rattle.cs_manifest.specs.Output.Names.{IsNamedMark, IsNamedToken};
ghost use Rattle.cs_manifest.specs.Filling.Open.{mark_in};

use cs_grammar::Mark;
use cs_io::MemorySink;
use cs_manifest::{
    Entry, FilledNegative, Form, Head, Manifest, Numeral, OpenEdit, OpenLines, OpenNegative,
    OpenPair, TokenPieces,
};
use cs_sample_files::{Trouble, lexemes_of, read_files};
use cs_samples::{SCANNER, SUMS};
use cs_yacc::YaccFile;
use std::alloc::Global;
use std::test::Fail;

// Negatives of base 12, the token that they are filled with, and the lines of number 9.
type Row = (OpenNegative<'static>, u16, &'static [u8]);

// More than the 64 bytes that are copied at once.
const LONG: &[u16] = &[1; 20];

// NUM is 1, '+' is 2, '(' is 3 and ')' is 4.
const ROWS: &[Row] = &[
    (
        OpenNegative {
            base: 12,
            edit: OpenEdit::Insert(1),
            pair: OpenPair::Behind(Mark::Token(1)),
            front: &[1],
            back: &[2, 1],
            text_front: b"0 ",
            text_back: b" + 0",
        },
        1,
        b"negative 9 base 12 insert 1 NUM pair NUM NUM at 1\n  tokens NUM NUM '+' NUM\n  text \"0 0 + 0\"\n",
    ),
    (
        OpenNegative {
            base: 12,
            edit: OpenEdit::Replace(0),
            pair: OpenPair::Before(Mark::Token(2)),
            front: &[],
            back: &[2, 1],
            text_front: b"",
            text_back: b"\"+0",
        },
        3,
        b"negative 9 base 12 replace 0 '(' pair '(' '+' at 1\n  tokens '(' '+' NUM\n  text \"(\\x22+0\"\n",
    ),
    (
        OpenNegative {
            base: 12,
            edit: OpenEdit::Replace(0),
            pair: OpenPair::Behind(Mark::Begin),
            front: &[],
            back: &[],
            text_front: b"",
            text_back: b"",
        },
        4,
        b"negative 9 base 12 replace 0 ')' pair <begin> ')' at 0\n  tokens ')'\n  text \")\"\n",
    ),
    (
        OpenNegative {
            base: 12,
            edit: OpenEdit::Insert(20),
            pair: OpenPair::Before(Mark::End),
            front: LONG,
            back: &[],
            text_front: b"0 0 0 0 0 0 0 0 0 0 0 0 0 0 0 0 0 0 0 0 ",
            text_back: b"",
        },
        2,
        b"negative 9 base 12 insert 20 '+' pair '+' <end> at 21
  tokens NUM NUM NUM NUM NUM NUM NUM NUM NUM NUM NUM NUM NUM NUM NUM NUM NUM NUM NUM NUM '+'
  text \"0 0 0 0 0 0 0 0 0 0 0 0 0 0 0 0 0 0 0 0 +\"
",
    ),
];

// Whether these are numbers of tokens, of which there are so many.
fn are_tokens(tokens: &[u16], most: u16) -> bool
    ensures { IsTrue result → All (IsNumberOf most) tokens.now }
{
    tokens.iter().all(|token| 0 < *token && *token <= most)
}

// Whether the pair's mark is of the file.
fn is_pair(file: &YaccFile, most: u16, pair: OpenPair) -> bool
    requires { length file.now.token_names ≡ most }
    ensures { IsTrue result → IsNamedMark file.now (mark_in pair) }
{
    match pair {
        OpenPair::Behind(Mark::Token(token)) | OpenPair::Before(Mark::Token(token)) => {
            0 < token && token <= most
        }
        _ => true,
    }
}

// Whether the lines of a row's negative are the row's.
fn is_filled(
    alloc: Global,
    file: &YaccFile,
    pieces: &TokenPieces<'_>,
    lines: &OpenLines,
    token: u16,
    wanted: &[u8],
) -> Result<bool, Trouble>
    requires file { pieces.now.file ≡ file.now }
    requires token { IsNamedToken file.now token }
{
    let Some(lexeme) = pieces.lexeme(token) else {
        return Ok(false);
    };
    let number = Numeral::new(9);
    let entry = Entry::Filled(FilledNegative {
        number: &number,
        lines,
        name: pieces.name(token),
        lexeme,
    });
    let form = Form::Rules;
    let mut sink = MemorySink::new(alloc, 1_000, 7, Vec::new(alloc))?;
    let mut manifest = Manifest::begin(&mut sink, &Head { yacc: file, form })?;
    let head = sink.written().len();
    manifest.entry(&mut sink, &entry)?;
    Ok(&sink.written()[head..] == wanted)
}

// Whether a row is as the format has it.
fn is_row(
    alloc: Global,
    file: &YaccFile,
    pieces: &TokenPieces<'_>,
    most: u16,
    row: &Row,
) -> Result<bool, Trouble>
    requires file { pieces.now.file ≡ file.now }
    requires most { length file.now.token_names ≡ most }
{
    let (negatives, token, wanted) = row;
    if !are_tokens(negatives.front, most) || !are_tokens(negatives.back, most) {
        return Ok(false);
    }
    if !is_pair(file, most, negatives.pair) || !are_tokens(&[*token], most) {
        return Ok(false);
    }
    let lines = OpenLines::new(alloc, file, negatives)?;
    is_filled(alloc, file, pieces, &lines, *token, wanted)
}

#[test]
fn filled_lines_stand_as_the_format_says(rt: HostRuntime) -> Result<(), Fail> {
    let alloc = rt.alloc();
    let (yacc, lex) = read_files(alloc, SUMS, SCANNER)?;
    let lexemes = lexemes_of(alloc, &yacc, &lex)?;
    let pieces = TokenPieces::new(alloc, &yacc, &lexemes)?;
    let most = yacc.grammar().tokens();
    for row in ROWS {
        assert!(rt; is_row(alloc, &yacc, &pieces, most, row)?);
    }
    Ok(())
}
