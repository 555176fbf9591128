//! Negatives of a base that are made one after another: their lines were written by hand from the page on formats.

ghost use Rattle.std.specs.Prelude.{◌≡◌, ◌≤◌, All, IsSome, IsTrue, length};
ghost use Rattle.cs_grammar.specs.Grammar.{IsNumberOf};
ghost use Rattle.cs_manifest.specs.Output.Names.{IsNamedMark};
ghost use Rattle.cs_writing.specs.Mutants.Makers.{CanRender};

use crate::mutants::compared::is_short_list;
use crate::mutants::work::with_work;
use cs_grammar::Mark;
use cs_io::{MemorySink, NullSink};
use cs_manifest::{Form, Head, Manifest, Numeral};
use cs_mutate::{Edit, Negative, edit_fits};
use cs_sample_files::Trouble;
use cs_samples::{SCANNER, SUMS};
use cs_texts::RenderWork;
use cs_writing::{MadeNegative, Maker, Tools};
use cs_yacc::YaccFile;
use std::alloc::Global;
use std::test::Fail;

// A negative, and its lines as number 9 of base 2.
type Row = (Negative, &'static [u8]);

// A base of a file with so many tokens.
#[derive(Clone, Copy)]
struct Base<'a> {
    yacc: &'a YaccFile,
    most: u16,
    tokens: &'a [u16],
}

// Whether a mark is of a file with so many tokens.
fn is_mark(yacc: &YaccFile, most: u16, mark: Mark) -> bool
    requires { length yacc.now.token_names ≡ most }
    ensures { IsTrue result → IsNamedMark yacc.now mark }
{
    match mark {
        Mark::Token(token) => 0 < token && token <= most,
        Mark::Begin | Mark::End => true,
    }
}

// Whether the lines of what is made are these.
fn has_lines(
    alloc: Global,
    yacc: &YaccFile,
    made: &MadeNegative<'_>,
    lines: &[u8],
) -> Result<bool, Trouble>
    requires made { IsSome made.now.negative }
    requires file { made.now.making.tools.file ≡ yacc.now }
{
    let form = Form::Rules;
    let mut manifest = Manifest::begin(&mut NullSink::new(), &Head { yacc, form })?;
    let mut sink = MemorySink::new(alloc, 1_000, 7, Vec::new(alloc))?;
    made.write(&Numeral::new(9), &mut manifest, &mut sink)?;
    Ok(sink.written() == lines)
}

// Makes a row's negative; whether its lines are the row's.
fn is_made(
    alloc: Global,
    base: Base<'_>,
    made: &mut MadeNegative<'_>,
    row: &Row,
) -> Result<bool, Trouble>
    requires file { made.old.making.tools.file ≡ base.yacc.now }
    requires base { made.old.making.base ≡ base.tokens.now }
    requires names { length base.yacc.now.token_names ≡ base.most }
    requires work { CanRender made.old.making.tools.work base.most }
    requires short { length base.tokens.now ≤ 1000 }
    requires tokens { All (IsNumberOf base.most) base.tokens.now }
    ensures { made.new.making ≡ made.old.making }
{
    let (negative, lines) = row;
    if !is_mark(base.yacc, base.most, negative.left) {
        return Ok(false);
    }
    if !is_mark(base.yacc, base.most, negative.right) {
        return Ok(false);
    }
    if !edit_fits(base.tokens.len() as u32, base.most, &negative.edit) {
        return Ok(false);
    }
    made.make(negative)?;
    has_lines(alloc, base.yacc, made, lines)
}

// Makes each in the memory of the one before.
fn are_made(alloc: Global, base: Base<'_>, maker: &Maker<'_>, rows: &[Row]) -> Result<bool, Trouble>
    requires file { maker.now.tools.file ≡ base.yacc.now }
    requires base { maker.now.base ≡ base.tokens.now }
    requires names { length base.yacc.now.token_names ≡ base.most }
    requires work { CanRender maker.now.tools.work base.most }
    requires short { length base.tokens.now ≤ 1000 }
    requires tokens { All (IsNumberOf base.most) base.tokens.now }
{
    let mut made = MadeNegative::new(alloc, maker);
    for row in rows {
        if !is_made(alloc, base, &mut made, row)? {
            return Ok(false);
        }
    }
    Ok(true)
}

fn are_made_of(
    alloc: Global,
    base: Base<'_>,
    work: &RenderWork<'_>,
    rows: &[Row],
) -> Result<bool, Trouble>
    requires { CanRender work.now base.most }
{
    if base.yacc.token_names().len() != base.most as usize {
        return Err(Trouble::TooLong);
    }
    if !is_short_list(base.tokens, base.most) {
        return Err(Trouble::TooLong);
    }
    let tools = Tools::new(alloc, base.yacc, work)?;
    let maker = Maker::new(alloc, &tools, 2, base.tokens)?;
    are_made(alloc, base, &maker, rows)
}

// Whether the negatives of a base of sums, with this between two lexemes, have the lines of the rows.
fn are_sums(
    alloc: Global,
    separator: &[u8],
    tokens: &[u16],
    rows: &[Row],
) -> Result<bool, Trouble> {
    with_work(alloc, (SUMS, SCANNER), separator, |yacc, work, most| {
        are_made_of(alloc, Base { yacc, most, tokens }, work, rows)
    })
}

// NUM is 1, '+' is 2, '(' is 3 and ')' is 4.
const NUM: Mark = Mark::Token(1);

const PLUS: Mark = Mark::Token(2);

const OPEN: Mark = Mark::Token(3);

const CLOSE: Mark = Mark::Token(4);

// Of the base NUM '+' NUM, with a space between lexemes: ')' has a lexeme too, and each stands apart.
const APART: &[Row] = &[
    (
        Negative {
            edit: Edit::Delete(0),
            left: Mark::Begin,
            right: PLUS,
            at: 0,
        },
        b"negative 9 base 2 delete 0 pair <begin> '+' at 0\n  tokens '+' NUM\n  text \"+ 0\"\n",
    ),
    (
        Negative {
            edit: Edit::Insert(1, 1),
            left: NUM,
            right: NUM,
            at: 1,
        },
        b"negative 9 base 2 insert 1 NUM pair NUM NUM at 1\n  tokens NUM NUM '+' NUM\n  text \"0 0 + 0\"\n",
    ),
    (
        Negative {
            edit: Edit::Insert(1, 3),
            left: NUM,
            right: OPEN,
            at: 1,
        },
        b"negative 9 base 2 insert 1 '(' pair NUM '(' at 1\n  tokens NUM '(' '+' NUM\n  text \"0 ( + 0\"\n",
    ),
    (
        Negative {
            edit: Edit::Insert(0, 4),
            left: Mark::Begin,
            right: CLOSE,
            at: 0,
        },
        b"negative 9 base 2 insert 0 ')' pair <begin> ')' at 0\n  tokens ')' NUM '+' NUM\n  text \") 0 + 0\"\n",
    ),
    (
        Negative {
            edit: Edit::Insert(3, 2),
            left: PLUS,
            right: Mark::End,
            at: 4,
        },
        b"negative 9 base 2 insert 3 '+' pair '+' <end> at 4\n  tokens NUM '+' NUM '+'\n  text \"0 + 0 +\"\n",
    ),
    (
        Negative {
            edit: Edit::Replace(0, 3),
            left: OPEN,
            right: PLUS,
            at: 1,
        },
        b"negative 9 base 2 replace 0 '(' pair '(' '+' at 1\n  tokens '(' '+' NUM\n  text \"( + 0\"\n",
    ),
    (
        Negative {
            edit: Edit::Replace(2, 4),
            left: PLUS,
            right: CLOSE,
            at: 2,
        },
        b"negative 9 base 2 replace 2 ')' pair '+' ')' at 2\n  tokens NUM '+' ')'\n  text \"0 + )\"\n",
    ),
    (
        Negative {
            edit: Edit::Swap(0),
            left: Mark::Begin,
            right: PLUS,
            at: 0,
        },
        b"negative 9 base 2 swap 0 pair <begin> '+' at 0\n  tokens '+' NUM NUM\n  text \"+ 0 0\"\n",
    ),
];

// The same without a separator: two numbers are one.
const JOINED: &[Row] = &[
    (
        Negative {
            edit: Edit::Replace(0, 3),
            left: OPEN,
            right: PLUS,
            at: 1,
        },
        b"negative 9 base 2 replace 0 '(' pair '(' '+' at 1\n  tokens '(' '+' NUM\n  text \"(+0\"\n",
    ),
    (
        Negative {
            edit: Edit::Delete(1),
            left: NUM,
            right: NUM,
            at: 1,
        },
        b"negative 9 base 2 delete 1 pair NUM NUM at 1\n  tokens NUM NUM\n  no text scan 1\n",
    ),
    (
        Negative {
            edit: Edit::Insert(3, 2),
            left: PLUS,
            right: Mark::End,
            at: 4,
        },
        b"negative 9 base 2 insert 3 '+' pair '+' <end> at 4\n  tokens NUM '+' NUM '+'\n  text \"0+0+\"\n",
    ),
];

// Of a base of two numbers, which has no text itself.
const RENDERED: &[Row] = &[
    (
        Negative {
            edit: Edit::Insert(0, 2),
            left: Mark::Begin,
            right: PLUS,
            at: 0,
        },
        b"negative 9 base 2 insert 0 '+' pair <begin> '+' at 0\n  tokens '+' NUM NUM\n  no text scan 2\n",
    ),
    (
        Negative {
            edit: Edit::Replace(0, 4),
            left: Mark::Begin,
            right: CLOSE,
            at: 0,
        },
        b"negative 9 base 2 replace 0 ')' pair <begin> ')' at 0\n  tokens ')' NUM\n  text \")0\"\n",
    ),
];

#[test]
fn negatives_of_sums(rt: HostRuntime) -> Result<(), Fail> {
    let alloc = rt.alloc();
    assert!(rt; are_sums(alloc, b" ", &[1, 2, 1], APART)?);
    assert!(rt; are_sums(alloc, b"", &[1, 2, 1], JOINED)?);
    assert!(rt; are_sums(alloc, b"", &[1, 1], RENDERED)?);
    Ok(())
}
