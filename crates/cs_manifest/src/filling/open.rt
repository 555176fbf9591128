// Negatives without the token that their edit puts, and their lines.

ghost use Rattle.std.specs.Prelude.{◌≡◌, IfOk};
ghost use Rattle.cs_manifest.specs.Output.Names.{IsNamedMark};
ghost use Rattle.cs_manifest.specs.Output.Putting.{Puts};
ghost use Rattle.cs_manifest.specs.Filling.Holes.{base_edit_words, left_words, part_words, right_words};
ghost use Rattle.cs_manifest.specs.Filling.Open.{AreLinesOf, IsNamedOpen, mark_in, place_of};

use crate::output::{
    Output, Piece, Speller, put_count, put_names, put_spaced_mark, put_text_bytes, put_yield,
    spelled_piece,
};
use cs_grammar::Mark;
use cs_io::Sink;
use cs_yacc::YaccFile;
use std::alloc::{AllocError, Global};
use std::marker::Model;

/// An edit without the token that it puts.
#[derive(Clone, Copy, Debug, PartialEq, Eq)]
pub enum OpenEdit {
    /// A token comes in front of the place.
    Insert(u32),
    /// A token comes in place of the one there.
    Replace(u32),
}

/// A pair of neighbours without the one of them that an edit puts.
#[derive(Clone, Copy, Debug, PartialEq, Eq)]
pub enum OpenPair {
    /// The token stands behind this mark.
    Behind(Mark),
    /// The token stands in front of this mark.
    Before(Mark),
}

/// The negatives of a base that differ in the token that their edit puts alone: that edit and the poisoned pair without the
/// token, the tokens in front of it and behind it, and the text in front of its lexeme and behind that.
#[derive(Clone, Copy)]
pub struct OpenNegative<'a> {
    pub base: u32,
    pub edit: OpenEdit,
    pub pair: OpenPair,
    pub front: &'a [u16],
    pub back: &'a [u16],
    pub text_front: &'a [u8],
    pub text_back: &'a [u8],
}

/// The lines of negatives that differ in the token that their edit puts alone, but for their number, that token and its lexeme.
#[derive(Drop)]
pub struct OpenLines {
    // Behind the number.
    pub(crate) head: Piece,
    // Between the token of the edit and that of the pair.
    pub(crate) pair: Piece,
    // Between the token of the pair and that of the edited list.
    pub(crate) list: Piece,
    // Between the token of the edited list and its lexeme.
    pub(crate) text: Piece,
    // Behind the lexeme.
    pub(crate) end: Piece,
}

impl Model for OpenLines {
    ghost use Rattle.cs_manifest.specs.Filling.Open.{LineParts};

    ghost Value = { LineParts };

    ghost view = { λ l. record { head = l.head; pair = l.pair; list = l.list; text = l.text; end = l.end } };
}

impl OpenLines {
    /// The lines of these negatives.
    pub fn new(
        alloc: Global,
        file: &YaccFile,
        negatives: &OpenNegative<'_>,
    ) -> Result<OpenLines, AllocError>
        requires { IsNamedOpen file.now negatives.now }
        ensures { IfOk result (AreLinesOf file.now negatives.now) }
    {
        let mut speller = Speller::new(alloc);
        Ok(OpenLines {
            head: part_piece(alloc, &mut speller, file, negatives, OpenPart::Head)?,
            pair: part_piece(alloc, &mut speller, file, negatives, OpenPart::Pair)?,
            list: part_piece(alloc, &mut speller, file, negatives, OpenPart::List)?,
            text: part_piece(alloc, &mut speller, file, negatives, OpenPart::Text)?,
            end: part_piece(alloc, &mut speller, file, negatives, OpenPart::End)?,
        })
    }
}

// A part of the lines, named as the field that has it.
#[derive(Clone, Copy)]
enum OpenPart {
    Head,
    Pair,
    List,
    Text,
    End,
}

fn part_piece(
    alloc: Global,
    speller: &mut Speller,
    file: &YaccFile,
    negatives: &OpenNegative<'_>,
    part: OpenPart,
) -> Result<Piece, AllocError>
    requires { IsNamedOpen file.now negatives.now }
    ensures { IfOk result (λ piece. piece ≡ part_words file.now negatives.now part) }
{
    let mut output = speller.output();
    put_part(&mut output, file, negatives, part);
    spelled_piece(alloc, &mut output)
}

fn put_part<S: Sink>(
    output: &mut Output<'_, S>,
    file: &YaccFile,
    negatives: &OpenNegative<'_>,
    part: OpenPart,
)
    requires { IsNamedOpen file.now negatives.now }
    ensures { Puts S.Sink (part_words file.now negatives.now part) output.old output.new }
{
    match part {
        OpenPart::Head => put_open_edit(output, negatives.base, negatives.edit),
        OpenPart::Pair => put_left(output, file, negatives.pair),
        OpenPart::List => {
            put_right(output, file, negatives.pair, edit_place(negatives.edit));
            put_yield(output, file, negatives.front);
        }
        OpenPart::Text => {
            put_names(output, file, negatives.back);
            output.put(b"\n  text \"");
            put_text_bytes(output, negatives.text_front);
        }
        OpenPart::End => {
            put_text_bytes(output, negatives.text_back);
            output.put(b"\"\n");
        }
    }
}

// ` base B EDIT`, without the token.
fn put_open_edit<S: Sink>(output: &mut Output<'_, S>, base: u32, edit: OpenEdit)
    ensures { Puts S.Sink (base_edit_words base edit) output.old output.new }
{
    put_count(output, b" base ", base as u64);
    match edit {
        OpenEdit::Insert(place) => put_count(output, b" insert ", place as u64),
        OpenEdit::Replace(place) => put_count(output, b" replace ", place as u64),
    }
}

// ` pair`, and the mark in front of the token, where there is one.
fn put_left<S: Sink>(output: &mut Output<'_, S>, file: &YaccFile, pair: OpenPair)
    requires { IsNamedMark file.now (mark_in pair) }
    ensures { Puts S.Sink (left_words file.now pair) output.old output.new }
{
    output.put(b" pair");
    match pair {
        OpenPair::Behind(left) => put_spaced_mark(output, file, left),
        OpenPair::Before(_) => {}
    }
}

// The mark behind the token, where there is one, and ` at K`.
fn put_right<S: Sink>(output: &mut Output<'_, S>, file: &YaccFile, pair: OpenPair, place: u32)
    requires { IsNamedMark file.now (mark_in pair) }
    ensures { Puts S.Sink (right_words file.now pair place) output.old output.new }
{
    match pair {
        OpenPair::Behind(_) => put_count(output, b" at ", place as u64),
        OpenPair::Before(right) => {
            put_spaced_mark(output, file, right);
            put_count(output, b" at ", place as u64 + 1);
        }
    }
}

fn edit_place(edit: OpenEdit) -> u32
    ensures { result ≡ place_of edit }
{
    match edit {
        OpenEdit::Insert(place) | OpenEdit::Replace(place) => place,
    }
}
