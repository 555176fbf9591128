// Parts of the lines of chains, spelled once for many chains.

ghost use Rattle.std.specs.Prelude.{◌≡◌, ◌↔◌, IsTrue, codes, decimal};
ghost use Rattle.cs_grammar.specs.Grammar.{IsNumberOf};
ghost use Rattle.cs_io.specs.Lines.{Writes};
ghost use Rattle.cs_manifest.specs.Output.Names.{AreNamedTokens, token_words};
ghost use Rattle.cs_manifest.specs.Output.Putting.{Puts};
ghost use Rattle.cs_manifest.specs.Output.Words.{line, numbered_word, spaced};
ghost use Rattle.cs_manifest.specs.Writer.Below.{derive_below};
ghost use Rattle.cs_chain_text.specs.Rows.Around.{Finds};
ghost use Rattle.cs_chain_text.specs.Rows.Parts.{IsNamedPart, head_words, middle_words, part_words};

use cs_chain::Chain;
use cs_io::{MemorySink, Sink, SinkError};
use cs_manifest::{LINE_LENGTH, Output, Piece, put_count, put_derivation, put_names, put_yield};
use cs_yacc::YaccFile;
use std::alloc::{AllocError, Global};

// A part of the lines of a chain.
#[derive(Clone, Copy)]
enum Part<'a> {
    // ` chain P I Q J`
    Head(Chain),
    // ` R`
    Number(u16),
    // The line of the derivation up to the inner node.
    Before(&'a [u16]),
    // Rule numbers.
    Code(&'a [u16]),
    // Rule numbers, and the line of the tokens up to those of the inner node.
    Middle(&'a [u16], &'a [u16]),
    // The names of tokens.
    Names(&'a [u16]),
    // The names of tokens, and a newline.
    End(&'a [u16]),
}

// Whether all of the numbers are of the file's tokens.
pub(crate) fn are_named(file: &YaccFile, tokens: &[u16]) -> bool
    ensures { IsTrue result → AreNamedTokens file.now tokens.now }
{
    let most = file.token_names().len();
    tokens.iter().all(|token| is_number_of(most, *token))
}

// Whether it is a number from 1 to the last.
pub(crate) fn is_number_of(most: usize, number: u16) -> bool
    ensures { IsTrue result ↔ IsNumberOf most number }
{
    0 < number && number as usize <= most
}

fn put_numbers<S: Sink>(output: &mut Output<'_, S>, numbers: &[u16])
    ensures { Puts S.Sink (spaced decimal numbers.now) output.old output.new }
{
    for number in numbers {
        output.put(b" ");
        output.put_number(*number as u64);
    }
}

fn put_head<S: Sink>(output: &mut Output<'_, S>, chain: Chain)
    ensures { Puts S.Sink (head_words chain) output.old output.new }
{
    put_count(output, b" chain ", chain.outer as u64);
    put_count(output, b" ", chain.place as u64);
    put_count(output, b" ", chain.middle as u64);
    put_count(output, b" ", chain.spot as u64);
}

fn put_part<S: Sink>(output: &mut Output<'_, S>, file: &YaccFile, part: Part<'_>)
    requires { IsNamedPart file.now part }
    ensures { Puts S.Sink (part_words file.now part.entry) output.old output.new }
{
    match part {
        Part::Head(chain) => put_head(output, chain),
        Part::Number(rule) => put_count(output, b" ", rule as u64),
        Part::Before(rules) => put_derivation(output, rules),
        Part::Code(rules) => put_numbers(output, rules),
        Part::Middle(rules, tokens) => {
            put_numbers(output, rules);
            put_yield(output, file, tokens);
        }
        Part::Names(tokens) => put_names(output, file, tokens),
        Part::End(tokens) => {
            put_names(output, file, tokens);
            output.put(b"\n");
        }
    }
}

fn write_part<S: Sink>(sink: &mut S, file: &YaccFile, part: Part<'_>) -> Result<(), SinkError>
    requires { IsNamedPart file.now part }
    ensures { Writes S.Sink result (part_words file.now part.entry) sink.old sink.new }
{
    let mut line = [0u8; LINE_LENGTH];
    let mut output = Output::new(sink, &mut line, 0);
    put_part(&mut output, file, part);
    output.end()?;
    Ok(())
}

// The part as a piece. None where it is longer than so many bytes, as of those below.
fn part_piece(
    alloc: Global,
    file: &YaccFile,
    part: Part<'_>,
    most: usize,
) -> Result<Option<Piece>, AllocError>
    requires { IsNamedPart file.now part }
    ensures { Finds (λ piece. piece ≡ part_words file.now part.entry) result }
{
    let mut sink = MemorySink::new(alloc, most, LINE_LENGTH, Vec::new(alloc))?;
    match write_part(&mut sink, file, part) {
        Ok(()) => Ok(Some(Piece::new(alloc, sink.written())?)),
        Err(_) => Ok(None),
    }
}

// The names of tokens as a piece.
pub(crate) fn names_piece(
    alloc: Global,
    file: &YaccFile,
    tokens: &[u16],
    most: usize,
) -> Result<Option<Piece>, AllocError>
    requires { AreNamedTokens file.now tokens.now }
    ensures { Finds (λ piece. piece ≡ token_words file.now tokens.now) result }
{
    part_piece(alloc, file, Part::Names(tokens), most)
}

// The names of tokens and a newline as a piece.
pub(crate) fn end_piece(
    alloc: Global,
    file: &YaccFile,
    tokens: &[u16],
    most: usize,
) -> Result<Option<Piece>, AllocError>
    requires { AreNamedTokens file.now tokens.now }
    ensures { Finds (λ piece. piece ≡ line (token_words file.now tokens.now)) result }
{
    part_piece(alloc, file, Part::End(tokens), most)
}

// Rule numbers as a piece.
pub(crate) fn code_piece(
    alloc: Global,
    file: &YaccFile,
    rules: &[u16],
    most: usize,
) -> Result<Option<Piece>, AllocError>
    ensures { Finds (λ piece. piece ≡ spaced decimal rules.now) result }
{
    part_piece(alloc, file, Part::Code(rules), most)
}

// The line of a derivation up to the inner node as a piece.
pub(crate) fn before_piece(
    alloc: Global,
    file: &YaccFile,
    rules: &[u16],
    most: usize,
) -> Result<Option<Piece>, AllocError>
    ensures { Finds (λ piece. piece ≡ derive_below rules.now) result }
{
    part_piece(alloc, file, Part::Before(rules), most)
}

// Rule numbers, and the line of the tokens up to those of the inner node, as a piece.
pub(crate) fn middle_piece<'a>(
    alloc: Global,
    file: &YaccFile,
    rules: &'a [u16],
    tokens: &'a [u16],
    most: usize,
) -> Result<Option<Piece>, AllocError>
    requires { AreNamedTokens file.now tokens.now }
    ensures { Finds (λ piece. piece ≡ middle_words file.now rules.now tokens.now) result }
{
    part_piece(alloc, file, Part::Middle(rules, tokens), most)
}

// ` chain P I Q J` as a piece.
pub(crate) fn head_piece(
    alloc: Global,
    file: &YaccFile,
    chain: Chain,
    most: usize,
) -> Result<Option<Piece>, AllocError>
    ensures { Finds (λ piece. piece ≡ head_words chain) result }
{
    part_piece(alloc, file, Part::Head(chain), most)
}

// ` R` as a piece.
pub(crate) fn number_piece(
    alloc: Global,
    file: &YaccFile,
    rule: u16,
    most: usize,
) -> Result<Option<Piece>, AllocError>
    ensures { Finds (λ piece. piece ≡ numbered_word (codes " ") rule) result }
{
    part_piece(alloc, file, Part::Number(rule), most)
}
