// Reads a whole file.

ghost use Rattle.std.specs.Prelude.{◌≡◌, ◌≤◌, IfOk, None, length, map};
ghost use Rattle.cs_bytes.specs.Limits.{most_bytes};
ghost use Rattle.cs_yacc.specs.Items.Table.{IsTaken};
ghost use Rattle.cs_yacc.specs.Items.Views.{placed_all};
ghost use Rattle.cs_yacc.specs.Reading.File.{IsFile};
ghost use Rattle.cs_yacc.specs.Reading.Finding.{IsGiven, FitsLimits, left_in};
ghost use Rattle.cs_yacc.specs.Reading.Meaning as spec;
ghost use Rattle.cs_yacc.specs.Reading.Meaning.{file_or_limit as given_by};
ghost use Rattle.cs_yacc.specs.Reading.AcceptedView.{parts_at};
ghost use Rattle.cs_yacc.specs.Reading.Marks.{AreApart};
ghost use Rattle.cs_yacc.specs.Reading.PartsView.{parts_in};
ghost use Rattle.cs_yacc.specs.Reading.Places.{HasPlaces};
ghost use Rattle.cs_yacc.specs.Reading.Reading.{Answers};
ghost use Rattle.cs_yacc.specs.Reading.SpellingView.{spelling_of, spellings_of, items_in};

use crate::items::{Placed, read_items, syntax_fault};
use crate::reading::accepted::Accepted;
use crate::reading::error::YaccError;
use crate::reading::fault::{behind_start, first_item, first_start, name_fault};
use crate::reading::file::YaccFile;
use crate::reading::gather::{declared, nonterminals, tokens, used};
use crate::reading::limit::check_limits;
use crate::reading::meaning::{Meant, with_meaning};
use crate::reading::name::{Name, TokenName};
use crate::reading::number::{productions, start_number};
use crate::reading::parts::Parts;
use crate::reading::spelled::kept_rules;
use crate::reading::spelling::{Spelling, Spellings};
use crate::reading::token_names::TokenNames;
use cs_grammar::Grammar;
use std::alloc::{AllocError, Global};

fn token_name(alloc: Global, spelling: Spelling<'_>) -> Result<TokenName, AllocError>
    ensures { IfOk result (λ n. n ≡ spelling_of spelling.entry) }
{
    match spelling {
        Spelling::Named(name) => Ok(TokenName::Word(Name::new(Vec::from_slice(alloc, name)?))),
        Spelling::Quoted(byte) => Ok(TokenName::Byte(byte)),
    }
}

fn token_names(alloc: Global, spellings: &[Spelling<'_>]) -> Result<Vec<TokenName>, AllocError>
    ensures { IfOk result (λ v. v.items ≡ spellings_of spellings.now) }
{
    let mut names = Vec::new(alloc);
    for spelling in spellings {
        names.push(token_name(alloc, *spelling)?)?;
    }
    Ok(names)
}

fn nonterminal_name(alloc: Global, spelling: Spelling<'_>) -> Result<Name, AllocError>
    ensures { IfOk result (λ n. n ≡ spec.bytes_of (spelling_of spelling.entry)) }
{
    match spelling {
        Spelling::Named(name) => Ok(Name::new(Vec::from_slice(alloc, name)?)),
        Spelling::Quoted(byte) => Ok(Name::new(vec![in alloc; byte]?)),
    }
}

fn nonterminal_names(alloc: Global, spellings: &[Spelling<'_>]) -> Result<Vec<Name>, AllocError>
    ensures { IfOk result (λ v. v.items ≡ map spec.bytes_of (spellings_of spellings.now)) }
{
    let mut names = Vec::new(alloc);
    for spelling in spellings {
        names.push(nonterminal_name(alloc, *spelling)?)?;
    }
    Ok(names)
}

fn build(alloc: Global, file: &Accepted<'_, '_, '_>) -> Result<YaccFile, AllocError>
    requires { IsFile (spec.file_with (parts_at file.now)) }
    ensures { IfOk result (λ f. f ≡ spec.file_with (parts_at file.now)) }
{
    let parts = file.parts;
    let token_names = TokenNames::new(alloc, token_names(alloc, parts.tokens.as_slice())?)?;
    let nonterminal_names = nonterminal_names(alloc, parts.lefts.as_slice())?;
    let rules = productions(alloc, file)?;
    let start = start_number(file);
    let grammar = Grammar::new(
        parts.tokens.len() as u16,
        parts.lefts.len() as u16,
        start,
        rules,
    );
    Ok(YaccFile::new(grammar, token_names, nonterminal_names))
}

/// The file that the parts make, or the first limit that they pass.
fn file_or_limit(alloc: Global, parts: &Parts<'_, '_>) -> Result<YaccFile, YaccError>
    requires { FitsLimits (parts_in parts.now) }
    ensures { IsGiven result (spec.file_or_limit (parts_in parts.now)) }
{
    match check_limits(parts) {
        Ok(()) => {
            let accepted = Accepted { parts };
            Ok(build(alloc, &accepted)?)
        }
        Err(fault) => Err(fault),
    }
}

/// What the items with a meaning give, where no name is at fault.
fn file_of<'a>(
    alloc: Global,
    meant: &Meant<'a>,
    start: Option<Placed<'a>>,
    lefts: Spellings<'a>,
) -> Result<YaccFile, YaccError>
    requires few { length meant.now.items.items ≤ most_bytes }
    requires few_words { length meant.now.words ≤ most_bytes }
    requires places { HasPlaces meant.now }
    requires apart { AreApart meant.now.words }
    requires lefts { lefts ≡ spec.nonterminals (items_in meant.now.items.items) }
    requires fits { FitsLimits (left_in meant.now.words start meant.now.items.items) }
    ensures { IsGiven result
        (given_by (left_in meant.now.words start.entry meant.now.items.items)) }
{
    let words = &meant.words;
    let rules = kept_rules(alloc, words, &meant.items, &meant.places)?;
    let used = used(alloc, words, &rules)?;
    let tokens = tokens(alloc, words, &used, &lefts)?;
    let parts = Parts {
        words,
        tokens,
        lefts,
        start,
        rules,
    };
    file_or_limit(alloc, &parts)
}

/// What the items mean, where the table takes them.
fn meaning(alloc: Global, all: Vec<Placed<'_>>) -> Result<YaccFile, YaccError>
    requires few { length all.items ≤ most_bytes }
    requires taken { IsTaken (items_in all.items) }
    ensures { IsGiven result (spec.outcome (placed_all all.entry.items)) }
{
    let rest = behind_start(&all);
    if let Some(at) = first_start(rest) {
        return Err(YaccError::SecondStart { at });
    }
    let start = first_item(rest);
    let meant = with_meaning(alloc, all)?;
    let declared = declared(alloc, &meant.items)?;
    let lefts = nonterminals(alloc, &meant.items)?;
    match name_fault(start, &meant.items, &meant.words, &declared, &lefts) {
        Some(fault) => Err(fault),
        None => file_of(alloc, &meant, start, lefts),
    }
}

/// Reads a yacc file of at most 1,048,576 bytes: the marks, prologues, directives, names, literals, numbers, tags, blocks
/// and signs of POSIX yacc's grammar file, with `%empty` and `%precedence`.
///
/// `Ok` comes exactly where the bytes are accepted, with the file that they mean. `BadItem`, `Unended` and
/// `UnknownDirective` come where reading of items stops, then `Syntax` where the items stand in a wrong order, then the
/// faults of names in the order of `YaccError`, then `Limit`. `Memory` is want of memory. Source: POSIX yacc, the grammar
/// file.
pub fn read_yacc(alloc: Global, bytes: &[u8]) -> Result<YaccFile, YaccError>
    requires { length bytes.now ≤ most_bytes }
    ensures { Answers bytes.now result }
{
    match read_items(alloc, bytes) {
        Ok(items) => match syntax_fault(&items, bytes.len()) {
            Some(at) => Err(YaccError::Syntax { at }),
            None => meaning(alloc, items),
        },
        Err(error) => Err(YaccError::from(error)),
    }
}
