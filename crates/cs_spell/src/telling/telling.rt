// What is told of each scanner rule.

ghost use Rattle.std.specs.Prelude.{◌≡◌, ◌+◌, ◌<◌, ◌≤◌, IfOk, Some, length, slice_get};
ghost use Rattle.cs_lexical.specs.Least.{rules_of};
ghost use Rattle.cs_spell.specs.Telling.Seen.{all_told, making_of};
ghost use Rattle.cs_spell.specs.Telling.Spelling.{AreTold};
ghost use Rattle.cs_spell.specs.Telling.Telling.{AreTextsFor, AreTools, IsChoiceOf, IsJudgedText, IsRenderedBy, Tells, TellsBy, TellsOf};
ghost use Rattle.cs_spell.specs.Texts.Texts.{IsFirstPlace, IsWayOf};
ghost use Rattle.cs_texts.specs.Rendering.Rendering.{AreTokens, rendering};

use crate::telling::choosing::{choose, has_large};
use crate::telling::judged::Judged;
use crate::telling::told::{Shown, Told};
use crate::texts::{Gathered, Way, gather, has_match, spell};
use cs_grammar::number_of;
use cs_lexical::Lexical;
use cs_pattern_parts::Kind;
use cs_scanner::{Agreement, Scanner, agrees};
use cs_texts::{RenderWork, Rendered};
use cs_verdicts::Verdict;
use cs_yacc::YaccFile;
use std::alloc::{AllocError, Global};

/// What spellings are made with.
#[derive(Clone, Copy)]
pub(crate) struct Tools<'a> {
    pub(crate) file: &'a YaccFile,
    pub(crate) work: &'a RenderWork<'a>,
    pub(crate) judged: &'a [Judged],
}

// The first place of the token; where it isn't there, how many tokens there are.
fn first_place(tokens: &[u16], token: u16) -> usize
    ensures { IsFirstPlace tokens.now token result }
{
    for place in 0..tokens.len() {
        if tokens[place] == token {
            return place;
        }
    }
    tokens.len()
}

// How the spelling stands in the text of the tokens.
fn way_of(wanted: Option<u16>, tokens: &[u16]) -> Way
    ensures { IsWayOf wanted tokens.now result }
{
    match wanted {
        Some(token) => Way::Gives {
            token,
            place: first_place(tokens, token),
        },
        None => Way::Skips,
    }
}

// What comes of a text with the spelling.
fn judge_text(
    scanner: &Scanner<'_>,
    text: Vec<u8>,
    tokens: &[u16],
    rule: u16,
    spelling: &[u8],
) -> Rendered
    requires { length tokens.now ≤ 1000000 }
    ensures { IsJudgedText scanner.now text.items tokens.now rule spelling.now (rendering result) }
{
    match agrees(scanner, &text, tokens) {
        Agreement::Differs { after } => Rendered::Differs { after },
        Agreement::Whole => {
            if has_match(scanner, &text, rule, spelling) {
                Rendered::Text(text)
            } else {
                Rendered::Differs {
                    after: tokens.len() as u32,
                }
            }
        }
    }
}

// What comes of the tokens with the spelling.
fn render_with(
    alloc: Global,
    tools: &Tools<'_>,
    tokens: &[u16],
    way: Way,
    rule: u16,
    spelling: &[u8],
) -> Result<Rendered, AllocError>
    requires tokens { AreTokens tools.now.work.now.lexemes.now tokens.now }
    requires few { length tokens.now ≤ 1000000 }
    ensures { IfOk result (IsRenderedBy tools.now tokens.now way rule spelling.now) }
{
    let work = tools.work;
    let pieces = match gather(alloc, work.lexemes, tokens)? {
        Gathered::All(pieces) => pieces,
        Gathered::Without(token) => return Ok(Rendered::NoLexeme(token)),
    };
    let text = spell(alloc, way, work.separator, spelling, pieces)?;
    Ok(judge_text(work.scanner, text, tokens, rule, spelling))
}

// The spelling of a rule, shown in the goal of the rule at the place.
fn show<'a>(
    alloc: Global,
    tools: &Tools<'a>,
    wanted: Option<u16>,
    rule: u16,
    spelling: &[u8],
    place: usize,
) -> Result<Told<'a>, AllocError>
    requires tools { AreTools tools.now }
    requires chosen { IsChoiceOf tools.now wanted place }
    ensures { IfOk result (TellsOf tools.now wanted rule spelling.now) }
{
    let judged = &tools.judged[place];
    let Verdict::Feasible { size, derivation } = judged.verdict() else {
        return Ok(Told::Infeasible);
    };
    let tokens = judged.tokens();
    let way = way_of(wanted, tokens);
    let rendered = render_with(alloc, tools, tokens, way, rule, spelling)?;
    Ok(Told::Shown(Shown {
        way,
        rule: number_of(place),
        size: *size,
        derivation,
        tokens,
        rendered,
    }))
}

// What is told of the spelling of a rule that gives the token, or of one that is skipped.
fn tell_of<'a>(
    alloc: Global,
    tools: &Tools<'a>,
    wanted: Option<u16>,
    rule: u16,
    spelling: &[u8],
) -> Result<Told<'a>, AllocError>
    requires { AreTools tools.now }
    ensures { IfOk result (TellsOf tools.now wanted rule spelling.now) }
{
    let grammar = tools.file.grammar();
    match choose(grammar, tools.judged, wanted) {
        Some(place) => show(alloc, tools, wanted, rule, spelling, place),
        None => {
            if has_large(grammar, tools.judged, wanted) {
                Ok(Told::Large)
            } else {
                Ok(Told::Infeasible)
            }
        }
    }
}

// What is told of a rule of the kind that wins the text.
fn tell_kind<'a>(
    alloc: Global,
    tools: &Tools<'a>,
    kind: Kind,
    rule: u16,
    spelling: &[u8],
) -> Result<Told<'a>, AllocError>
    requires { AreTools tools.now }
    ensures { IfOk result (TellsBy tools.now kind rule spelling.now) }
{
    match kind {
        Kind::Foreign => Ok(Told::Foreign),
        Kind::OwnByte => Ok(Told::Literal),
        Kind::Token(token) => tell_of(alloc, tools, Some(token), rule, spelling),
        Kind::Skip => tell_of(alloc, tools, None, rule, spelling),
    }
}

// What is told of the rule.
fn tell<'a>(
    alloc: Global,
    tools: &Tools<'a>,
    lexical: &Lexical,
    kind: Kind,
    rule: u16,
) -> Result<Told<'a>, AllocError>
    requires tools { AreTools tools.now }
    requires lexical { AreTextsFor tools.now lexical.now }
    requires from_1 { 0 < rule }
    requires within { rule ≤ rules_of lexical.now }
    ensures { IfOk result (Tells tools.now rule kind) }
{
    match lexical.wins(rule) {
        Some(spelling) => tell_kind(alloc, tools, kind, rule, spelling),
        None => Ok(Told::Shadowed),
    }
}

/// What is told of all rules, in order.
pub(crate) fn tell_all<'a>(
    alloc: Global,
    tools: &Tools<'a>,
    lexical: &Lexical,
) -> Result<Vec<Told<'a>>, AllocError>
    requires tools { AreTools tools.now }
    requires lexical { AreTextsFor tools.now lexical.now }
    requires few { length tools.now.work.now.scanner.now.kinds.now ≤ 2048 }
    ensures { IfOk result (λ told. AreTold (making_of tools.now) (all_told told.items)) }
{
    let kinds = tools.work.scanner.kinds;
    let mut told = Vec::new(alloc);
    for place in 0..kinds.len() {
        told.push(tell(alloc, tools, lexical, kinds[place], number_of(place))?)?;
    }
    Ok(told)
}
