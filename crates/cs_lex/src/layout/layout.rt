// The layout of a lex file.

ghost use Rattle.std.specs.Prelude.{◌≡◌, ◌≤◌, ◌<◌, ◌+◌, ◌-◌, length, drop, IfOk, IfErr};
ghost use Rattle.cs_bytes.specs.Limits.{most_bytes};
ghost use Rattle.cs_lex.specs.declared.layout.line.LineKind.TheVariants as kinds;
ghost use Rattle.cs_lex.specs.Layout.Answers.{AnswersLayout};
ghost use Rattle.cs_lex.specs.Layout.Forms as forms;
ghost use Rattle.cs_lex.specs.Layout.Lines as lines;
ghost use Rattle.cs_lex.specs.Layout.Lies.{RulesLie};
ghost use Rattle.cs_lex.specs.Layout.Answers.{LayoutLies};
ghost use Rattle.cs_lex.specs.Layout.Places as places;
ghost use Rattle.cs_lex.specs.Layout.Places.{IsBehind, SectionLies, FindsDefinitionsLine, FindsRulesLine, AnswersDefinitions, AnswersRules};

use crate::layout::error::LayoutError;
use crate::layout::forms::{
    RuleLine, block_size, definition_form, line_of, loose_run, rule_form, unknown_option,
};
use crate::layout::line::{LineKind, definitions_kind, rules_kind};
use crate::layout::names::{add_name, bytes_of};
use crate::layout::parts::{Definition, Part, Rule};
use crate::layout::run::Run;
use cs_bytes::{from_offset, line_size};
use indexmap::IndexSet;
use std::alloc::Global;

/// The definitions and the rules of a lex file, in order.
#[derive(Debug, Drop)]
pub struct Layout {
    pub definitions: Vec<Definition>,
    pub rules: Vec<Rule>,
}

/// The definitions of a file, and the offset behind their section.
#[derive(Drop)]
struct Section {
    definitions: Vec<Definition>,
    behind: usize,
}

/// What a line of the definitions section is, and the offset behind it.
pub(crate) enum DefinitionsLine {
    End(usize),
    Passed(usize),
    Definition(Definition, usize),
}

/// What a line of the rules section is, and the offset behind it.
pub(crate) enum RulesLine {
    End,
    Passed(usize),
    Rule(Rule, usize),
}

/// The offset behind the block at the offset.
fn block_at(bytes: &[u8], at: usize) -> Result<usize, LayoutError>
    requires within { at < length bytes.now }
    requires short { length bytes.now ≤ most_bytes }
    ensures closed { IfOk result (λ to. forms.IsCodeBlock (drop at bytes.now) (to - at)) }
    ensures within { IfOk result (IsBehind bytes.now at) }
    ensures unclosed { IfErr result (places.IsOpenBlock bytes.now at) }
{
    match block_size(from_offset(bytes, at)) {
        Some(size) => Ok(at + size),
        None => Err(LayoutError::Unended { at: at as u32 }),
    }
}

/// The offset behind the loose text at the offset.
fn loose_at(bytes: &[u8], at: usize) -> Result<usize, LayoutError>
    requires within { at < length bytes.now }
    requires short { length bytes.now ≤ most_bytes }
    ensures closed { IfOk result (λ to. forms.IsLoose (drop at bytes.now) (to - at)) }
    ensures within { IfOk result (IsBehind bytes.now at) }
    ensures unclosed { IfErr result (places.IsOpenLoose bytes.now at) }
{
    match loose_run(from_offset(bytes, at)) {
        Run::To(size) => Ok(at + size),
        Run::Open(size) => {
            let open = at + size;
            Err(LayoutError::Unended { at: open as u32 })
        }
    }
}

/// The offset behind the `%option` line at the offset.
fn options_at(bytes: &[u8], at: usize) -> Result<usize, LayoutError>
    requires within { at + 7 ≤ length bytes.now }
    requires short { length bytes.now ≤ most_bytes }
    ensures known { IfOk result (places.AreOptionsTo bytes.now at) }
    ensures within { IfOk result (IsBehind bytes.now at) }
    ensures unknown { IfErr result (places.IsUnknownOption bytes.now at) }
{
    let text = from_offset(bytes, at);
    match unknown_option(text) {
        Some(len) => {
            let unknown = at + 7 + len;
            Err(LayoutError::UnknownOption { at: unknown as u32 })
        }
        None => Ok(at + line_size(text)),
    }
}

/// The definition at the offset.
fn definition_at(bytes: &[u8], at: usize) -> Result<Definition, LayoutError>
    requires within { at < length bytes.now }
    requires short { length bytes.now ≤ most_bytes }
    requires kind { lines.definitions_kind (drop at bytes.now) ≡ kinds.Definition }
    ensures definition { IfOk result (places.FindsDefinition bytes.now at) }
    ensures none { IfErr result (places.IsNoDefinitionThere bytes.now at) }
{
    match definition_form(line_of(from_offset(bytes, at))) {
        Some(form) => Ok(Definition {
            at,
            name: Part {
                from: at,
                to: at + form.name_to,
            },
            substitute: Part {
                from: at + form.from,
                to: at + form.to,
            },
        }),
        None => Err(LayoutError::Layout { at: at as u32 }),
    }
}

/// The line of the definitions section at the offset.
pub(crate) fn definitions_line(bytes: &[u8], at: usize) -> Result<DefinitionsLine, LayoutError>
    requires within { at < length bytes.now }
    requires short { length bytes.now ≤ most_bytes }
    ensures { FindsDefinitionsLine bytes.now at result }
{
    let text = from_offset(bytes, at);
    let end = at + line_size(text);
    match definitions_kind(text) {
        LineKind::SectionEnd => Ok(DefinitionsLine::End(end)),
        LineKind::Block => Ok(DefinitionsLine::Passed(block_at(bytes, at)?)),
        LineKind::Options => Ok(DefinitionsLine::Passed(options_at(bytes, at)?)),
        LineKind::Skipped => Ok(DefinitionsLine::Passed(end)),
        LineKind::Loose => Ok(DefinitionsLine::Passed(loose_at(bytes, at)?)),
        LineKind::Definition => Ok(DefinitionsLine::Definition(definition_at(bytes, at)?, end)),
        LineKind::Unknown => Err(LayoutError::UnknownDirective { at: at as u32 }),
        LineKind::Conditions => Err(LayoutError::StartCondition { at: at as u32 }),
        LineKind::NoForm | LineKind::Rule => Err(LayoutError::Layout { at: at as u32 }),
    }
}

/// The definitions section of the bytes.
fn read_definitions(alloc: Global, bytes: &[u8]) -> Result<Section, LayoutError>
    requires { length bytes.now ≤ most_bytes }
    ensures answers { AnswersDefinitions bytes.now result }
    ensures lies { IfOk result (SectionLies (length bytes.now)) }
{
    let mut definitions = Vec::new(alloc);
    let mut names = IndexSet::new(alloc);
    let mut at = 0;
    while at < bytes.len() {
        match definitions_line(bytes, at)? {
            DefinitionsLine::End(behind) => {
                return Ok(Section {
                    definitions,
                    behind,
                });
            }
            DefinitionsLine::Passed(to) => at = to,
            DefinitionsLine::Definition(definition, to) => {
                if !add_name(&mut names, bytes_of(bytes, definition.name))? {
                    return Err(LayoutError::Layout { at: at as u32 });
                }
                definitions.push(definition)?;
                at = to;
            }
        }
    }
    Err(LayoutError::Layout { at: at as u32 })
}

/// The rule at the offset, and the offset behind it.
fn rule_at(bytes: &[u8], at: usize) -> Result<RulesLine, LayoutError>
    requires within { at < length bytes.now }
    requires short { length bytes.now ≤ most_bytes }
    requires kind { lines.rules_kind (drop at bytes.now) ≡ kinds.Rule }
    ensures { FindsRulesLine bytes.now at result }
{
    match rule_form(from_offset(bytes, at)) {
        RuleLine::Closed(form) => {
            let rule = Rule {
                at,
                pattern: Part {
                    from: at,
                    to: at + form.pattern_to,
                },
                action: Part {
                    from: at + form.from,
                    to: at + form.to,
                },
            };
            Ok(RulesLine::Rule(rule, at + form.size))
        }
        RuleLine::Open(len) => {
            let open = at + len;
            Err(LayoutError::Unended { at: open as u32 })
        }
    }
}

/// The line of the rules section at the offset. The error is `Unended`, where the line's block, a comment or its action's brace
/// isn't closed; any other line is answered.
pub(crate) fn rules_line(bytes: &[u8], at: usize) -> Result<RulesLine, LayoutError>
    requires within { at < length bytes.now }
    requires short { length bytes.now ≤ most_bytes }
    ensures { FindsRulesLine bytes.now at result }
{
    match rules_kind(from_offset(bytes, at)) {
        LineKind::SectionEnd => Ok(RulesLine::End),
        LineKind::Block => Ok(RulesLine::Passed(block_at(bytes, at)?)),
        LineKind::Loose => Ok(RulesLine::Passed(loose_at(bytes, at)?)),
        _ => rule_at(bytes, at),
    }
}

/// The rules section that begins at the offset.
fn read_rules(alloc: Global, bytes: &[u8], from: usize) -> Result<Vec<Rule>, LayoutError>
    requires within { from ≤ length bytes.now }
    requires short { length bytes.now ≤ most_bytes }
    ensures answers { AnswersRules bytes.now from result }
    ensures lies { IfOk result
        (λ rules. RulesLie (length bytes.now) (length bytes.now) rules.items) }
{
    let mut rules = Vec::new(alloc);
    let mut at = from;
    while at < bytes.len() {
        match rules_line(bytes, at)? {
            RulesLine::End => return Ok(rules),
            RulesLine::Passed(to) => at = to,
            RulesLine::Rule(rule, to) => {
                rules.push(rule)?;
                at = to;
            }
        }
    }
    Ok(rules)
}

/// The layout of the bytes: their definitions and rules, in order.
///
/// The errors come where layout stops first: `Unended` where a block, a comment or an action's brace isn't closed, `Layout` where
/// a line has no form of the definitions section, defines a name again, or the file ends in that section, `UnknownDirective`,
/// `UnknownOption` and `StartCondition` where a line says so. `Memory` is want of memory. Source: POSIX lex.
pub fn read_layout(alloc: Global, bytes: &[u8]) -> Result<Layout, LayoutError>
    requires { length bytes.now ≤ most_bytes }
    ensures answers { AnswersLayout bytes.now result }
    ensures lies { IfOk result (LayoutLies (length bytes.now)) }
{
    let section = read_definitions(alloc, bytes)?;
    let rules = read_rules(alloc, bytes, section.behind)?;
    Ok(Layout {
        definitions: section.definitions,
        rules,
    })
}
