// The kinds of the rules.

ghost use Rattle.std.specs.Prelude.{length, IfOk};
ghost use Rattle.cs_lex.specs.Reading.Found.{GivesNamed, GivesOver};
ghost use Rattle.cs_lex.specs.Reading.Kinds as spec;
ghost use Rattle.cs_lex.specs.Reading.Reading.{EndsWithKind};
ghost use Rattle.cs_lex.specs.Reading.Tokens.{GivesName};
ghost use Rattle.cs_lex.specs.Layout.Lies.{RuleLies, RulesLie};
ghost use Rattle.cs_yacc.specs.declared.reading.name.TokenName.TheVariants.{Word, Byte};

use crate::actions::{ActionKind, action_kind};
use crate::layout::Rule;
use crate::reading::rules::bytes_of;
use cs_pattern_parts::Kind;
use cs_yacc::YaccFile;
use std::alloc::{AllocError, Global};

fn of_token(token: Option<u16>) -> Kind
    ensures { GivesNamed token result }
{
    match token {
        Some(token) => Kind::Token(token),
        None => Kind::Foreign,
    }
}

/// What a rule with the word gives.
fn of_word(yacc: &YaccFile, word: &[u8]) -> Kind
    ensures { GivesName yacc.now (Word word.now) result }
{
    of_token(yacc.token(word))
}

/// What a rule with the literal gives.
fn of_literal(yacc: &YaccFile, byte: u8) -> Kind
    ensures { GivesName yacc.now (Byte byte) result }
{
    of_token(yacc.literal(byte))
}

/// The kind of the rule, where the next rule has this kind.
fn rule_kind(yacc: &YaccFile, bytes: &[u8], rule: Rule, next: Kind) -> Kind
    requires { RuleLies (length bytes.now) rule }
    ensures { GivesOver yacc.now bytes.now rule next result }
{
    match action_kind(bytes_of(bytes, rule.action)) {
        ActionKind::Bar => next,
        ActionKind::Skip => Kind::Skip,
        ActionKind::Word(word) => of_word(yacc, word),
        ActionKind::Literal(byte) => of_literal(yacc, byte),
        ActionKind::OwnByte => Kind::OwnByte,
        ActionKind::Foreign => Kind::Foreign,
    }
}

/// The kinds of the rules, found from the last rule to the first.
pub(crate) fn rule_kinds(
    alloc: Global,
    yacc: &YaccFile,
    bytes: &[u8],
    rules: &[Rule],
) -> Result<Vec<Kind>, AllocError>
    requires lie { RulesLie (length bytes.now) (length bytes.now) rules.now }
    requires ends { EndsWithKind bytes.now rules.now }
    ensures { IfOk result (λ kinds. spec.HaveKinds yacc.now bytes.now rules.now kinds.items) }
{
    let mut kinds = Vec::new(alloc);
    let mut next = Kind::Skip;
    let mut at = rules.len();
    while at > 0 {
        at -= 1;
        next = rule_kind(yacc, bytes, rules[at], next);
        kinds.push(next)?;
    }
    kinds.reverse();
    Ok(kinds)
}
