// The line of a refusal.

ghost use Rattle.std.specs.Prelude.{◌≡◌, IfOk, string_bytes};
ghost use Rattle.cs_run.specs.Input.Lines as spec;
ghost use Rattle.cs_run.specs.Input.Refusal.{IsTold};
ghost use Rattle.cs_yacc.specs.declared.reading.error.YaccError.TheVariants as yacc_error;
ghost use Rattle.cs_lex.specs.declared.reading.error.LexError.TheVariants as lex_error;

use crate::input::judging::most_of;
use crate::input::refusal::Refusal;
use cs_lex::{LexError, LexLimit};
use cs_pattern::PatternFault;
use cs_words::Role;
use cs_yacc::{YaccError, YaccLimit};
use std::alloc::{AllocError, Global};

/// The line of a refusal, with its newline.
pub fn line(alloc: Global, refusal: Refusal) -> Result<String, AllocError>
    requires { IsTold refusal }
    ensures { IfOk result (λ line. string_bytes line ≡ spec.refusal_line refusal) }
{
    match refusal {
        Refusal::TooLong(role) => {
            let most = most_of(role);
            let role = role_word(role);
            Ok(format!(in alloc; "conform: {role}: Length above {most}\n")?)
        }
        Refusal::OfYacc(error) => {
            let words = yacc_words(alloc, error)?;
            Ok(format!(in alloc; "conform: yacc: {words}")?)
        }
        Refusal::OfLex(error) => {
            let words = lex_words(alloc, error)?;
            Ok(format!(in alloc; "conform: lex: {words}")?)
        }
        Refusal::States => String::from_str(alloc, "conform: lex: States above 16384\n"),
        Refusal::TextStops { at } => format!(in alloc; "conform: text: Stops at {at}\n"),
        Refusal::TextTokens { found } => {
            format!(in alloc; "conform: text: Tokens {found} of 2000\n")
        }
        Refusal::ManyChains { found } => {
            format!(in alloc; "conform: chains: Limit Goals {found} of 1000000\n")
        }
    }
}

fn role_word(role: Role) -> &'static str
    ensures { result.now ≡ spec.role_word role }
{
    match role {
        Role::Yacc => "yacc",
        Role::Lex => "lex",
        Role::Text => "text",
        Role::Manifest => "manifest",
    }
}

fn yacc_words(alloc: Global, error: YaccError) -> Result<String, AllocError>
    requires { ¬ (error ≡ yacc_error.Memory) }
    ensures { IfOk result (λ line. string_bytes line ≡ spec.yacc_words error) }
{
    match error {
        YaccError::BadItem { at } => format!(in alloc; "BadItem at {at}\n"),
        YaccError::Unended { at } => format!(in alloc; "Unended at {at}\n"),
        YaccError::UnknownDirective { at } => format!(in alloc; "UnknownDirective at {at}\n"),
        YaccError::Syntax { at } => format!(in alloc; "Syntax at {at}\n"),
        YaccError::SecondStart { at } => format!(in alloc; "SecondStart at {at}\n"),
        YaccError::TokenOnLeft { at } => format!(in alloc; "TokenOnLeft at {at}\n"),
        YaccError::Undefined { at } => format!(in alloc; "Undefined at {at}\n"),
        YaccError::StartNotNonterminal { at } => format!(in alloc; "StartNotNonterminal at {at}\n"),
        YaccError::Limit { which, found, most } => {
            let which = yacc_limit(which);
            Ok(format!(in alloc; "Limit {which}{found} of {most}\n")?)
        }
        YaccError::Memory => unreachable!(),
    }
}

fn yacc_limit(which: YaccLimit) -> &'static str
    ensures { result.now ≡ spec.yacc_limit which }
{
    match which {
        YaccLimit::Tokens => "Tokens ",
        YaccLimit::Nonterminals => "Nonterminals ",
        YaccLimit::Rules => "Rules ",
        YaccLimit::RightSide => "RightSide ",
    }
}

fn lex_words(alloc: Global, error: LexError) -> Result<String, AllocError>
    requires { ¬ (error ≡ lex_error.Memory) }
    ensures { IfOk result (λ line. string_bytes line ≡ spec.lex_words error) }
{
    match error {
        LexError::Unended { at } => format!(in alloc; "Unended at {at}\n"),
        LexError::Layout { at } => format!(in alloc; "Layout at {at}\n"),
        LexError::UnknownDirective { at } => format!(in alloc; "UnknownDirective at {at}\n"),
        LexError::UnknownOption { at } => format!(in alloc; "UnknownOption at {at}\n"),
        LexError::StartCondition { at } => format!(in alloc; "StartCondition at {at}\n"),
        LexError::NoRules => String::from_str(alloc, "NoRules\n"),
        LexError::DanglingBar { at } => format!(in alloc; "DanglingBar at {at}\n"),
        LexError::Limit { which, found, most } => {
            let which = lex_limit(which);
            Ok(format!(in alloc; "Limit {which}{found} of {most}\n")?)
        }
        LexError::Pattern { at, fault } => {
            let words = fault_words(alloc, fault)?;
            Ok(format!(in alloc; "Pattern at {at}: {words}")?)
        }
        LexError::Memory => unreachable!(),
    }
}

fn lex_limit(which: LexLimit) -> &'static str
    ensures { result.now ≡ spec.lex_limit which }
{
    match which {
        LexLimit::Rules => "Rules ",
        LexLimit::Positions => "Positions ",
    }
}

fn fault_words(alloc: Global, fault: PatternFault) -> Result<String, AllocError>
    ensures { IfOk result (λ line. string_bytes line ≡ spec.fault_words fault) }
{
    match fault {
        PatternFault::Anchor { at } => format!(in alloc; "Anchor at {at}\n"),
        PatternFault::Trailing { at } => format!(in alloc; "Trailing at {at}\n"),
        PatternFault::Condition { at } => format!(in alloc; "Condition at {at}\n"),
        PatternFault::Collation { at } => format!(in alloc; "Collation at {at}\n"),
        PatternFault::Syntax { at } => format!(in alloc; "Syntax at {at}\n"),
        PatternFault::UndefinedName { at } => format!(in alloc; "UndefinedName at {at}\n"),
        PatternFault::DefinitionCycle { at } => format!(in alloc; "DefinitionCycle at {at}\n"),
        PatternFault::TooDeep { found, most } => format!(in alloc; "TooDeep {found} of {most}\n"),
        PatternFault::TooManyPositions { most } => format!(in alloc;
            "TooManyPositions above {most}\n"
        ),
    }
}
