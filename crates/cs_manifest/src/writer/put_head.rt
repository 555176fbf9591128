// The head: the form's line, the tokens, the rules and the lexemes, and what the second format has besides.

ghost use Rattle.std.specs.Prelude.{◌≡◌, ◌<◌, ◌≤◌, All, Some, length};
ghost use Rattle.cs_scanner.specs.Lexeme.Lexeme.{lexeme_in};
ghost use Rattle.cs_manifest.specs.Output.Names as names;
ghost use Rattle.cs_manifest.specs.Output.Putting.{Puts};
ghost use Rattle.cs_manifest.specs.Output.Words as words;
ghost use Rattle.cs_manifest.specs.Manifest.Head.{IsNamedHead, head_of};
ghost use Rattle.cs_manifest.specs.Manifest.Lines as lines;
ghost use Rattle.cs_manifest.specs.Manifest.Named.{IsNamedRule};
ghost use Rattle.cs_manifest.specs.Manifest.SharedLines as shared;

use crate::manifest::{Form, Head};
use crate::output::{Output, put_nonterminal, put_quoted, put_symbol, put_token_name};
use crate::writer::put_closed::put_closed;
use cs_choices::Weigh;
use cs_grammar::{Rule, Symbol, number_of};
use cs_io::Sink;
use cs_scanner::Lexemes;
use cs_yacc::{TokenName, YaccFile};

/// The lines of the head.
pub(crate) fn put_head<S: Sink>(output: &mut Output<'_, S>, head: &Head<'_>)
    requires { IsNamedHead head.now }
    ensures { Puts S.Sink (head_of head.now) output.old output.new }
{
    match head.form {
        Form::Rules => {
            output.put(b"conform 1 rules\n");
            put_file(output, head.yacc);
        }
        Form::Suite { lexemes } => {
            output.put(b"conform 1 suite\n");
            put_tables(output, head.yacc, lexemes);
        }
        Form::Shared {
            lexemes,
            weigh,
            closed,
        } => {
            output.put(b"conform 2 suite\n");
            put_weigh(output, weigh);
            put_tables(output, head.yacc, lexemes);
            put_closed(output, head.yacc, closed);
        }
    }
}

fn put_weigh<S: Sink>(output: &mut Output<'_, S>, weigh: Weigh)
    ensures { Puts S.Sink (shared.weigh_line weigh) output.old output.new }
{
    match weigh {
        Weigh::Nodes => output.put(b"weigh nodes\n"),
        Weigh::Bytes => output.put(b"weigh bytes\n"),
    }
}

// The lines of the tokens, the rules and the lexemes.
fn put_tables<S: Sink>(output: &mut Output<'_, S>, file: &YaccFile, lexemes: &Lexemes)
    requires { length lexemes.now ≡ length file.now.token_names }
    ensures { Puts S.Sink (lines.table_lines file.now (Some lexemes.now)) output.old output.new }
{
    put_file(output, file);
    put_lexemes(output, file.token_names(), lexemes);
}

/// Puts the lines of the tokens and of the rules.
pub fn put_file<S: Sink>(output: &mut Output<'_, S>, file: &YaccFile)
    ensures { Puts S.Sink (lines.file_lines file.now) output.old output.new }
{
    put_tokens(output, file.token_names());
    put_rules(output, file, file.grammar().rules());
}

fn put_tokens<S: Sink>(output: &mut Output<'_, S>, names: &[TokenName])
    ensures { Puts S.Sink (words.with_numbers lines.token_line names.now) output.old output.new }
{
    for (place, name) in names.iter().enumerate() {
        put_token_line(output, place as u64 + 1, name);
    }
}

fn put_token_line<S: Sink>(output: &mut Output<'_, S>, number: u64, name: &TokenName)
    ensures { Puts S.Sink (lines.token_line number name.now) output.old output.new }
{
    output.put(b"token ");
    output.put_number(number);
    output.put(b" ");
    put_token_name(output, name);
    output.put(b"\n");
}

fn put_rules<S: Sink>(output: &mut Output<'_, S>, file: &YaccFile, rules: &[Rule])
    requires { All (IsNamedRule file.now) rules.now }
    ensures { Puts S.Sink (lines.rule_lines file.now rules.now) output.old output.new }
{
    for (place, rule) in rules.iter().enumerate() {
        put_rule_line(output, file, place as u64 + 1, rule);
    }
}

fn put_rule_line<S: Sink>(output: &mut Output<'_, S>, file: &YaccFile, number: u64, rule: &Rule)
    requires { IsNamedRule file.now rule.now }
    ensures { Puts S.Sink (lines.rule_line file.now number rule.now) output.old output.new }
{
    output.put(b"rule ");
    output.put_number(number);
    output.put(b" ");
    put_nonterminal(output, file, rule.left());
    output.put(b" :");
    put_symbols(output, file, rule.right());
    output.put(b"\n");
}

fn put_symbols<S: Sink>(output: &mut Output<'_, S>, file: &YaccFile, symbols: &[Symbol])
    requires { All (names.IsNamedSymbol file.now) symbols.now }
    ensures { Puts S.Sink (lines.symbol_words file.now symbols.now) output.old output.new }
{
    for symbol in symbols {
        output.put(b" ");
        put_symbol(output, file, *symbol);
    }
}

/// Puts the lines of the lexemes of so many tokens.
pub fn put_lexemes<S: Sink>(output: &mut Output<'_, S>, names: &[TokenName], lexemes: &Lexemes)
    requires all { length names.now ≤ length lexemes.now }
    requires few { length names.now < 65536 }
    ensures { Puts S.Sink (lines.lexeme_lines lexemes.now names.now) output.old output.new }
{
    for (place, name) in names.iter().enumerate() {
        put_lexeme_line(output, lexemes, number_of(place), name);
    }
}

fn put_lexeme_line<S: Sink>(
    output: &mut Output<'_, S>,
    lexemes: &Lexemes,
    token: u16,
    name: &TokenName,
)
    requires from_1 { 0 < token }
    requires within { token ≤ length lexemes.now }
    ensures { Puts S.Sink (lines.lexeme_line lexemes.now token name.now) output.old output.new }
{
    output.put(b"lexeme ");
    put_token_name(output, name);
    output.put(b" ");
    put_lexeme(output, lexemes, token);
    output.put(b"\n");
}

fn put_lexeme<S: Sink>(output: &mut Output<'_, S>, lexemes: &Lexemes, token: u16)
    requires from_1 { 0 < token }
    requires within { token ≤ length lexemes.now }
    ensures { Puts S.Sink (lines.lexeme_text (lexeme_in lexemes.now token)) output.old output.new }
{
    match lexemes.get(token) {
        None => output.put(b"none"),
        Some(text) => put_quoted(output, text),
    }
}
