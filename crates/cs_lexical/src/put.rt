// The lines of `lexical`.

ghost use Rattle.std.specs.Prelude.{◌≤◌, ◌<◌, slice_get};
ghost use Rattle.cs_manifest.specs.Output.Names as names;
ghost use Rattle.cs_manifest.specs.Output.Putting.{Puts};
ghost use Rattle.cs_lexical.specs.Least.{row_in, rules_of, seen};
ghost use Rattle.cs_lexical.specs.Lines.{end_line, kind_of, kind_words, lexical_lines, overlap_line, overlap_lines, pair_lines, rule_line, rule_lines, win_words};

use crate::lexical::Lexical;
use cs_grammar::{number_of, place_of};
use cs_io::Sink;
use cs_manifest::{Output, put_count, put_quoted, put_token_name};
use cs_pattern_parts::Kind;
use cs_yacc::YaccFile;

/// All lines.
pub(crate) fn put_lexical<S: Sink>(
    output: &mut Output<'_, S>,
    file: &YaccFile,
    kinds: &[Kind],
    lexical: &Lexical,
)
    requires { rules_of lexical.now ≤ 2048 }
    ensures { Puts S.Sink (lexical_lines file.now kinds.now lexical.now) output.old output.new }
{
    output.put(b"conform lexical\n");
    put_rules(output, file, kinds, lexical);
    put_rows(output, lexical);
    put_end(output, lexical);
}

// A line for each rule.
fn put_rules<S: Sink>(
    output: &mut Output<'_, S>,
    file: &YaccFile,
    kinds: &[Kind],
    lexical: &Lexical,
)
    requires { rules_of lexical.now ≤ 2048 }
    ensures { Puts S.Sink (rule_lines file.now kinds.now lexical.now.wins) output.old output.new }
{
    for place in 0..lexical.rules() {
        let rule = number_of(place);
        put_rule(output, file, kinds, rule, lexical.wins(rule));
    }
}

// `rule R KIND`, and what it wins.
fn put_rule<S: Sink>(
    output: &mut Output<'_, S>,
    file: &YaccFile,
    kinds: &[Kind],
    rule: u16,
    win: Option<&[u8]>,
)
    requires { 0 < rule }
    ensures { Puts S.Sink (rule_line file.now kinds.now rule (seen win.entry))
        output.old output.new }
{
    put_count(output, b"rule ", rule as u64);
    output.put(b" ");
    put_kind(output, file, kinds, place_of(rule));
    put_win(output, win);
    output.put(b"\n");
}

// The words of the kind at the place.
fn put_kind<S: Sink>(output: &mut Output<'_, S>, file: &YaccFile, kinds: &[Kind], place: usize)
    ensures { Puts S.Sink (kind_of file.now (slice_get kinds.now place)) output.old output.new }
{
    if place >= kinds.len() {
        return;
    }
    put_kind_words(output, file, kinds[place]);
}

fn put_kind_words<S: Sink>(output: &mut Output<'_, S>, file: &YaccFile, kind: Kind)
    ensures { Puts S.Sink (kind_words file.now kind) output.old output.new }
{
    match kind {
        Kind::Token(token) => {
            output.put(b"token ");
            put_name(output, file, token);
        }
        Kind::OwnByte => output.put(b"literal"),
        Kind::Skip => output.put(b"skip"),
        Kind::Foreign => output.put(b"foreign"),
    }
}

// The token's name, if it has one.
fn put_name<S: Sink>(output: &mut Output<'_, S>, file: &YaccFile, token: u16)
    ensures { Puts S.Sink (names.token_of file.now token) output.old output.new }
{
    let names = file.token_names();
    let place = (token as usize).saturating_sub(1);
    if place >= names.len() {
        return;
    }
    put_token_name(output, &names[place]);
}

// ` wins "TEXT"` or ` shadowed`.
fn put_win<S: Sink>(output: &mut Output<'_, S>, win: Option<&[u8]>)
    ensures { Puts S.Sink (win_words (seen win.entry)) output.old output.new }
{
    match win {
        None => output.put(b" shadowed"),
        Some(text) => {
            output.put(b" wins ");
            put_quoted(output, text);
        }
    }
}

// A line for each two rules that overlap.
fn put_rows<S: Sink>(output: &mut Output<'_, S>, lexical: &Lexical)
    requires { rules_of lexical.now ≤ 2048 }
    ensures { Puts S.Sink (pair_lines lexical.now.rows) output.old output.new }
{
    for place in 0..lexical.rules() {
        put_row(output, lexical, number_of(place));
    }
}

// A line for each rule behind this one that overlaps with it.
fn put_row<S: Sink>(output: &mut Output<'_, S>, lexical: &Lexical, rule: u16)
    requires few { rules_of lexical.now ≤ 2048 }
    requires from_1 { 0 < rule }
    requires within { rule ≤ rules_of lexical.now }
    ensures { Puts S.Sink (overlap_lines rule (row_in lexical.now rule)) output.old output.new }
{
    for place in 0..lexical.behind(rule) {
        let other = rule + number_of(place);
        put_overlap(output, rule, other, lexical.both(rule, other));
    }
}

// `overlap R S "TEXT"`, where they overlap.
fn put_overlap<S: Sink>(output: &mut Output<'_, S>, rule: u16, other: u16, both: Option<&[u8]>)
    ensures { Puts S.Sink (overlap_line rule other (seen both.entry)) output.old output.new }
{
    if let Some(text) = both {
        put_count(output, b"overlap ", rule as u64);
        put_count(output, b" ", other as u64);
        output.put(b" ");
        put_quoted(output, text);
        output.put(b"\n");
    }
}

// The end line.
fn put_end<S: Sink>(output: &mut Output<'_, S>, lexical: &Lexical)
    requires { rules_of lexical.now ≤ 2048 }
    ensures { Puts S.Sink (end_line lexical.now) output.old output.new }
{
    let (overlaps, disjoint) = lexical.pairs();
    put_count(output, b"end rules ", lexical.rules() as u64);
    put_count(output, b" shadowed ", lexical.shadowed() as u64);
    put_count(output, b" overlaps ", overlaps);
    put_count(output, b" disjoint ", disjoint);
    output.put(b"\n");
}
