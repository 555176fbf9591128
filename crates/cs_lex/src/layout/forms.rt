// The forms of lines.

ghost use Rattle.std.specs.Prelude.{◌≡◌, ◌≤◌, ◌<◌, ◌+◌, ℕ, length, drop, IfSome, IfNone, IsTrue, false};
ghost use Rattle.std.specs.List.{prefix_len};
ghost use Rattle.cs_lex.specs.Layout.Lines as lines;
ghost use Rattle.cs_lex.specs.Layout.Forms as spec;
ghost use Rattle.cs_lex.specs.Layout.Found as found;
ghost use Rattle.cs_lex.specs.Layout.Steps.{Walk, Spans, HasSize};

use crate::layout::line::is_option;
use crate::layout::pattern::pattern_size;
use crate::layout::run::{Run, run_of};
use cs_bytes::{ByteClass, from_offset, has_at, has_pair, line_len, line_size, run_len, to_offset};
use cs_ctext::skip_comment;

/// Whether a newline stands at the index, and `%}` behind it.
fn closes_block(text: &[u8], index: usize) -> bool
    requires { index ≤ length text.now }
    ensures { result ≡ spec.closes_block (drop index text.now) }
{
    let rest = from_offset(text, index);
    has_at(rest, 0, b'\n') && has_pair(rest, 1, b'%', b'}')
}

/// The size of the block in front, through the next line that begins with `%}`.
pub(crate) fn block_size(text: &[u8]) -> Option<usize>
    ensures closed { IfSome result (λ size. spec.IsCodeBlock text.now size) }
    ensures within { IfSome result (λ size. (0 < size) × (size ≤ length text.now)) }
    ensures unclosed { IfNone result ((size : ℕ) → ¬ spec.IsCodeBlock text.now size) }
{
    for index in 0..text.len() {
        if closes_block(text, index) {
            return Some(index + 1 + line_size(from_offset(text, index + 1)));
        }
    }
    None
}

/// The line in front without its newline.
pub(crate) fn line_of(text: &[u8]) -> &[u8]
    ensures { result.now ≡ spec.line_of text.now }
{
    to_offset(text, line_len(text))
}

fn is_option_byte(byte: u8) -> bool
    ensures { result ≡ lines.is_option_byte byte }
{
    !ByteClass::Blank.has(byte)
}

fn option_len(line: &[u8]) -> usize
    ensures size { result ≡ prefix_len lines.is_option_byte line.now }
    ensures within { result ≤ length line.now }
{
    line.iter()
        .take_while(|byte| is_option_byte(**byte))
        .count()
}

/// The size of the blank or known word in front, or 0.
fn option_size(line: &[u8]) -> usize
    ensures size { result ≡ lines.option_size line.now }
    ensures within { result ≤ length line.now }
{
    match line {
        [byte, ..] if ByteClass::Blank.has(*byte) => 1,
        _ => {
            let len = option_len(line);
            if is_option(to_offset(line, len)) {
                len
            } else {
                0
            }
        }
    }
}

/// How many bytes the blanks and known words in front take.
fn options_len(line: &[u8]) -> usize
    ensures units { Walk (Spans (HasSize lines.option_size) line.now) 0 result }
    ensures ends { lines.option_size (drop result line.now) ≡ 0 }
    ensures within { result ≤ length line.now }
{
    let mut at = 0;
    let mut size = option_size(line);
    while size > 0 {
        at += size;
        size = option_size(from_offset(line, at));
    }
    at
}

/// Behind how many bytes of the rest of an `%option` line the first word stands that isn't known.
pub(crate) fn unknown_option(text: &[u8]) -> Option<usize>
    requires { 7 ≤ length text.now }
    ensures unknown { IfSome result (λ n. spec.IsFirstUnknown text.now n) }
    ensures within { IfSome result (λ n. 7 + n ≤ length text.now) }
    ensures known { IfNone result (spec.AreOptions text.now) }
{
    let line = line_of(from_offset(text, 7));
    let len = options_len(line);
    if len < line.len() { Some(len) } else { None }
}

/// How far the loose text in front goes, through its last newline.
pub(crate) fn loose_run(text: &[u8]) -> Run
    ensures { found.FindsLoose text.now result }
{
    match run_of(text, false) {
        Run::To(len) => Run::To(len + line_size(from_offset(text, len))),
        open => open,
    }
}

/// Whether nothing is left of the line, or one closed comment and blanks.
fn is_comment_tail(line: &[u8]) -> bool
    ensures yes { IsTrue result → spec.IsCommentTail line.now }
    ensures no { result ≡ false → ¬ spec.IsCommentTail line.now }
{
    if line.is_empty() {
        return true;
    }
    match skip_comment(line, 0) {
        Some(end) => run_len(from_offset(line, end), ByteClass::Blank) == line.len() - end,
        None => false,
    }
}

/// Whether the rest of the line has only blanks, and at most one closed comment.
fn is_tail(line: &[u8]) -> bool
    ensures yes { IsTrue result → spec.IsTail line.now }
    ensures no { result ≡ false → ¬ spec.IsTail line.now }
{
    is_comment_tail(from_offset(line, run_len(line, ByteClass::Blank)))
}

/// Where the parts of a definition stand behind its line's beginning: its name ends at `name_to`, and its substitute is
/// `from..to`.
#[derive(Clone, Copy, Debug)]
pub(crate) struct DefinitionForm {
    pub(crate) name_to: usize,
    pub(crate) from: usize,
    pub(crate) to: usize,
}

/// The form of the definition that the line, without its newline, is.
pub(crate) fn definition_form(line: &[u8]) -> Option<DefinitionForm>
    ensures form { IfSome result (λ f. spec.IsDefinition line.now f.name_to f.from f.to) }
    ensures within { IfSome result (found.DefinitionIn line.now) }
    ensures none { IfNone result (spec.IsNoDefinition line.now) }
{
    let name_to = run_len(line, ByteClass::WordOr(b'-'));
    let from = name_to + run_len(from_offset(line, name_to), ByteClass::Blank);
    let to = from + pattern_size(from_offset(line, from));
    if name_to < from && from < to && is_tail(from_offset(line, to)) {
        Some(DefinitionForm { name_to, from, to })
    } else {
        None
    }
}

/// Where the parts of a rule stand behind its line's beginning: its pattern ends at `pattern_to`, its action is `from..to`, and
/// the rule with its newline has `size` bytes.
#[derive(Clone, Copy, Debug)]
pub(crate) struct RuleForm {
    pub(crate) pattern_to: usize,
    pub(crate) from: usize,
    pub(crate) to: usize,
    pub(crate) size: usize,
}

/// What a rule's line is.
#[derive(Clone, Copy, Debug)]
pub(crate) enum RuleLine {
    Closed(RuleForm),
    /// A comment or brace of the action that isn't closed stands behind so many bytes.
    Open(usize),
}

/// The form of the rule in front, or where its action isn't closed.
pub(crate) fn rule_form(text: &[u8]) -> RuleLine
    ensures { found.FindsRule text.now result }
{
    let pattern_to = pattern_size(text);
    let from = pattern_to + run_len(from_offset(text, pattern_to), ByteClass::Blank);
    match run_of(from_offset(text, from), true) {
        Run::To(len) => {
            let to = from + len;
            let size = to + line_size(from_offset(text, to));
            RuleLine::Closed(RuleForm {
                pattern_to,
                from,
                to,
                size,
            })
        }
        Run::Open(len) => RuleLine::Open(from + len),
    }
}
