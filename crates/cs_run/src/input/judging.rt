// What bytes mean that were read.

ghost use Rattle.std.specs.Prelude.{◌≡◌, ◌<◌, ◌≤◌, ◌∷◌, [], IfErr, IfOk, Ok, length, Err};
ghost use Rattle.cs_lex.specs.Reading.File.{HasTokensOf};
ghost use Rattle.cs_run.specs.Input.Files.{IsGrammarOf, IsPairOf, IsShort, most_for};
ghost use Rattle.cs_run.specs.Input.Read.{HasTokensOfItsFile, IsTextOfAll};
ghost use Rattle.cs_run.specs.Input.Refusal.{CanBeTold, RefusesRead, lex_stop, pair_contents, text_contents, yacc_content};
ghost use Rattle.cs_run.specs.declared.input.refusal.Refusal.TheVariants.{TooLong};
ghost use Rattle.cs_run.specs.declared.input.refusal.Stop.TheVariants.{Refused};

use crate::input::refusal::{Refusal, Stop};
use crate::input::text::TextBytes;
use cs_lex::{LexError, LexFile, read_lex};
use cs_words::Role;
use cs_yacc::{MOST_BYTES, YaccError, YaccFile, read_yacc};
use std::alloc::Global;

// A text has no more bytes.
const MOST_TEXT: usize = 65_536;

// A manifest that is checked has no more.
const MOST_MANIFEST: usize = 67_108_864;

/// A yacc file, and a lex file beside it.
#[derive(Drop)]
pub struct Pair {
    pub yacc: YaccFile,
    pub lex: LexFile,
}

/// A pair, and the bytes of a third file: a text, or a manifest.
#[derive(Drop)]
pub struct PairAndText {
    pub pair: Pair,
    pub text: TextBytes,
}

/// What the files of a request mean.
#[derive(Drop)]
pub enum Meant {
    /// None is asked for.
    Nothing,
    Grammar(YaccFile),
    Pair(Pair),
    Text(PairAndText),
}

/// At most how many bytes a file may have.
pub(crate) fn most_of(role: Role) -> usize
    ensures { result ≡ most_for role }
{
    match role {
        Role::Yacc | Role::Lex => MOST_BYTES,
        Role::Text => MOST_TEXT,
        Role::Manifest => MOST_MANIFEST,
    }
}

/// What the bytes of a yacc file mean.
pub(crate) fn judge_grammar(alloc: Global, bytes: &[u8]) -> Result<YaccFile, Stop>
    ensures read { IfOk result (λ file. IsGrammarOf file bytes.now) }
    ensures refused { IfErr result (RefusesRead (yacc_content bytes.now ∷ [])) }
    ensures told { IfErr result CanBeTold }
{
    check_length(bytes, Role::Yacc)?;
    grammar(alloc, bytes)
}

/// What the bytes of a yacc file and of a lex file mean, or the first cause why they are refused, or want of memory.
pub fn judge_pair(alloc: Global, bytes: &[u8], more: &[u8]) -> Result<Pair, Stop>
    ensures read { IfOk result (λ pair. IsPairOf pair.yacc pair.lex bytes.now more.now) }
    ensures tokens { IfOk result (λ pair. HasTokensOf (length pair.yacc.token_names) pair.lex) }
    ensures refused { IfErr result (RefusesRead (pair_contents bytes.now more.now)) }
    ensures told { IfErr result CanBeTold }
{
    check_length(bytes, Role::Yacc)?;
    check_length(more, Role::Lex)?;
    let yacc = grammar(alloc, bytes)?;
    match read_lex(alloc, more, &yacc) {
        Ok(lex) => Ok(Pair { yacc, lex }),
        Err(error) => Err(stop_of(error)),
    }
}

/// The same with a third file, which is judged by its length alone.
pub(crate) fn judge_text(
    alloc: Global,
    bytes: &[u8],
    more: &[u8],
    role: Role,
    text: Vec<u8>,
) -> Result<PairAndText, Stop>
    ensures read { IfOk result (IsTextOfAll role bytes.now more.now text) }
    ensures tokens { IfOk result HasTokensOfItsFile }
    ensures refused { IfErr result
        (RefusesRead (text_contents role bytes.now more.now text.items)) }
    ensures told { IfErr result CanBeTold }
{
    check_length(bytes, Role::Yacc)?;
    check_length(more, Role::Lex)?;
    check_length(&text, role)?;
    match judge_pair(alloc, bytes, more) {
        Ok(pair) => Ok(PairAndText {
            pair,
            text: TextBytes::new(text),
        }),
        Err(stop) => Err(stop),
    }
}

// The answer where the reading of a lex file ends so.
fn stop_of(error: LexError) -> Stop
    ensures stop { result ≡ lex_stop error }
    ensures told { CanBeTold result }
{
    match error {
        LexError::Memory => Stop::Memory,
        error => Stop::Refused(Refusal::OfLex(error)),
    }
}

fn check_length(bytes: &[u8], role: Role) -> Result<(), Stop>
    ensures short { IfOk result (λ _. length bytes.now ≤ most_for role) }
    ensures long { IfErr result (λ _. most_for role < length bytes.now) }
    ensures error { IfErr result (λ stop. stop ≡ Refused (TooLong role)) }
{
    if bytes.len() > most_of(role) {
        return Err(Stop::Refused(Refusal::TooLong(role)));
    }
    Ok(())
}

fn grammar(alloc: Global, bytes: &[u8]) -> Result<YaccFile, Stop>
    requires { IsShort bytes.now }
    ensures read { IfOk result (λ file. IsGrammarOf file bytes.now) }
    ensures refused { IfErr result (RefusesRead (yacc_content bytes.now ∷ [])) }
    ensures told { IfErr result CanBeTold }
{
    match read_yacc(alloc, bytes) {
        Ok(file) => Ok(file),
        Err(YaccError::Memory) => Err(Stop::Memory),
        Err(error) => Err(Stop::Refused(Refusal::OfYacc(error))),
    }
}
