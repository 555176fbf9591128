// Numbers behind words, and the names of tokens, one behind another.

ghost use Rattle.cs_manifest.specs.Output.Names as names;
ghost use Rattle.cs_manifest.specs.Output.Putting.{Puts};
ghost use Rattle.cs_manifest.specs.Output.Words as words;

use crate::output::names::put_spaced_token;
use crate::output::output::Output;
use cs_io::Sink;
use cs_yacc::YaccFile;

/// Puts a number behind a word.
#[inline(always)]
pub fn put_count<S: Sink>(output: &mut Output<'_, S>, word: &[u8], count: u64)
    ensures { Puts S.Sink (words.numbered_word word.now count) output.old output.new }
{
    output.put(word);
    output.put_number(count);
}

/// Puts the line of the tokens behind the newline above, without its own.
pub fn put_yield<S: Sink>(output: &mut Output<'_, S>, file: &YaccFile, tokens: &[u16])
    requires { names.AreNamedTokens file.now tokens.now }
    ensures { Puts S.Sink (names.tokens_below file.now tokens.now) output.old output.new }
{
    output.put(b"\n  tokens");
    put_names(output, file, tokens);
}

/// Puts the names of tokens, each behind a space.
pub fn put_names<S: Sink>(output: &mut Output<'_, S>, file: &YaccFile, tokens: &[u16])
    requires { names.AreNamedTokens file.now tokens.now }
    ensures { Puts S.Sink (names.token_words file.now tokens.now) output.old output.new }
{
    for token in tokens {
        put_spaced_token(output, file, *token);
    }
}
