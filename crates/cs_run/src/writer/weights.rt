// How trees are measured.

ghost use Rattle.std.specs.Prelude.{◌≡◌, ◌<◌, ◌≤◌, IfOk, Some, length, option_map};
ghost use Rattle.cs_grammar.specs.Weights.{byte_weight};
ghost use Rattle.cs_scanner.specs.Lexeme.Lexeme.{lexeme_in};
ghost use Rattle.cs_manifest.specs.Manifest.Manifest.{byte_measure, measure_of};

use cs_choices::Weigh;
use cs_grammar::{BYTE_LIMIT, Weights, byte_weight};
use cs_scanner::Lexemes;
use std::alloc::{AllocError, Global};

/// The weights of what sizes count, for so many tokens with these lexemes.
pub(crate) fn weights_of(
    alloc: Global,
    weigh: Weigh,
    lexemes: &Lexemes,
    tokens: u16,
) -> Result<Weights, AllocError>
    requires { length lexemes.now ≡ tokens }
    ensures { IfOk result (λ weights. weights ≡ measure_of weigh tokens (Some lexemes.now)) }
{
    match weigh {
        Weigh::Nodes => Weights::nodes(alloc, tokens),
        Weigh::Bytes => byte_weights(alloc, lexemes, tokens),
    }
}

// The weights that count the bytes of the tokens' lexemes.
fn byte_weights(alloc: Global, lexemes: &Lexemes, tokens: u16) -> Result<Weights, AllocError>
    requires { length lexemes.now ≡ tokens }
    ensures { IfOk result (λ weights. weights ≡ byte_measure lexemes.now) }
{
    let mut numbers = Vec::new(alloc);
    for place in 0..tokens {
        numbers.push(byte_number(lexemes, place + 1))?;
    }
    Ok(Weights::new(numbers, BYTE_LIMIT))
}

// The number of a token, which counts from 1.
fn byte_number(lexemes: &Lexemes, token: u16) -> u32
    requires from_1 { 0 < token }
    requires within { token ≤ length lexemes.now }
    ensures { result ≡ byte_weight (option_map length (lexeme_in lexemes.now token)) }
{
    byte_weight(lexemes.get(token).map(|text| text.len()))
}
