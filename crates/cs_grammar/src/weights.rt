// Weights of tokens, by which derivation trees are measured.

ghost use Rattle.std.specs.Prelude.{◌≡◌, IfOk, All, length};
ghost use Rattle.cs_grammar.specs.Grammar.{IsNumberOf};
ghost use Rattle.cs_grammar.specs.Weights.{IsMeasure, number, nodes, byte_weight};

use crate::numbers::place_of;
use crate::{LIMIT, MOST_WEIGHT};
use std::alloc::{AllocError, Global};
use std::marker::Model;

/// A number for each token, and a limit. The size of a tree is its token's number for a leaf, and 1 plus its children's
/// sizes for a node; a tree above the limit is only known to exist.
#[derive(Debug, Drop)]
pub struct Weights {
    tokens: Vec<u32>,
    limit: u32,
}

impl Model for Weights {
    ghost use Rattle.cs_grammar.specs.Weights.{Measure, IsMeasure};

    ghost Value = { Measure };

    ghost view = { λ w. record { numbers = w.tokens.items; limit = w.limit } };

    ghost invariant = { λ w. IsMeasure (record { numbers = w.tokens.items; limit = w.limit }) };
}

impl Weights {
    /// Weights of these numbers, the first for token 1, and this limit.
    pub fn new(tokens: Vec<u32>, limit: u32) -> Weights
        requires numbers { All (IsNumberOf 1000000) tokens.items }
        requires limit { IsNumberOf 1000000 limit }
        ensures { result ≡ record { numbers = tokens.items; limit = limit } }
    {
        Weights { tokens, limit }
    }

    /// Weights that count nodes, for so many tokens: each number is 1, and the limit is `LIMIT`.
    pub fn nodes(alloc: Global, tokens: u16) -> Result<Weights, AllocError>
        ensures { IfOk result (λ weights. weights ≡ nodes tokens) }
    {
        let tokens = vec![in alloc; 1; tokens as usize]?;
        Ok(Weights {
            tokens,
            limit: LIMIT,
        })
    }

    /// The size above which a tree is only known to exist. All weights are from 1 to `MOST_WEIGHT`.
    pub fn limit(&self) -> u32
        ensures limit { result ≡ self.now.limit }
        ensures well_formed { IsMeasure self.now }
    {
        self.limit
    }

    /// The number of a token.
    pub fn number(&self, token: u16) -> u32
        requires { IsNumberOf (length self.now.numbers) token }
        ensures { result ≡ number self.now token }
    {
        self.tokens[place_of(token)]
    }
}

/// The number of a token whose text has this length, or `None` where it has no text: 1 and 16 for each byte, at most
/// `MOST_WEIGHT`, and 5,000 for no text.
pub fn byte_weight(length: Option<usize>) -> u32
    ensures { result ≡ byte_weight length }
{
    match length {
        Some(length) if length < 62_500 => 1 + 16 * length as u32,
        Some(_) => MOST_WEIGHT,
        None => 5_000,
    }
}
