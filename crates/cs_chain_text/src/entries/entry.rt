// What is told of a chain, and the work that makes it.

ghost use Rattle.std.specs.Prelude.{IfOk, IfSome};
ghost use Rattle.cs_manifest.specs.Manifest.Manifest.{AreTokensOf};
ghost use Rattle.cs_texts.specs.Work.Renders.{TakesTokens};
ghost use Rattle.cs_chain_text.specs.Entries.Text.{as_goal};
ghost use Rattle.cs_chain_text.specs.Progress.{HasDerivation, IsTextBy};

use cs_chain::{Chain, ChainVerdict, judge_chain};
use cs_fan::Work;
use cs_grammar::{Grammar, yield_of};
use cs_least::Embeds;
use cs_texts::{RenderWork, Rendered, render};
use std::alloc::{AllocError, Global};
use std::marker::Model;

/// A chain, its verdict, the tokens of its derivation, where it has one, and what came of their rendering.
#[derive(Drop)]
pub(crate) struct Told {
    pub(crate) chain: Chain,
    pub(crate) verdict: ChainVerdict,
    pub(crate) tokens: Vec<u16>,
    pub(crate) rendered: Option<Rendered>,
}

impl Model for Told {
    ghost use Rattle.std.specs.Prelude.{option_map};
    ghost use Rattle.cs_texts.specs.Rendering.Rendering.{rendering};
    ghost use Rattle.cs_chain_text.specs.Entries.Text.{ChainEntry};

    ghost Value = { ChainEntry };

    ghost view = { λ t. record {
      chain = t.chain;
      verdict = t.verdict;
      tokens = t.tokens.items;
      rendered = option_map rendering t.rendered;
    } };
}

/// The tokens of the derivation, where there is one.
fn tokens_of(
    alloc: Global,
    grammar: &Grammar,
    verdict: &ChainVerdict,
) -> Result<Vec<u16>, AllocError>
    requires { HasDerivation grammar.now verdict.now }
    ensures { IfOk result (λ tokens.
        AreTokensOf grammar.now (as_goal verdict.now) tokens.items) }
{
    match verdict {
        ChainVerdict::Feasible { derivation, .. } => yield_of(alloc, grammar, derivation),
        ChainVerdict::Infeasible | ChainVerdict::Large => Ok(Vec::new(alloc)),
    }
}

/// What comes of the rendering of a feasible chain's tokens, where texts are rendered.
fn text_of(
    alloc: Global,
    work: Option<&RenderWork<'_>>,
    verdict: &ChainVerdict,
    tokens: &[u16],
) -> Result<Option<Rendered>, AllocError>
    requires { IfSome work (λ work. TakesTokens work.now tokens.now) }
    ensures { IfOk result (IsTextBy work.entry verdict.now tokens.now) }
{
    let Some(work) = work else {
        return Ok(None);
    };
    match verdict {
        ChainVerdict::Feasible { .. } => {
            let rendered = render(alloc, work.scanner, work.lexemes, work.separator, tokens)?;
            Ok(Some(rendered))
        }
        ChainVerdict::Infeasible | ChainVerdict::Large => Ok(None),
    }
}

/// What is told of chains, by the least contexts of a grammar, and by what texts are rendered with.
#[derive(Clone, Copy)]
pub(crate) struct TellWork<'a> {
    pub(crate) embeds: &'a Embeds<'a>,
    pub(crate) work: Option<&'a RenderWork<'a>>,
}

impl<'a> Work<Chain, Told> for TellWork<'a> {
    ghost use Rattle.cs_chain.specs.Chains.Chain.{IsChain};
    ghost use Rattle.cs_chain_text.specs.Progress.{CanTell, IsToldBy};

    ghost takes = { λ tell chain. CanTell tell × IsChain tell.embeds.now.grammar chain };

    ghost answers = { λ tell chain told. IsToldBy tell chain told };

    fn one(&self, alloc: Global, item: &Chain) -> Result<Told, AllocError> {
        let grammar = self.embeds.grammar();
        let _well_formed = grammar.rules();
        let verdict = judge_chain(alloc, self.embeds, item)?;
        let tokens = tokens_of(alloc, grammar, &verdict)?;
        let rendered = text_of(alloc, self.work, &verdict, &tokens)?;
        Ok(Told {
            chain: *item,
            verdict,
            tokens,
            rendered,
        })
    }
}
