// A base, ready for the making of its negatives.

ghost use Rattle.std.specs.Prelude.{◌↔◌, ◌≤◌, IfOk, IsTrue, length};
ghost use Rattle.cs_texts.specs.Work.Renders.{TakesTokens};
ghost use Rattle.cs_texts.specs.Splice.Apart.{AreApart};
ghost use Rattle.cs_writing.specs.Mutants.Makers.{IsMakerOf};

use crate::mutants::tools::Tools;
use cs_texts::Prepared;
use std::alloc::{AllocError, Global};
use std::marker::Model;

/// What makes the negatives of a base: the tools, the number of the base, its tokens, and these ready to render lists near them.
#[derive(Drop)]
pub struct Maker<'a> {
    pub(crate) tools: &'a Tools<'a>,
    pub(crate) number: u32,
    pub(crate) base: &'a [u16],
    pub(crate) near: Prepared<'a>,
    // Whether each token of the base stands apart in texts.
    pub(crate) apart: bool,
}

impl<'a> Model for Maker<'a> {
    ghost use Rattle.std.specs.Coded.{codes};
    ghost use Rattle.cs_pattern_parts.specs.contracts.tree.pattern.Pattern as pattern;
    ghost use Rattle.cs_writing.specs.Mutants.Makers.{IsReady, Making};

    ghost Value = { Making };

    ghost coded = { Prim.hlevel (codes, pattern.the_row.coded) };

    ghost view = { λ m. record { tools = m.tools.now; number = m.number; base = m.base.now } };

    ghost invariant = { λ m. IsReady
        (record { tools = m.tools.now; number = m.number; base = m.base.now }) m.near m.apart };
}

impl<'a> Maker<'a> {
    /// What makes the negatives of a base of at most 1,000,000 tokens, with its number. It renders the base.
    pub fn new(
        alloc: Global,
        tools: &'a Tools<'a>,
        number: u32,
        base: &'a [u16],
    ) -> Result<Maker<'a>, AllocError>
        requires base { TakesTokens tools.now.work base.now }
        requires short { length base.now ≤ 1000000 }
        ensures { IfOk result (IsMakerOf tools.now number base.now) }
    {
        let near = Prepared::new(alloc, tools.work, base)?;
        Ok(Maker {
            tools,
            number,
            base,
            near,
            apart: stand_apart(tools, base),
        })
    }
}

// Whether each of the tokens stands apart in texts.
fn stand_apart(tools: &Tools<'_>, tokens: &[u16]) -> bool
    ensures { IsTrue result ↔ AreApart tools.now.apart tokens.now }
{
    tokens.iter().all(|token| tools.is_apart(*token))
}
