// The rendering of a list of tokens, as work on an item.

use crate::rendering::{RenderWork, Rendered, render};
use cs_fan::Work;
use std::alloc::{AllocError, Global};

/// The work takes the lists that `render` can be called with, and a list's answer is that call's.
impl<'a> Work<Vec<u16>, Rendered> for RenderWork<'a> {
    ghost use Rattle.cs_texts.specs.Rendering.ByWork.{IsRenderedBy};
    ghost use Rattle.cs_texts.specs.Rendering.Rendering.{rendering};
    ghost use Rattle.cs_texts.specs.Work.Renders.{TakesTokens};

    ghost takes = { λ work tokens. TakesTokens work tokens.items };

    ghost answers = { λ work tokens r. IsRenderedBy work tokens.items (rendering r) };

    fn one(&self, alloc: Global, item: &Vec<u16>) -> Result<Rendered, AllocError> {
        render(alloc, self.scanner, self.lexemes, self.separator, item)
    }
}
