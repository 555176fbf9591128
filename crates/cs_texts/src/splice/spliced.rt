// What comes of a list of tokens that is rendered by one that is near it.

ghost use Rattle.std.specs.Prelude.{◌≡◌};
ghost use Rattle.cs_texts.specs.Rendering.Rendering.{rendering_in};
ghost use Rattle.cs_texts.specs.Splice.Spliced.{rendering_around};

use crate::rendering::{Rendered, RenderedParts};

/// What came of the rendering of a list, but for the middle of a text, which is kept beside it.
#[derive(Drop)]
pub enum Spliced<'p> {
    /// The front and the back of the list's text, which the prepared list's text has too.
    Around { front: &'p [u8], back: &'p [u8] },
    /// What came of it without that text.
    Whole(Rendered),
}

impl<'p> Spliced<'p> {
    /// The same with the middle, lent.
    pub fn parts<'m>(&'m self, middle: &'m [u8]) -> RenderedParts<'m>
        ensures { rendering_in result ≡ rendering_around middle.now self.now }
    {
        match self {
            Spliced::Around { front, back } => RenderedParts::Text {
                front,
                middle,
                back,
            },
            Spliced::Whole(rendered) => rendered.parts(),
        }
    }
}
