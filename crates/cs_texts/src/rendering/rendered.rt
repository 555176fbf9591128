// What comes of a list of tokens that is rendered.

ghost use Rattle.std.specs.Prelude.{◌≡◌};
ghost use Rattle.cs_texts.specs.Rendering.Rendering.{rendering, rendering_in};

/// The text of a list of tokens, or why it has none.
#[derive(Debug, Drop)]
pub enum Rendered {
    /// The lexemes, joined by the separator. The text scans to the tokens.
    Text(Vec<u8>),
    /// The first token that has no lexeme.
    NoLexeme(u16),
    /// The joined text doesn't scan to the tokens: so many tokens are the same at the fronts of the list and of what the scan
    /// gives before it ends or stops.
    Differs { after: u32 },
}

/// What came of a list of tokens that was rendered, lent. A text is in three parts that stand one behind another.
#[derive(Clone, Copy, Debug)]
pub enum RenderedParts<'a> {
    Text {
        front: &'a [u8],
        middle: &'a [u8],
        back: &'a [u8],
    },
    NoLexeme(u16),
    Differs {
        after: u32,
    },
}

impl Rendered {
    /// The same, lent: a text is one part.
    pub fn parts(&self) -> RenderedParts<'_>
        ensures { rendering_in result ≡ rendering self.now }
    {
        match self {
            Rendered::Text(text) => RenderedParts::Text {
                front: text.as_slice(),
                middle: &[],
                back: &[],
            },
            Rendered::NoLexeme(token) => RenderedParts::NoLexeme(*token),
            Rendered::Differs { after } => RenderedParts::Differs { after: *after },
        }
    }
}
