//! The text of a list of tokens, where the lexemes, joined by a separator, scan back to the tokens.
//!
//! The layers above render a list of tokens by `render` and write what came of it. What an answer says is its `rendering`. The
//! laws say that a list of tokens has exactly one. What lists are rendered with is a [`RenderWork`].
//!
//! Meaning: `specs/Rendering/Rendering.antt` (values of answers, and which one a list of tokens has), `specs/Rendering/Joined.antt`,
//! `specs/Rendering/Laws.antt`, `specs/Rendering/ByWork.antt` (the rendering by a [`RenderWork`]). Working words of proofs: `specs/Rendering/Parts.antt`.

mod laws;
mod render_work;
mod rendered;
mod text;

pub use laws::{one_rendering, some_rendering};
pub use render_work::RenderWork;
pub use rendered::{Rendered, RenderedParts};
pub use text::render;
