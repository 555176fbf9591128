//! The rendering of lists of tokens as work that several workers share.
//!
//! The layers above make a [`crate::rendering::RenderWork`] of what `crate::rendering::render` is called with for each list, and
//! lend it to `cs_fan::fan`: the answers are then the renderings of the lists, in the lists' order, for every number of workers.
//!
//! Meaning: `specs/Work/Renders.antt` (the lists that the work takes).

mod work;
