//! The counter's rule, and what each kind of step does to a view or tells its caller.

use crate::view::View;
use atomic_table::{Join, Play, Split, TableRule};

/// The rule of a counter, told by its numbers of items and of workers.
pub(crate) struct Draws;

impl TableRule<u8, View, (u32, u16)> for Draws {
    ghost use Rattle.cs_fan.specs.Rule.{Kept, first_view};

    ghost holds = { Kept };

    ghost first = { first_view };
}

/// A draw: the word grows by 1, and the seat gets the number or sees the end.
pub(crate) struct Draw;

impl Play<u8, View> for Draw {
    ghost use Rattle.cs_fan.specs.Rule.{Drew};

    ghost then = { Drew };
}

/// A look at the word, which changes nothing and tells what the rule says of the seat.
pub(crate) struct Look;

impl Play<u8, View> for Look {
    ghost use Rattle.cs_fan.specs.Rule.{Looked};

    ghost then = { Looked };
}

/// One worker's part of a view, split off and joined again.
pub(crate) struct Part;

impl Split<View> for Part {
    ghost use Rattle.cs_fan.specs.Rule.{kept_part, given_part};

    ghost left = { kept_part };

    ghost right = { given_part };
}

impl Join<View> for Part {
    ghost use Rattle.cs_fan.specs.Rule.{together, spent};

    ghost both = { together };

    ghost spent = { spent };
}
