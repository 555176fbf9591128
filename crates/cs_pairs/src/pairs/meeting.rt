// Where two tokens meet in their chosen tree.

ghost use Rattle.std.specs.Prelude.{◌≡◌};
ghost use Rattle.cs_pairs.specs.Pairs.Meetings.{origin_in};

use cs_least::Reach;
use std::marker::Model;

// Two tokens, one directly followed by the other.
#[derive(Clone, Copy, Debug)]
pub(crate) struct TokenPair {
    pub(crate) first: u16,
    pub(crate) second: u16,
}

// The rule of the node at which two tokens meet, and the place of its child that ends with the first.
#[derive(Clone, Copy, Debug)]
pub(crate) struct Meeting {
    pub(crate) rule: u16,
    pub(crate) place: u16,
}

// Where the pairs of one second token meet that have a tree within the limit: that of first token 1 stands first.
#[derive(Debug, Drop)]
pub(crate) struct Meetings {
    places: Vec<Option<Meeting>>,
}

impl Model for Meetings {
    ghost use Rattle.std.specs.Prelude.{List, Option};
    ghost use Rattle.cs_pairs.specs.declared.pairs.meeting.Meeting.{Meeting};

    ghost Value = { List (Option Meeting) };

    ghost view = { λ m. m.places.items };
}

impl Meetings {
    pub(crate) fn new(places: Vec<Option<Meeting>>) -> Meetings
        ensures { result ≡ places.items }
    {
        Meetings { places }
    }

    pub(crate) fn places(&self) -> &[Option<Meeting>]
        ensures { result.now ≡ self.now }
    {
        &self.places
    }
}

// The place of the source of the least ways to a node.
pub(crate) fn origin_in(places: &[Meeting], reach: Reach) -> Option<Meeting>
    ensures { result ≡ origin_in places.now reach }
{
    match reach {
        Reach::Least { origin, .. } => places.get(origin as usize).copied(),
        _ => None,
    }
}
