//! Numbers, which count from 1, and places in lists, which count from 0.
//!
//! Tokens, nonterminals, rules and the places of right sides are numbered. The layers above go from one to the other by
//! these calls alone. There are no `specs/Numbers/`: the clauses say it all.

ghost use Rattle.std.specs.Prelude.{◌≡◌, ◌+◌, ◌-◌, ◌<◌};

/// The place in a list of what has this number.
#[inline]
pub fn place_of(number: u16) -> usize
    requires { 0 < number }
    ensures { result ≡ number - 1 }
{
    number as usize - 1
}

/// The number of what stands at this place of a list.
#[inline]
pub fn number_of(place: usize) -> u16
    requires { place < 65535 }
    ensures { result ≡ place + 1 }
{
    place as u16 + 1
}
