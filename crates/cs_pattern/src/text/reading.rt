// The items of a text, up to the first place where reading stops.

ghost use Rattle.std.specs.Prelude.{◌≡◌, ◌<◌, ◌≤◌, ◌^◌, length, IfOk, IfErr};
ghost use Rattle.cs_bytes.specs.Limits.{most_bytes};
ghost use Rattle.cs_pattern.specs.Text.Table as spec;
ghost use Rattle.cs_pattern_parts.specs.Items.Views.{placed_all};
ghost use Rattle.cs_pattern.specs.Text.ReadView.{IsNext, StopsReading};

use crate::text::fault::{PatternError, PatternFault};
use crate::text::place::{PatternPlace, beginning, behind, may_end};
use cs_bytes::{from_offset, has_at};
use cs_pattern_parts::{Front, Item, Placed, Stop, front_of};
use std::alloc::{AllocError, Global};

/// What comes next in a text: an item with its size and the place behind it, or where reading stops.
enum Next {
    Item(Item, usize, PatternPlace),
    Stop(Stop),
}

fn next_of(alloc: Global, text: &[u8], place: PatternPlace) -> Result<Next, AllocError>
    requires { place.groups < 2 ^ 32 }
    ensures { IfOk result (IsNext text.now place) }
{
    match front_of(alloc, text)? {
        Front::Item(item, size) => match behind(place, &item) {
            Some(next) => Ok(Next::Item(item, size, next)),
            None => Ok(Next::Stop(Stop::Syntax)),
        },
        Front::Stop(stop) => Ok(Next::Stop(stop)),
    }
}

fn fault(stop: Stop, at: u32) -> PatternFault
    ensures { result ≡ spec.fault_of stop at }
{
    match stop {
        Stop::Anchor => PatternFault::Anchor { at },
        Stop::Trailing => PatternFault::Trailing { at },
        Stop::Collation => PatternFault::Collation { at },
        Stop::Syntax => PatternFault::Syntax { at },
    }
}

/// The items of a text, each of which may stand where it stands.
pub(crate) fn items(alloc: Global, bytes: &[u8]) -> Result<Vec<Placed>, PatternError>
    requires { length bytes.now ≤ most_bytes }
    ensures read { IfOk result (λ v. spec.Reads bytes.now (placed_all v.items)) }
    ensures short { IfOk result (λ v. length v.items ≤ length bytes.now) }
    ensures stops { IfErr result (StopsReading bytes.now) }
{
    if has_at(bytes, 0, b'<') {
        return Err(PatternError::Fault(PatternFault::Condition { at: 0 }));
    }
    let mut items = Vec::new(alloc);
    let mut place = beginning();
    let mut at = 0;
    while at < bytes.len() {
        match next_of(alloc, from_offset(bytes, at), place)? {
            Next::Item(item, size, next) => {
                items.push(Placed {
                    at: at as u32,
                    item,
                })?;
                place = next;
                at += size;
            }
            Next::Stop(stop) => return Err(PatternError::Fault(fault(stop, at as u32))),
        }
    }
    if may_end(place) {
        Ok(items)
    } else {
        Err(PatternError::Fault(PatternFault::Syntax { at: at as u32 }))
    }
}
