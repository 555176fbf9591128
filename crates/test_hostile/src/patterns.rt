// The deepest patterns: to build, copy, measure and drop one takes no more calls within one another than it is deep, and a text
// beyond the limits is refused before a pattern is made.

ghost use Rattle.std.specs.Prelude.{◌≤◌, length};

use cs_pattern::{Checked, Definitions, MOST_BYTES, PatternError, PatternFault, read_pattern};
use cs_pattern_parts::{copy, leaf_count};
use cs_samples::repeated;
use std::alloc::{AllocError, Global};
use std::test::Fail;

// So many groups within one another, each with a letter before the next and one beside it: two nodes for each group.
fn groups(alloc: Global, depth: u32) -> Result<String, AllocError> {
    let mut text = repeated(alloc, "", "(b", depth, "a")?;
    text.push_str(repeated(alloc, "", "|c)", depth, "")?.as_str())?;
    Ok(text)
}

// How many leaves a text's pattern has, and a copy of it, both dropped here; or the fault.
fn leaves(alloc: Global, text: &[u8], none: &Checked) -> Result<u32, PatternError>
    requires { length text.now ≤ 1048576 }
{
    let pattern = read_pattern(alloc, text, none)?;
    let copied = copy(alloc, &pattern)?;
    drop(pattern);
    Ok(leaf_count(alloc, &copied)?)
}

// How many leaves a text's pattern has, or how deep it is where that is too much.
fn told(alloc: Global, text: &[u8], none: &Checked) -> Result<u32, u32>
    requires { length text.now ≤ 1048576 }
{
    match leaves(alloc, text, none) {
        Ok(count) => Ok(count),
        Err(PatternError::Fault(PatternFault::TooDeep { found, .. })) => Err(found),
        Err(_) => Err(0),
    }
}

// The leaves were counted by hand: `b` and `c` for each group, and `a`.
#[test]
fn the_deepest_patterns(rt: HostRuntime) -> Result<(), Fail> {
    let none = Definitions::new(rt.alloc()).check()?;
    for (depth, want) in [(200, Ok(401)), (201, Err(201)), (200_000, Err(200_000))] {
        let text = groups(rt.alloc(), depth)?;
        let bytes = text.as_bytes();
        assert!(rt; bytes.len() <= MOST_BYTES);
        assert!(rt; told(rt.alloc(), bytes, &none) == want, "{depth}");
    }
    Ok(())
}

// By hand: `a` is the one leaf, and each star adds one to the depth.
#[test]
fn the_deepest_stars(rt: HostRuntime) -> Result<(), Fail> {
    let none = Definitions::new(rt.alloc()).check()?;
    for (depth, want) in [(200, Ok(1)), (1_000_000, Err(1_000_000))] {
        let text = repeated(rt.alloc(), "a", "*", depth, "")?;
        let bytes = text.as_bytes();
        assert!(rt; bytes.len() <= MOST_BYTES);
        assert!(rt; told(rt.alloc(), bytes, &none) == want, "{depth}");
    }
    Ok(())
}
