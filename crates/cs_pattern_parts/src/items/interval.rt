// Intervals and names between braces.

ghost use Rattle.std.specs.Prelude.{◌≡◌, ◌≤◌, ◌<◌, ◌+◌, ◌^◌, ℕ, length, IfSome, option_map, min};
ghost use Rattle.cs_pattern_parts.specs.Items.Interval as spec;

use crate::items::MOST_REPEATS;
use crate::items::item::Repetition;
use cs_bytes::{ByteClass, begins, from_offset, has_at, number, run_len};

/// The interval of these two numbers, where it is one.
fn between(least: u32, most: u32) -> Option<Repetition>
    ensures { result ≡ spec.between least most }
{
    if least <= most && 1 <= most && most <= MOST_REPEATS {
        Some(Repetition::Between(least, most))
    } else {
        None
    }
}

fn exactly(least: u32) -> Option<Repetition>
    ensures { result ≡ spec.exactly least }
{
    if 1 <= least && least <= MOST_REPEATS {
        Some(Repetition::Exactly(least))
    } else {
        None
    }
}

fn at_least(least: u32) -> Option<Repetition>
    ensures { result ≡ spec.at_least least }
{
    if least <= MOST_REPEATS {
        Some(Repetition::AtLeast(least))
    } else {
        None
    }
}

/// The interval, if there is one, with its size.
fn sized(repetition: Option<Repetition>, size: usize) -> Option<(Repetition, usize)>
    ensures value { result ≡ spec.sized repetition size }
    ensures size { IfSome result (λ r. r.1 ≡ size) }
{
    match repetition {
        Some(repetition) => Some((repetition, size)),
        None => None,
    }
}

/// The interval, if there is one, with so many bytes before it.
fn longer(before: usize, found: Option<(Repetition, usize)>) -> Option<(Repetition, usize)>
    requires { IfSome found (λ r. before + r.1 < 2 ^ 64) }
    ensures value { result ≡ spec.longer before found }
    ensures size { (most : ℕ)
        → spec.EndsWithin before most found → IfSome result (λ r. r.1 ≤ most) }
{
    match found {
        Some((repetition, size)) => Some((repetition, before + size)),
        None => None,
    }
}

/// The interval of a least number, and what stands behind its comma.
fn open_interval(least: u32, text: &[u8]) -> Option<(Repetition, usize)>
    ensures value { (n : ℕ)
        → least ≡ min n 4294967295 → result ≡ spec.open_interval n text.now }
    ensures size { IfSome result (λ r. r.1 ≤ length text.now) }
{
    let size = run_len(text, ByteClass::Digit);
    if !has_at(text, size, b'}') {
        return None;
    }
    if size == 0 {
        return sized(at_least(least), 1);
    }
    sized(between(least, number(10, &text[..size])), size + 1)
}

/// The interval behind a `{`, and its size without that.
pub(crate) fn interval(text: &[u8]) -> Option<(Repetition, usize)>
    ensures value { result ≡ spec.interval text.now }
    ensures size { IfSome result (λ r. r.1 ≤ length text.now) }
{
    let size = run_len(text, ByteClass::Digit);
    if size == 0 {
        return None;
    }
    let least = number(10, &text[..size]);
    if has_at(text, size, b'}') {
        return sized(exactly(least), size + 1);
    }
    if !has_at(text, size, b',') {
        return None;
    }
    let found = open_interval(least, from_offset(text, size + 1));
    longer(size + 1, found)
}

/// The name behind a `{`, and its size with the `}`.
#[tactic(auto, unfolding(crate::specs::Items::Interval::name))]
pub(crate) fn name(text: &[u8]) -> Option<(&[u8], usize)>
    ensures value { option_map (λ p. (p.0.now, p.1)) result ≡ spec.name text.now }
    ensures size { IfSome result (λ r. r.1 ≤ length text.now) }
{
    let size = run_len(text, ByteClass::WordOr(b'-'));
    if begins(text, ByteClass::WordStart) && has_at(text, size, b'}') {
        Some((&text[..size], size + 1))
    } else {
        None
    }
}
