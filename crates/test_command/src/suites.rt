//! Tests of suites of both formats, by the command alone. Nothing stands on this crate.

#[cfg(test)]
mod ending;
#[cfg(test)]
mod first;
#[cfg(test)]
mod second;
