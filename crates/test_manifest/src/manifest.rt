//! Tests of the lines and the bases of manifests, by public calls alone. Nothing stands on this crate.

#[cfg(test)]
mod bases;
#[cfg(test)]
mod filled;
#[cfg(test)]
mod lines;
#[cfg(test)]
mod numerals;
#[cfg(test)]
mod shared;
