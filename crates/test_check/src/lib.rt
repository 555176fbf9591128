//! Tests of the checker, of its closed sets, of its reading of lines and of its text, by their public calls alone. The sets were
//! worked out by hand from their definition, the lines, the manifest, its faults and the texts from the formats.
#![tactic(auto)]

#[cfg(test)]
mod checking;
#[cfg(test)]
mod closed;
#[cfg(test)]
mod lines;
#[cfg(test)]
mod written;
