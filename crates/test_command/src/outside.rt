//! Tests of the outside, and of the command where a file can't be read or an output can't be written, by public calls alone.
//! Nothing stands on this crate.

#[cfg(test)]
mod desks_and_sinks;
#[cfg(test)]
mod error_output;
#[cfg(test)]
mod failing;
#[cfg(test)]
mod rules;
#[cfg(test)]
mod suite;
#[cfg(test)]
mod summary;
