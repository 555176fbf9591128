//! Tests of the crates that scan, by their public calls alone.

#[cfg(test)]
mod automaton;
#[cfg(test)]
mod graph;
#[cfg(test)]
mod items;
#[cfg(test)]
mod lexed;
#[cfg(test)]
mod patterns;
#[cfg(test)]
mod rules;
#[cfg(test)]
mod scan;
#[cfg(test)]
mod sets;
