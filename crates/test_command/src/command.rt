//! Tests of the command: its words, its files, the manifests of rules, and summaries; by public calls alone. Nothing stands on
//! this crate.

#[cfg(test)]
mod checks;
#[cfg(test)]
mod inputs;
#[cfg(test)]
mod reports;
#[cfg(test)]
mod rules;
#[cfg(test)]
mod summary;
#[cfg(test)]
mod words;
