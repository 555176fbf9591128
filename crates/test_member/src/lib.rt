//! Tests of membership by public calls alone: all lists up to a length against all sentences of small grammars, long lists, and
//! workers.
#![tactic(auto)]

#[cfg(test)]
mod judged;
#[cfg(test)]
mod long;
#[cfg(test)]
mod small;
#[cfg(test)]
mod workers;
