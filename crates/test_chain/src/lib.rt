//! Tests of chains by public calls alone: their list, how many there are, their verdicts, and workers.
#![tactic(auto)]

#[cfg(test)]
mod judged;
#[cfg(test)]
mod listed;
