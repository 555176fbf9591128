//! Tests of neighbours, verdicts and cases by their public calls alone. Nothing stands on this crate.

#[cfg(test)]
mod cases;
#[cfg(test)]
mod closed;
#[cfg(test)]
mod pairs;
#[cfg(test)]
mod positive;
#[cfg(test)]
mod prepared;
