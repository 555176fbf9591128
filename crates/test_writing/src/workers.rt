//! Tests of workers, of lists that they render and of gates that wait for each other, by public calls alone. Nothing stands on this
//! crate.

#[cfg(test)]
mod fan;
#[cfg(test)]
mod meeting;
#[cfg(test)]
mod rendering;
#[cfg(test)]
mod suites;
#[cfg(test)]
mod two_flags;
