//! Tests of negatives as they are made, and of the texts that are told for them, by public calls alone.

#[cfg(test)]
mod apart;
#[cfg(test)]
mod compared;
#[cfg(test)]
mod edits;
#[cfg(test)]
mod made;
#[cfg(test)]
mod near;
#[cfg(test)]
mod work;
