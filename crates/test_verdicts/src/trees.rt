//! Tests of the layers of trees by their public calls alone: grammars, goals, least trees, kinds of trees, least ways, least
//! contexts, and the edits of sentences.

#[cfg(test)]
mod contexts;
#[cfg(test)]
mod costs;
#[cfg(test)]
mod derivations;
#[cfg(test)]
mod goals;
#[cfg(test)]
mod kinds;
#[cfg(test)]
mod mutate;
#[cfg(test)]
pub(crate) mod prepared;
#[cfg(test)]
mod ways;
