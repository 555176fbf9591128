//! Tests of the writing of manifests by public calls alone: the entries of plans, whole manifests, the writers, how a run ends.
//! Nothing stands on this crate.

#[cfg(test)]
mod endings;
#[cfg(test)]
mod entries;
#[cfg(test)]
mod manifests;
#[cfg(test)]
mod writers;
