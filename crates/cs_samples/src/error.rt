// The error of the calls that make samples.

use std::alloc::AllocError;

/// Why a sample is not made.
#[derive(Clone, Copy, Debug, PartialEq, Eq)]
pub enum SampleError {
    /// The rules make no grammar.
    Grammar,
    /// The numbers or the limit are no weights.
    Weights,
    Memory,
}

impl From<AllocError> for SampleError {
    fn from(_error: AllocError) -> Self {
        SampleError::Memory
    }
}
