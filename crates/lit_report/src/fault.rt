//! That a write failed (decision 191).

use thiserror::Error;

/// A write failed, or took nothing of bytes that are not empty.
#[derive(Clone, Copy, Debug, PartialEq, Eq, Error)]
#[error("output_failed")]
pub struct OutputFailed;
