//! Why payloads were not split.
ghost use Rattle.std.specs.Prelude.{◌≡◌};

use ldm_bytes::NoMemory;
use std::alloc::AllocError;

/// Why payloads were not split.
#[derive(Clone, Copy, PartialEq, Eq)]
pub enum SplitError {
    /// The payloads need more blocks than there are.
    NoRoom {
        /// The blocks that they need.
        need: u64,
        /// The blocks that there are.
        have: u64,
    },
    /// Memory ran out.
    NoMemory,
}

impl From<NoMemory> for SplitError {
    ghost use Rattle.ldm_written.specs.declared.error.SplitError.{SplitError};

    ghost from_gives = { λ _ e. e ≡ SplitError.NoMemory };

    fn from(_error: NoMemory) -> SplitError {
        SplitError::NoMemory
    }
}

impl From<AllocError> for SplitError {
    ghost use Rattle.ldm_written.specs.declared.error.SplitError.{SplitError};

    ghost from_gives = { λ _ e. e ≡ SplitError.NoMemory };

    fn from(_error: AllocError) -> SplitError {
        SplitError::NoMemory
    }
}
