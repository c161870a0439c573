//! Why no group is found.
ghost use Rattle.std.specs.Prelude.{◌≡◌};
ghost use Rattle.ldm_found.specs.declared.fault.OpenError.TheVariants as errors;

use ldm_bytes::NoMemory;
use ldm_copy::OpenFault;
use ldm_host::Failed;
use std::alloc::AllocFailed;

/// Why there is no group to be had.
#[derive(Clone, Copy, PartialEq, Eq)]
pub enum OpenError {
    /// The images have this fault. It is the first.
    Fault(OpenFault),
    /// A call of a disk failed.
    Disk,
    /// Memory ran out.
    NoMemory,
}

impl From<Failed> for OpenError {
    ghost from_gives = { λ _ error. error ≡ errors.Disk };

    fn from(_failed: Failed) -> OpenError {
        OpenError::Disk
    }
}

impl From<NoMemory> for OpenError {
    ghost from_gives = { λ _ error. error ≡ errors.NoMemory };

    fn from(_error: NoMemory) -> OpenError {
        OpenError::NoMemory
    }
}

impl<T: Drop> From<AllocFailed<T>> for OpenError {
    ghost from_gives = { λ _ error. error ≡ errors.NoMemory };

    fn from(_error: AllocFailed<T>) -> OpenError {
        OpenError::NoMemory
    }
}
