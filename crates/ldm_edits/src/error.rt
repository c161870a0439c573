//! Why a command gives no next group.
ghost use Rattle.std.specs.Prelude.{◌≡◌};
ghost use Rattle.ldm_edits.specs.declared.error.StepError.TheVariants as errors;

use crate::reply::Refusal;
use ldm_bytes::NoMemory;
use std::alloc::AllocFailed;

/// Why a command isn't done.
#[derive(Clone, Copy)]
pub enum StepError {
    Refused(Refusal),
    NoMemory,
}

impl From<NoMemory> for StepError {
    ghost from_gives = { λ _ error. error ≡ errors.NoMemory };

    fn from(_error: NoMemory) -> StepError {
        StepError::NoMemory
    }
}

impl<T: Drop> From<AllocFailed<T>> for StepError {
    ghost from_gives = { λ _ error. error ≡ errors.NoMemory };

    fn from(_error: AllocFailed<T>) -> StepError {
        StepError::NoMemory
    }
}
