//! Why it can't be said what is damaged.
use ldm_bytes::NoMemory;
use ldm_host::Failed;
use std::alloc::{AllocError, AllocFailed};

/// Why it can't be said what is damaged.
#[derive(Clone, Copy, PartialEq, Eq)]
pub enum DamageError {
    /// A call of a disk failed.
    Disk,
    /// Memory ran out.
    NoMemory,
}

impl From<Failed> for DamageError {
    ghost use Rattle.std.specs.Prelude.{◌≡◌};
    ghost use Rattle.ldm_damage.specs.declared.error.DamageError.TheVariants.{Disk};

    ghost from_gives = { λ _ error. error ≡ Disk };

    fn from(_failed: Failed) -> DamageError {
        DamageError::Disk
    }
}

impl From<NoMemory> for DamageError {
    ghost use Rattle.std.specs.Prelude.{◌≡◌};
    ghost use Rattle.ldm_damage.specs.declared.error.DamageError.TheVariants.{NoMemory};

    ghost from_gives = { λ _ error. error ≡ NoMemory };

    fn from(_error: NoMemory) -> DamageError {
        DamageError::NoMemory
    }
}

impl<T: Drop> From<AllocFailed<T>> for DamageError {
    ghost use Rattle.std.specs.Prelude.{◌≡◌};
    ghost use Rattle.ldm_damage.specs.declared.error.DamageError.TheVariants.{NoMemory};

    ghost from_gives = { λ _ error. error ≡ NoMemory };

    fn from(_error: AllocFailed<T>) -> DamageError {
        DamageError::NoMemory
    }
}

impl From<AllocError> for DamageError {
    ghost use Rattle.std.specs.Prelude.{◌≡◌};
    ghost use Rattle.ldm_damage.specs.declared.error.DamageError.TheVariants.{NoMemory};

    ghost from_gives = { λ _ error. error ≡ NoMemory };

    fn from(_error: AllocError) -> DamageError {
        DamageError::NoMemory
    }
}
