//! Why records make no database.
use ldm_bytes::NoMemory;
use std::alloc::AllocError;

/// Why records make no database.
#[derive(Clone, Copy, PartialEq, Eq)]
pub enum DbError {
    /// Two records of this kind have this id. It is the least kind, and then the least id.
    SameId { kind: u8, id: u64 },
    NoMemory,
}

impl From<AllocError> for DbError {
    ghost use Rattle.std.specs.Prelude.{◌≡◌};
    ghost use Rattle.ldm_group.specs.declared.error.DbError.TheVariants.{NoMemory};

    ghost from_gives = { λ _ error. error ≡ NoMemory };

    fn from(_error: AllocError) -> DbError {
        DbError::NoMemory
    }
}

impl From<NoMemory> for DbError {
    ghost use Rattle.std.specs.Prelude.{◌≡◌};
    ghost use Rattle.ldm_group.specs.declared.error.DbError.TheVariants as errors;

    ghost from_gives = { λ _ error. error ≡ errors.NoMemory };

    fn from(_error: NoMemory) -> DbError {
        DbError::NoMemory
    }
}
