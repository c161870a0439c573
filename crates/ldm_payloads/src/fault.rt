//! Why a payload gives no record.
ghost use Rattle.std.specs.Prelude.{◌≡◌};
ghost use Rattle.ldm_payloads.specs.declared.fault.RecordError.TheVariants as errors;

use ldm_bytes::NoMemory;

/// Why a payload is no record.
#[derive(Clone, Copy, PartialEq, Eq)]
pub enum RecordFault {
    /// The type byte is none of the seven.
    UnknownType(u8),
    /// The payload spells no record. It has fewer than 8 bytes, or its type byte is one of the
    /// seven.
    Malformed,
}

/// Why no record was read.
#[derive(Clone, Copy, PartialEq, Eq)]
pub enum RecordError {
    Fault(RecordFault),
    NoMemory,
}

impl From<NoMemory> for RecordError {
    ghost from_gives = { λ _ e. e ≡ errors.NoMemory };

    fn from(_error: NoMemory) -> RecordError {
        RecordError::NoMemory
    }
}
