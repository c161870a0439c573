//! What is answered of a copy: closed, valid, or its first fault.
ghost use Rattle.std.specs.Prelude.{◌≡◌};
ghost use Rattle.ldm_copy.specs.Errors.{of_vmdb, of_frag};
ghost use Rattle.ldm_copy.specs.declared.answer.CopyError.TheVariants as errors;

use ldm_bytes::NoMemory;
use ldm_frags::{FragError, FragFault};
use ldm_group::Db;
use ldm_host::Failed;
use ldm_payloads::RecordFault;
use ldm_vmdb::{VmdbError, VmdbFault};
use std::alloc::{AllocError, AllocFailed};

/// What a copy without a fault is.
#[derive(Drop)]
pub enum CopyState {
    /// The first byte of the area isn't the letter V. Nothing else of it is looked at.
    Closed,
    /// The copy is open, and this is its database.
    Valid(Db),
}

/// What is wrong with an open copy. The faults are looked for in this order.
#[derive(Clone, Copy, PartialEq, Eq)]
pub enum CopyFault {
    /// The header sector has this fault.
    Vmdb(VmdbFault),
    /// The blocks in use have this fault.
    Frag(FragFault),
    /// The record whose whole block, or block of part 0, has this number doesn't read. All records
    /// before it do.
    BadRecord(u32, RecordFault),
    /// Two records of this kind have this id. It is the least kind, and then the least id.
    SameId { kind: u8, id: u64 },
}

/// Why there is no copy to be had.
#[derive(Clone, Copy, PartialEq, Eq)]
pub enum CopyError {
    /// The copy has this fault. It is the first.
    Fault(CopyFault),
    /// A call of the disk failed.
    Disk,
    /// Memory ran out.
    NoMemory,
}

impl From<Failed> for CopyError {
    ghost from_gives = { λ _ error. error ≡ errors.Disk };

    fn from(_failed: Failed) -> CopyError {
        CopyError::Disk
    }
}

impl From<NoMemory> for CopyError {
    ghost from_gives = { λ _ error. error ≡ errors.NoMemory };

    fn from(_error: NoMemory) -> CopyError {
        CopyError::NoMemory
    }
}

impl From<AllocError> for CopyError {
    ghost from_gives = { λ _ error. error ≡ errors.NoMemory };

    fn from(_error: AllocError) -> CopyError {
        CopyError::NoMemory
    }
}

impl<T: Drop> From<AllocFailed<T>> for CopyError {
    ghost from_gives = { λ _ error. error ≡ errors.NoMemory };

    fn from(_error: AllocFailed<T>) -> CopyError {
        CopyError::NoMemory
    }
}

impl From<VmdbError> for CopyError {
    ghost from_gives = { λ from error. error ≡ of_vmdb from };

    fn from(error: VmdbError) -> CopyError {
        match error {
            VmdbError::Fault(fault) => CopyError::Fault(CopyFault::Vmdb(fault)),
            VmdbError::NoMemory => CopyError::NoMemory,
        }
    }
}

impl From<FragError> for CopyError {
    ghost from_gives = { λ from error. error ≡ of_frag from };

    fn from(error: FragError) -> CopyError {
        match error {
            FragError::Fault(fault) => CopyError::Fault(CopyFault::Frag(fault)),
            FragError::NoMemory => CopyError::NoMemory,
        }
    }
}
