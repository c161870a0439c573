//! Faults of a list of blocks, and the records that they hold.
ghost use Rattle.std.specs.Prelude.{◌≡◌};

use ldm_bytes::{Bytes, NoMemory};
use std::alloc::AllocError;

/// Why blocks hold no list of records. Each names a block by its number, which for the first block
/// of a list is 4.
#[derive(Clone, Copy, PartialEq, Eq)]
pub enum FragFault {
    /// The block doesn't begin with `VBLK`.
    NoMagic(u32),
    /// The block's number of parts is over 4.
    Parts(u32),
    /// The fragment's part isn't below its number of parts.
    Part(u32),
    /// An earlier fragment of the same group has another number of parts.
    Mixed(u32),
    /// An earlier fragment of the same group is the same part.
    Repeated(u32),
    /// The group of the fragment lacks a part, and no block before it is of such a group.
    Missing(u32),
}

/// Why blocks were not joined.
#[derive(Clone, Copy, PartialEq, Eq)]
pub enum FragError {
    /// The blocks have a fault. This is the first.
    Fault(FragFault),
    /// Memory ran out.
    NoMemory,
}

impl From<NoMemory> for FragError {
    ghost use Rattle.ldm_frags.specs.declared.faults.FragError.{FragError};

    ghost from_gives = { λ _ e. e ≡ FragError.NoMemory };

    fn from(_error: NoMemory) -> FragError {
        FragError::NoMemory
    }
}

/// A record's payload, and the number of its whole block or of its block of part 0.
#[derive(Drop)]
pub struct Joined {
    /// The number of a block, from 4 on.
    pub block: u32,
    /// The payload's bytes, 112 of each block.
    pub payload: Bytes,
}
