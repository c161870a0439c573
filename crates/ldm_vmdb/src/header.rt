//! The header of the database (VMDB), and its faults.
ghost use Rattle.ldm_vmdb.specs.Sectors.{IsKeptHeader};

use ldm_bytes::{Bytes, NoMemory};
use std::alloc::Global;

/// The header of a database. It keeps the sector that it was read from, but for what changes with
/// each commit.
#[derive(Drop)]
pub struct Header {
    /// The last VBLK sequence.
    pub last: u32,
    /// The committed sequence.
    pub seq: u64,
    /// The name of the group.
    pub name: Bytes,
    /// The GUID of the group.
    pub guid: u128,
    /// The carried header bytes: the sector with the last VBLK sequence, both sequences and all
    /// counts zero.
    pub raw: [u8; 512],
    pub ghost kept: { IsKeptHeader name guid raw },
}

impl Header {
    ghost use Rattle.std.specs.Prelude.{◌≡◌, IfOk};
    ghost use Rattle.ldm_vmdb.specs.Headers.{grown_to, with_seq};

    /// An equal header but for its committed sequence, as the next database has it.
    pub fn with_seq(&self, alloc: Global, seq: u64) -> Result<Header, NoMemory>
        ensures { IfOk result (λ h. h ≡ with_seq self.now seq) }
    {
        let name = self.name.clone_in(alloc)?;
        Ok(Header {
            last: self.last,
            seq,
            name,
            guid: self.guid,
            raw: self.raw,
        })
    }

    /// An equal header but for its last VBLK sequence and its committed sequence, as the next
    /// database has it.
    pub fn grown_to(&self, alloc: Global, last: u32, seq: u64) -> Result<Header, NoMemory>
        ensures { IfOk result (λ h. h ≡ grown_to self.now last seq) }
    {
        let name = self.name.clone_in(alloc)?;
        Ok(Header {
            last,
            seq,
            name,
            guid: self.guid,
            raw: self.raw,
        })
    }
}

/// What is wrong with a header sector.
#[derive(Clone, Copy, PartialEq, Eq)]
pub enum VmdbFault {
    /// It doesn't begin with `VMDB`.
    Magic,
    /// The version isn't 4.10.
    Version,
    /// VBLKs don't have 128 bytes.
    BlockSize,
    /// The first VBLK isn't at byte 512.
    Offset,
    /// The update status isn't 1.
    Unsettled,
    /// The last VBLK lies behind the config area.
    Last,
    /// There is no text of the group's GUID.
    Guid,
}

/// Why a header can't be read.
#[derive(Clone, Copy)]
pub enum VmdbError {
    Fault(VmdbFault),
    NoMemory,
}

impl From<NoMemory> for VmdbError {
    ghost use Rattle.std.specs.Prelude.{◌≡◌};
    ghost use Rattle.ldm_vmdb.specs.declared.header.VmdbError.TheVariants.{NoMemory};

    ghost from_gives = { λ _ error. error ≡ NoMemory };

    fn from(_error: NoMemory) -> Self {
        VmdbError::NoMemory
    }
}
