//! Parts that records have in common.
ghost use Rattle.std.specs.Prelude.{◌≡◌, ◌≤◌, length, IfOk};

use crate::cloning::both_clone;
use ldm_bytes::{Bytes, NoMemory};
use std::alloc::Global;

/// What every record begins with. `mark` is carried and not interpreted; `flags` says which
/// optional fields are there, and its other bits are carried.
#[derive(Drop)]
pub struct Head {
    pub mark: u16,
    pub flags: u8,
    pub id: u64,
    pub name: Bytes,
    pub ghost name_short: { length name ≤ 255 },
}

impl Head {
    /// An equal head.
    pub fn clone_in(&self, alloc: Global) -> Result<Head, NoMemory>
        ensures { IfOk result (λ h. h ≡ self.now) }
    {
        let name = self.name.clone_in(alloc)?;
        Ok(Head {
            mark: self.mark,
            flags: self.flags,
            id: self.id,
            name,
        })
    }
}

/// How the columns of a component are striped: sectors of a chunk, and the number of columns.
#[derive(Clone, Copy)]
pub struct Striping {
    pub chunk: u64,
    pub columns: u64,
}

/// Two texts of a group, carried and not interpreted.
#[derive(Drop)]
pub struct TwoIds {
    pub first: Bytes,
    pub second: Bytes,
    pub ghost first_short: { length first ≤ 255 },
    pub ghost second_short: { length second ≤ 255 },
}

impl TwoIds {
    /// An equal pair.
    pub fn clone_in(&self, alloc: Global) -> Result<TwoIds, NoMemory>
        ensures { IfOk result (λ t. t ≡ self.now) }
    {
        let (first, second) = both_clone(&self.first, &self.second, alloc)?;
        Ok(TwoIds { first, second })
    }
}

/// What a disk has beside its GUID, in the two versions of its record. Version 3 spells the GUID as
/// a text, version 4 as 16 bytes.
#[derive(Drop)]
pub enum DiskForm {
    V3 { alt: Bytes, fixed12: [u8; 12] },
    V4 { fixed29: [u8; 29] },
}

impl DiskForm {
    /// An equal form.
    pub fn clone_in(&self, alloc: Global) -> Result<DiskForm, NoMemory>
        ensures { IfOk result (λ f. f ≡ self.now) }
    {
        match self {
            DiskForm::V3 { alt, fixed12 } => {
                let alt = alt.clone_in(alloc)?;
                Ok(DiskForm::V3 {
                    alt,
                    fixed12: *fixed12,
                })
            }
            DiskForm::V4 { fixed29 } => Ok(DiskForm::V4 { fixed29: *fixed29 }),
        }
    }
}

/// What a group has in the two versions of its record. The GUID of version 3 is carried as a text.
#[derive(Drop)]
pub enum GroupForm {
    V3 { guid: Bytes, fixed12: [u8; 12] },
    V4 { fixed44: [u8; 44] },
}

impl GroupForm {
    /// An equal form.
    pub fn clone_in(&self, alloc: Global) -> Result<GroupForm, NoMemory>
        ensures { IfOk result (λ f. f ≡ self.now) }
    {
        match self {
            GroupForm::V3 { guid, fixed12 } => {
                let guid = guid.clone_in(alloc)?;
                Ok(GroupForm::V3 {
                    guid,
                    fixed12: *fixed12,
                })
            }
            GroupForm::V4 { fixed44 } => Ok(GroupForm::V4 { fixed44: *fixed44 }),
        }
    }
}
