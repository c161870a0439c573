//! All volumes of a group that have a fault of layout.
ghost use Rattle.std.specs.Prelude.{◌≡◌, List, IfOk};
ghost use Rattle.ldm_records.specs.declared.types.Record.{Record};
ghost use Rattle.ldm_layout.specs.Grouped.{IsListsOf};
ghost use Rattle.ldm_layout.specs.Parts.{plexes_at, extents_at};
ghost use Rattle.ldm_layout.specs.Volumes.{draft_of, checked, fault_of, fault_at, layout_faults};

use crate::laying::draft_of;
use crate::parts::Parts;
use ldm_bytes::NoMemory;
use ldm_group::Db;
use ldm_places::LayoutFault;
use ldm_records::{Record, Volume};
use std::alloc::Global;

/// A volume without a layout, and its first fault.
#[derive(Clone, Copy)]
pub struct VolumeFault {
    pub volume: u64,
    pub fault: LayoutFault,
}

fn fault(alloc: Global, parts: &Parts, volume: &Volume) -> Result<Option<LayoutFault>, NoMemory>
    ensures { IfOk result (λ f. f ≡ fault_of (checked
        (draft_of volume.now.size (plexes_at volume.now.head.id parts.now.plexes)
        (λ c. extents_at c parts.now.extents)))) }
{
    match draft_of(alloc, parts, volume)? {
        Some(draft) => Ok(draft.first_fault()),
        None => Ok(Some(LayoutFault::Unknown)),
    }
}

fn fault_at(alloc: Global, parts: &Parts, r: &Record) -> Result<Option<VolumeFault>, NoMemory>
    ensures { IfOk result (λ f. (records : List Record) → IsListsOf parts.now records
        → f ≡ fault_at records r.now) }
{
    let Record::Volume(v) = r else {
        return Ok(None);
    };
    match fault(alloc, parts, v)? {
        Some(fault) => Ok(Some(VolumeFault {
            volume: v.head.id,
            fault,
        })),
        None => Ok(None),
    }
}

/// The volumes of the group that have no layout, in rising id.
pub fn faults(alloc: Global, db: &Db) -> Result<Vec<VolumeFault>, NoMemory>
    ensures { IfOk result (λ v. v.items ≡ layout_faults db.now.records) }
{
    let parts = Parts::of(alloc, db.as_slice())?;
    let mut faults = Vec::new(alloc);
    for r in db.as_slice() {
        if let Some(fault) = fault_at(alloc, &parts, r)? {
            faults.push(fault)?;
        }
    }
    Ok(faults)
}
