//! The layout of a volume of a sound group, which is always there.
ghost use Rattle.std.specs.Prelude.{◌≡◌, Contains, IfOk, Ok, Some};
ghost use Rattle.ldm_records.specs.declared.types.Record.TheVariants as kinds;
ghost use Rattle.ldm_layout.specs.Volumes.{layout_of, volume_with};
ghost use Rattle.ldm_rules.specs.Facts.{IsSoundOn};

use ldm_bytes::NoMemory;
use ldm_group::Db;
use ldm_label::Labels;
use ldm_layout::{LayoutError, Plan, plan};
use ldm_records::Volume;
use std::alloc::Global;

/// The layout of a volume of the group: there is one, since the group is sound on disks with these
/// labels.
pub fn sound_plan(
    alloc: Global,
    db: &Db,
    labels: &Labels,
    volume: &Volume,
) -> Result<Plan, NoMemory>
    requires sound { IsSoundOn db.now labels.now }
    requires there { Contains db.now.records (kinds.Volume volume.now) }
    requires again { volume_with volume.now.head.id db.now.records ≡ Some volume.now }
    ensures is { IfOk result (λ plan. layout_of db.now.records volume.now ≡ Ok plan) }
    ensures size { IfOk result (λ plan. plan.size ≡ volume.now.size) }
{
    let _labels = labels.as_slice();
    match plan(alloc, db, volume.head.id) {
        Ok(plan) => Ok(plan),
        Err(LayoutError::NoMemory) => Err(NoMemory),
        Err(LayoutError::Fault(_)) => unreachable!(),
    }
}
