//! The layout of one volume of a group.
ghost use Rattle.std.specs.Prelude.{◌≡◌, true, IsSome, All, IfOk, IfSome, option_copied};
ghost use Rattle.ldm_group.specs.Partitions.{EndsInRange};
ghost use Rattle.ldm_layout.specs.Parts.{is_partition_of, plexes_at, extents_at};
ghost use Rattle.ldm_layout.specs.Volumes.{draft_of, checked, layout_of, volume_with};
ghost use Rattle.ldm_layout.specs.Answers.{PlansAs};
ghost use Rattle.ldm_places.specs.Plans.{AllEnd};

use crate::laying::draft_of;
use crate::parts::Parts;
use ldm_group::Db;
use ldm_places::{LayoutError, LayoutFault, Plan};
use ldm_records::{Record, Volume};
use std::alloc::Global;

/// The volume of this id.
pub fn volume_with(db: &Db, id: u64) -> Option<&Volume>
    ensures is { option_copied result ≡ volume_with id db.now.records }
    ensures id { IfSome result (λ v. v.now.head.id ≡ id) }
{
    match db.by_id(3, id) {
        Some(Record::Volume(v)) => Some(v),
        _ => None,
    }
}

/// The layout of a volume of these parts. The error is its first fault.
pub fn plan_of(alloc: Global, parts: &Parts, volume: &Volume) -> Result<Plan, LayoutError>
    requires { All (λ p. AllEnd (extents_at p.id parts.now.extents))
        (plexes_at volume.now.head.id parts.now.plexes) }
    ensures { PlansAs result (checked (draft_of volume.now.size
        (plexes_at volume.now.head.id parts.now.plexes) (λ c. extents_at c parts.now.extents))) }
{
    let Some(draft) = draft_of(alloc, parts, volume)? else {
        return Err(LayoutError::Fault(LayoutFault::Unknown));
    };
    match draft.first_fault() {
        Some(fault) => Err(LayoutError::Fault(fault)),
        None => Ok(Plan::from_draft(draft)),
    }
}

/// The layout of the volume of this id. The error is its first fault.
pub fn plan(alloc: Global, db: &Db, volume: u64) -> Result<Plan, LayoutError>
    requires there { IsSome (volume_with volume db.now.records) }
    requires ends { All (λ r. is_partition_of volume db.now.records r ≡ true
        → EndsInRange r) db.now.records }
    ensures is { IfSome (volume_with volume db.now.records)
        (λ v. PlansAs result (layout_of db.now.records v)) }
    ensures size { IfOk result (λ plan. IfSome (volume_with volume db.now.records)
        (λ v. plan.size ≡ v.size)) }
{
    let parts = Parts::of(alloc, db.as_slice())?;
    match volume_with(db, volume) {
        Some(volume) => plan_of(alloc, &parts, volume),
        None => Err(LayoutError::Fault(LayoutFault::Unknown)),
    }
}
