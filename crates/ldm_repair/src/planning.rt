//! What a repair will do and say, before anything is written.
ghost use Rattle.std.specs.Prelude.{◌≡◌, ◌<◌, length, IfOk, IsErrOf, Some, None};
ghost use Rattle.ldm_copy.specs.declared.fault.OpenFault.{OpenFault};
ghost use Rattle.ldm_view.specs.Patches.{shown};
ghost use Rattle.ldm_store.specs.Kept.{HoldsNoneFor};
ghost use Rattle.ldm_damage.specs.Looked.{Looked};
ghost use Rattle.ldm_repair.specs.Repairing.{damaged_copies, text_of_repair};
ghost use Rattle.ldm_repair.specs.Stages.{IsPlanned};

use crate::texts::repair_text;
use crate::viewing::find_shown;
use ldm_bytes::Bytes;
use ldm_damage::Damage;
use ldm_found::{Found, OpenError};
use ldm_host::Host;
use ldm_view::Patched;
use std::alloc::Global;

/// A group that can be repaired, and what is said then.
pub(crate) struct Plan {
    pub(crate) found: Found,
    pub(crate) text: Bytes,
}

// The plan for a group that was found past this damage.
fn plan_of(alloc: Global, found: Found, damages: &[Damage]) -> Result<Plan, OpenError>
    ensures found { IfOk result (λ plan. plan.found ≡ found) }
    ensures editable { IfOk result (λ _. found.blocked ≡ None) }
    ensures text { IfOk result (λ plan. plan.text
        ≡ text_of_repair found.db.header.seq (damaged_copies damages.now)) }
    ensures fault { (fault : OpenFault) → IsErrOf result (OpenError.Fault fault)
        → found.blocked ≡ Some fault }
    ensures disk { IsErrOf result OpenError.Disk → ⊥ }
{
    if let Some(fault) = found.blocked {
        return Err(OpenError::Fault(fault));
    }
    let text = repair_text(alloc, found.db.header().seq, damages)?;
    Ok(Plan { found, text })
}

/// The plan for the group that the images hold as they are shown with their patches, which get over
/// this damage.
pub(crate) fn plan_repair<H: Host>(
    alloc: Global,
    under: Patched<H>,
    damages: &[Damage],
) -> (Patched<H>, Result<Plan, OpenError>)
    requires images { 0 < length (H.seen under.host).sizes }
    ensures planned { IfOk result.1 (IsPlanned H.tells_disks
        (shown under.patches.items (H.seen under.host).content) (H.seen under.host).sizes
        damages.now) }
    ensures fault { H.tells_disks → (fault : OpenFault)
        → IsErrOf result.1 (OpenError.Fault fault)
        → HoldsNoneFor fault (shown under.patches.items (H.seen under.host).content) }
    ensures looked { Looked (H.seen under.host) (H.seen result.0.host)
        (IsErrOf result.1 OpenError.Disk) }
{
    let (under, found) = find_shown(alloc, under);
    match found {
        Ok(found) => (under, plan_of(alloc, found, damages)),
        Err(error) => (under, Err(error)),
    }
}
