//! Copies that are passed over.
ghost use Rattle.std.specs.Prelude.{◌≡◌, ◌≢◌, ◌<◌, ℕ, List, length, slice_index};
ghost use Rattle.std.specs.Prelude.{IfOk, OnOk, IsErrOf};
ghost use Rattle.ldm_host.specs.Seen.{image};
ghost use Rattle.ldm_label.specs.LabelOf.{Fits};
ghost use Rattle.ldm_copy.specs.Copy.{config_area};
ghost use Rattle.ldm_view.specs.Patches.{patched};
ghost use Rattle.ldm_damage.specs.Looked.{Looked};
ghost use Rattle.ldm_damage.specs.Passing.{IsFaultOfCopy, shut_by};
ghost use Rattle.ldm_damage.specs.Views.{IsDamage};

use crate::copies::copy_shown;
use crate::damage::Damage;
use crate::error::DamageError;
use crate::mending::mend;
use ldm_copy::CopyFault;
use ldm_host::Host;
use ldm_label::{Label, LabelFault};
use ldm_view::{Patch, Patched};
use std::alloc::Global;

// Shows a copy that has this fault as closed: the first byte of its area is 0.
fn shut<H: Host>(
    alloc: Global,
    under: &mut Patched<H>,
    disk: usize,
    label: &Label,
    fault: Option<CopyFault>,
) -> Result<(), DamageError>
    requires disk { disk < length (H.seen under.old.host).sizes }
    requires fits { Fits label.now (slice_index (H.seen under.old.host).sizes disk) }
    ensures here { OnOk result ((i : List ℕ) → patched under.new.patches.items disk i
        ≡ shut_by fault label.now (patched under.old.patches.items disk i)) }
    ensures others { OnOk result ((d : ℕ) (i : List ℕ) → d ≢ disk
        → patched under.new.patches.items d i ≡ patched under.old.patches.items d i) }
    ensures host { under.new.host ≡ under.old.host }
    ensures memory { IsErrOf result DamageError.Disk → ⊥ }
{
    let Some(_) = fault else {
        return Ok(());
    };
    let sectors = under.host.sectors(disk);
    // The label fits, so the area lies on the disk, and its places fit their type.
    prove!(label.config_start + 2048 <= sectors);
    let at = 512 * (label.config_start + label.area_start);
    let bytes = vec![in alloc; 0u8; 1]?;
    under.show(Patch { disk, at, bytes })?;
    Ok(())
}

// Passes over the copy on a disk with this label, where it has a fault. What is damaged is that,
// beside the fault of the label that was mended.
fn pass_copy<H: Host>(
    alloc: Global,
    under: Patched<H>,
    disk: usize,
    label: &Label,
    mended: Option<LabelFault>,
) -> (Patched<H>, Result<Damage, DamageError>)
    requires disk { disk < length (H.seen under.host).sizes }
    requires fits { Fits label.now (slice_index (H.seen under.host).sizes disk) }
    ensures is { H.tells_disks → IfOk result.1 (λ damage. IsFaultOfCopy (config_area label.now
        (patched under.patches.items disk (image (H.seen under.host).content disk)))
        label.now.area_sectors damage.copy) }
    ensures label { IfOk result.1 (λ damage. damage.label ≡ mended) }
    ensures here { IfOk result.1 (λ damage. (i : List ℕ) → patched result.0.patches.items disk i
        ≡ shut_by damage.copy label.now (patched under.patches.items disk i)) }
    ensures others { IfOk result.1 (λ damage. (d : ℕ) (i : List ℕ) → d ≢ disk
        → patched result.0.patches.items d i ≡ patched under.patches.items d i) }
    ensures looked { Looked (H.seen under.host) (H.seen result.0.host)
        (IsErrOf result.1 DamageError.Disk) }
{
    let (mut under, found) = copy_shown(alloc, under, disk, label);
    let fault = match found {
        Ok(fault) => fault,
        Err(error) => return (under, Err(error)),
    };
    match shut(alloc, &mut under, disk, label, fault) {
        Ok(()) => {
            let damage = Damage {
                label: mended,
                copy: fault,
            };
            (under, Ok(damage))
        }
        Err(error) => (under, Err(error)),
    }
}

/// What is damaged on a disk without patches. From then on the disk is shown without that.
pub(crate) fn pass_disk<H: Host>(
    alloc: Global,
    under: Patched<H>,
    disk: usize,
) -> (Patched<H>, Result<Damage, DamageError>)
    requires disk { disk < length (H.seen under.host).sizes }
    requires plain { (i : List ℕ) → patched under.patches.items disk i ≡ i }
    ensures is { H.tells_disks → IfOk result.1 (λ damage.
        IsDamage (image (H.seen under.host).content disk) damage
        (patched result.0.patches.items disk (image (H.seen under.host).content disk))) }
    ensures others { IfOk result.1 (λ damage. (d : ℕ) (i : List ℕ) → d ≢ disk
        → patched result.0.patches.items d i ≡ patched under.patches.items d i) }
    ensures looked { Looked (H.seen under.host) (H.seen result.0.host)
        (IsErrOf result.1 DamageError.Disk) }
{
    let (under, found) = mend(alloc, under, disk);
    let mended = match found {
        Ok(mended) => mended,
        Err(error) => return (under, Err(error)),
    };
    let read = mended.label;
    match read {
        Ok(label) => pass_copy(alloc, under, disk, &label, mended.fault),
        Err(_) => {
            let damage = Damage {
                label: mended.fault,
                copy: None,
            };
            (under, Ok(damage))
        }
    }
}
