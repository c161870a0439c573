//! Copies of the database, as views show them.
ghost use Rattle.std.specs.Prelude.{◌≡◌, ◌<◌, ℕ, List, length, slice_index, IfOk, IsErrOf};
ghost use Rattle.ldm_host.specs.Seen.{image};
ghost use Rattle.ldm_host.specs.Moves.{DiskFailed, Quiet, Still};
ghost use Rattle.ldm_label.specs.LabelOf.{Fits};
ghost use Rattle.ldm_copy.specs.Copy.{config_area};
ghost use Rattle.ldm_copy.specs.Answers.{IsAnswer};
ghost use Rattle.ldm_view.specs.Patches.{patched};
ghost use Rattle.ldm_damage.specs.Looked.{Looked};
ghost use Rattle.ldm_damage.specs.Passing.{IsFaultOfCopy};

use crate::error::DamageError;
use ldm_copy::{CopyError, CopyFault, CopyState, read_copy};
use ldm_host::Host;
use ldm_label::Label;
use ldm_view::{Patched, Start, View};
use std::alloc::Global;
use std::marker::Brand;

// The fault of a copy that was read, if it has one.
fn fault_of(read: Result<CopyState, CopyError>) -> Result<Option<CopyFault>, DamageError>
    ensures is { (area : List ℕ) (sectors : ℕ) → IsAnswer area sectors read
        → IfOk result (IsFaultOfCopy area sectors) }
    ensures disk { IsErrOf result DamageError.Disk → IsErrOf read CopyError.Disk }
{
    match read {
        Ok(_) => Ok(None),
        Err(CopyError::Fault(fault)) => Ok(Some(fault)),
        Err(CopyError::Disk) => Err(DamageError::Disk),
        Err(CopyError::NoMemory) => Err(DamageError::NoMemory),
    }
}

// The fault of the copy on a disk with this label, as its view shows it.
fn copy_in<H: Host, S: Start>(
    alloc: Global,
    under: Patched<H>,
    disk: usize,
    label: &Label,
) -> (Patched<H>, Result<Option<CopyFault>, DamageError>)
    requires start { Still S.start (H.seen under.host) }
    requires fixed { ∥ under.patches.items ≡ S.patches ∥₁ }
    requires disk { disk < length (H.seen under.host).sizes }
    requires fits { Fits label.now (slice_index (H.seen under.host).sizes disk) }
    ensures is { H.tells_disks → IfOk result.1 (IsFaultOfCopy (config_area label.now
        (patched S.patches disk (image (H.seen under.host).content disk))) label.now.area_sectors) }
    ensures fixed { ∥ result.0.patches.items ≡ S.patches ∥₁ }
    ensures still { ∥ Still S.start (H.seen result.0.host) ∥₁ }
    ensures quiet { Quiet (H.seen under.host) (H.seen result.0.host) }
    ensures cause { IsErrOf result.1 DamageError.Disk
        → DiskFailed (H.seen under.host) (H.seen result.0.host) }
{
    match View::<H, S>::new(alloc, under) {
        Ok(mut view) => {
            let read = read_copy(alloc, &mut view, disk, label);
            (view.into_under(), fault_of(read))
        }
        Err(under) => (under, Err(DamageError::NoMemory)),
    }
}

/// The fault of the copy on a disk with this label, if it has one, as a view of the host with its
/// patches shows it.
pub fn copy_shown<H: Host>(
    alloc: Global,
    under: Patched<H>,
    disk: usize,
    label: &Label,
) -> (Patched<H>, Result<Option<CopyFault>, DamageError>)
    requires disk { disk < length (H.seen under.host).sizes }
    requires fits { Fits label.now (slice_index (H.seen under.host).sizes disk) }
    ensures is { H.tells_disks → IfOk result.1 (IsFaultOfCopy (config_area label.now
        (patched under.patches.items disk (image (H.seen under.host).content disk)))
        label.now.area_sectors) }
    ensures same { ∥ result.0.patches.items ≡ under.patches.items ∥₁ }
    ensures looked { Looked (H.seen under.host) (H.seen result.0.host)
        (IsErrOf result.1 DamageError.Disk) }
{
    copy_in::<H, Brand>(alloc, under, disk, label)
}
