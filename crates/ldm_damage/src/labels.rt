//! Labels, as views show them.
ghost use Rattle.std.specs.Prelude.{◌≡◌, ◌<◌, ℕ, Result, length, slice_index, IfOk, IsErrOf};
ghost use Rattle.ldm_host.specs.Seen.{image};
ghost use Rattle.ldm_host.specs.Moves.{DiskFailed, Quiet, Still};
ghost use Rattle.ldm_label.specs.declared.Label.{Label};
ghost use Rattle.ldm_label.specs.declared.LabelFault.{LabelFault};
ghost use Rattle.ldm_label.specs.Answer.{GivesUnlessDisk};
ghost use Rattle.ldm_label.specs.LabelOf.{label_of, Fits};
ghost use Rattle.ldm_view.specs.Patches.{patched};
ghost use Rattle.ldm_damage.specs.Looked.{Looked};

use crate::error::DamageError;
use ldm_host::Host;
use ldm_label::{Label, LabelError, LabelFault, read_label};
use ldm_view::{Patched, Start, View};
use std::alloc::Global;
use std::marker::Brand;

// What a label that was read is.
fn outcome(read: Result<Label, LabelError>) -> Result<Result<Label, LabelFault>, DamageError>
    ensures is { (label : Result Label LabelFault) → GivesUnlessDisk read label
        → IfOk result (λ l. l ≡ label) }
    ensures fits { (sectors : ℕ) → IfOk read (λ l. Fits l sectors)
        → IfOk result (λ label. IfOk label (λ l. Fits l sectors)) }
    ensures disk { IsErrOf result DamageError.Disk → IsErrOf read LabelError.Disk }
{
    match read {
        Ok(label) => Ok(Ok(label)),
        Err(LabelError::Fault(fault)) => Ok(Err(fault)),
        Err(LabelError::Disk) => Err(DamageError::Disk),
    }
}

// The label of a disk, as its view shows it.
fn label_in<H: Host, S: Start>(
    alloc: Global,
    under: Patched<H>,
    disk: usize,
) -> (Patched<H>, Result<Result<Label, LabelFault>, DamageError>)
    requires start { Still S.start (H.seen under.host) }
    requires fixed { ∥ under.patches.items ≡ S.patches ∥₁ }
    requires disk { disk < length (H.seen under.host).sizes }
    ensures is { H.tells_disks → IfOk result.1 (λ label. label ≡ label_of
        (patched S.patches disk (image (H.seen under.host).content disk))) }
    ensures fits { IfOk result.1 (λ label. IfOk label (λ l. Fits l
        (slice_index (H.seen under.host).sizes disk))) }
    ensures fixed { ∥ result.0.patches.items ≡ S.patches ∥₁ }
    ensures still { ∥ Still S.start (H.seen result.0.host) ∥₁ }
    ensures quiet { Quiet (H.seen under.host) (H.seen result.0.host) }
    ensures cause { IsErrOf result.1 DamageError.Disk
        → DiskFailed (H.seen under.host) (H.seen result.0.host) }
{
    match View::<H, S>::new(alloc, under) {
        Ok(mut view) => {
            let read = read_label(&mut view, disk);
            (view.into_under(), outcome(read))
        }
        Err(under) => (under, Err(DamageError::NoMemory)),
    }
}

/// The label of a disk, as a view of the host with its patches shows it.
pub fn label_shown<H: Host>(
    alloc: Global,
    under: Patched<H>,
    disk: usize,
) -> (Patched<H>, Result<Result<Label, LabelFault>, DamageError>)
    requires { disk < length (H.seen under.host).sizes }
    ensures is { H.tells_disks → IfOk result.1 (λ label. label ≡ label_of
        (patched under.patches.items disk (image (H.seen under.host).content disk))) }
    ensures fits { IfOk result.1 (λ label. IfOk label (λ l. Fits l
        (slice_index (H.seen under.host).sizes disk))) }
    ensures same { ∥ result.0.patches.items ≡ under.patches.items ∥₁ }
    ensures looked { Looked (H.seen under.host) (H.seen result.0.host)
        (IsErrOf result.1 DamageError.Disk) }
{
    label_in::<H, Brand>(alloc, under, disk)
}
