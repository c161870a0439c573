//! The group that the views of images hold.
ghost use Rattle.std.specs.Prelude.{◌≡◌, ◌<◌, length, IfOk, IsErrOf};
ghost use Rattle.ldm_host.specs.Moves.{DiskFailed, Quiet, Still};
ghost use Rattle.ldm_view.specs.Patches.{shown};
ghost use Rattle.ldm_found.specs.Answers.{FindsIn};
ghost use Rattle.ldm_found.specs.Facts.{IsSoundGroup, LieOn};
ghost use Rattle.ldm_damage.specs.Looked.{Looked};

use ldm_found::{Found, OpenError, find_group};
use ldm_host::Host;
use ldm_view::{Patched, Start, View};
use std::alloc::Global;
use std::marker::Brand;

// The group that the view of the images holds.
fn find_in<H: Host, S: Start>(
    alloc: Global,
    under: Patched<H>,
) -> (Patched<H>, Result<Found, OpenError>)
    requires start { Still S.start (H.seen under.host) }
    requires fixed { ∥ under.patches.items ≡ S.patches ∥₁ }
    requires images { 0 < length (H.seen under.host).sizes }
    ensures found { H.tells_disks → FindsIn (shown S.patches (H.seen under.host).content) result.1 }
    ensures sound { IfOk result.1 (λ found. IsSoundGroup found) }
    ensures lies { IfOk result.1 (λ found. LieOn found.labels (H.seen under.host).sizes) }
    ensures still { ∥ Still S.start (H.seen result.0.host) ∥₁ }
    ensures quiet { Quiet (H.seen under.host) (H.seen result.0.host) }
    ensures cause { IsErrOf result.1 OpenError.Disk
        → DiskFailed (H.seen under.host) (H.seen result.0.host) }
{
    match View::<H, S>::new(alloc, under) {
        Ok(mut view) => {
            let found = find_group(alloc, &mut view);
            (view.into_under(), found)
        }
        Err(under) => (under, Err(OpenError::NoMemory)),
    }
}

/// The group that the images hold as they are shown with their patches, or the first fault. `Disk`
/// comes only where a call of a disk failed.
pub fn find_shown<H: Host>(
    alloc: Global,
    under: Patched<H>,
) -> (Patched<H>, Result<Found, OpenError>)
    requires { 0 < length (H.seen under.host).sizes }
    ensures found { H.tells_disks → FindsIn (shown under.patches.items
        (H.seen under.host).content) result.1 }
    ensures sound { IfOk result.1 (λ found. IsSoundGroup found) }
    ensures lies { IfOk result.1 (λ found. LieOn found.labels (H.seen under.host).sizes) }
    ensures looked { Looked (H.seen under.host) (H.seen result.0.host)
        (IsErrOf result.1 OpenError.Disk) }
{
    find_in::<H, Brand>(alloc, under)
}
