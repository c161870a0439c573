//! The group that the images of a host hold.
ghost use Rattle.std.specs.Prelude.{◌≡◌, ◌<◌, length, IfOk, IsErrOf, Result};
ghost use Rattle.ldm_host.specs.Moves.{Looks};
ghost use Rattle.ldm_copy.specs.declared.fault.OpenFault.{OpenFault};
ghost use Rattle.ldm_copy.specs.declared.found.Found.{Found};
ghost use Rattle.ldm_found.specs.Opening.{IsGroupIn};
ghost use Rattle.ldm_found.specs.Facts.{IsSoundGroup, LieOn};
ghost use Rattle.ldm_found.specs.Answers.{FindsIn};

use crate::choosing::choose;
use crate::copies::read_copies;
use crate::disks::read_disks;
use crate::fault::OpenError;
use ldm_copy::Found;
use ldm_host::Host;
use std::alloc::Global;

/// The group that the images hold, or the first fault. `Disk` comes only where a call of a disk
/// failed. It reads the label of each image, and then each copy, of those with the same bytes one
/// after another only the first; it keeps two copies at most.
pub fn find_group<H: Host>(alloc: Global, host: &mut H) -> Result<Found, OpenError>
    requires { 0 < length (H.seen host.old).sizes }
    // What is answered is the group in the images, and there is one.
    ensures found { H.tells_disks → FindsIn (H.seen host.old).content result }
    ensures one { (a b : Result Found OpenFault) → IsGroupIn (H.seen host.old).content a
        → IsGroupIn (H.seen host.old).content b
        → a ≡ b }
    // For every host, these facts hold of the group.
    ensures sound { IfOk result (λ found. IsSoundGroup found) }
    ensures lies { IfOk result (λ found. LieOn found.labels (H.seen host.old).sizes) }
    ensures looks { Looks (H.seen host.old) (H.seen host.new) (IsErrOf result OpenError.Disk) }
{
    let labels = read_disks(alloc, host)?;
    let copies = read_copies(alloc, host, labels.as_slice())?;
    choose(alloc, copies.newest, labels, copies.notes)
}
