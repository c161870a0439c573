//! The whole writing of a new group.
ghost use Rattle.std.specs.Prelude.{◌≡◌, ◌*◌, ℕ, length, slice_get, Some, OnOk, IsErr};
ghost use Rattle.ldm_host.specs.Seen.{image};
ghost use Rattle.ldm_host.specs.Moves.{Works, AtEachMoment};
ghost use Rattle.ldm_group.specs.Database.{Database};
ghost use Rattle.ldm_label.specs.declared.Label.{Label as LabelModel};
ghost use Rattle.ldm_init.specs.Bytes.{IsUnsignedImage};
ghost use Rattle.ldm_init.specs.Moments.{AllOn, AllTake, Before, IsMaking, IsWriting, WritesGroup};

use crate::signing::sign_all;
use crate::writing::write_disk;
use ldm_host::{Failed, Host};
use ldm_label::Label;

/// Writes all of each disk but the last byte of its signature, each disk synced.
pub fn write_all<H: Host>(
    host: &mut H,
    labels: &[Label],
    body: &[u8],
    buffer: &mut [u8],
) -> Result<(), Failed>
    requires count { length labels.now ≡ length (H.seen host.old).sizes }
    requires takes { AllTake labels.now body.now (H.seen host.old).sizes }
    requires size { length buffer.old ≡ 512 * 2048 }
    ensures any_moment { H.tells_disks → (db : Database) (start : Before)
        → AllOn db labels.now body.now
        → IsWriting db labels.now start 0 (H.seen host.old)
        → AtEachMoment (H.seen host.old) (H.seen host.new) (IsMaking db labels.now start) }
    ensures done { H.tells_disks → OnOk result ((db : Database) (start : Before)
        → AllOn db labels.now body.now
        → IsWriting db labels.now start 0 (H.seen host.old)
        → IsWriting db labels.now start (length labels.now) (H.seen host.new)) }
    ensures written { H.tells_disks → OnOk result
        ((disk : ℕ) (label : LabelModel) → slice_get labels.now disk ≡ Some label
        → IsUnsignedImage label body.now (image (H.seen host.old).content disk)
        (image (H.seen host.new).content disk)) }
    ensures works { Works (H.seen host.old) (H.seen host.new) (IsErr result) }
{
    'disks: for disk in 0..labels.len() {
        write_disk(host, disk, &labels[disk], body, buffer)?;
    }
    Ok(())
}

/// Writes a new group to the disks: all but the signatures, and then these.
pub fn write_group<H: Host>(
    host: &mut H,
    labels: &[Label],
    body: &[u8],
    buffer: &mut [u8],
) -> Result<(), Failed>
    requires count { length labels.now ≡ length (H.seen host.old).sizes }
    requires takes { AllTake labels.now body.now (H.seen host.old).sizes }
    requires size { length buffer.old ≡ 512 * 2048 }
    ensures { WritesGroup H.tells_disks result labels.now body.now (H.seen host.old)
        (H.seen host.new) }
{
    write_all(host, labels, body, buffer)?;
    sign_all(host)
}
