//! The last byte of the signature of each disk.
ghost use Rattle.std.specs.Prelude.{◌≡◌, ◌<◌, ◌≤◌, List, ℕ, length, set, slice_index, OnOk, IsErr};
ghost use Rattle.ldm_host.specs.Seen.{image};
ghost use Rattle.ldm_host.specs.Moves.{Settled, Writes, DiskFailed, Works, AtEachMoment};
ghost use Rattle.ldm_group.specs.Database.{Database};
ghost use Rattle.ldm_label.specs.declared.Label.{Label};
ghost use Rattle.ldm_init.specs.Images.{NothingPending};
ghost use Rattle.ldm_init.specs.Moments.{Before, IsMaking, IsSigning};

use ldm_host::{Failed, Host};

// Writes the last byte of the signature to a disk, then syncs.
fn sign<H: Host>(host: &mut H, disk: usize) -> Result<(), Failed>
    requires disk { disk < length (H.seen host.old).sizes }
    requires room { 1 ≤ slice_index (H.seen host.old).sizes disk }
    ensures signed { H.tells_disks → OnOk result ((c : List ℕ) → (H.seen host.new).may_leave disk c
        → slice_index c 0x1FF ≡ 0xAA) }
    ensures written { H.tells_disks
        → OnOk result (image (H.seen host.new).content disk
        ≡ set (image (H.seen host.old).content disk) 0x1FF 0xAA) }
    ensures settled { OnOk result (Settled (H.seen host.new) disk) }
    ensures writes { Writes disk 0x1FF 1 (H.seen host.old) (H.seen host.new) }
    ensures cause { IsErr result → DiskFailed (H.seen host.old) (H.seen host.new) }
{
    host.write_at(disk, 0x1FF, &[0xAA])?;
    host.sync(disk)
}

/// Writes the last byte of the signature to each disk in order, each in a write of its own and then
/// synced. At each moment, whatever the outcome, each image has no signature or is whole, where all
/// were ready before.
pub fn sign_all<H: Host>(host: &mut H) -> Result<(), Failed>
    requires { (disk : ℕ) → disk < length (H.seen host.old).sizes
        → 1 ≤ slice_index (H.seen host.old).sizes disk }
    ensures any_moment { H.tells_disks → (db : Database) (labels : List Label) (start : Before)
        → IsSigning db labels start 0 (H.seen host.old)
        → AtEachMoment (H.seen host.old) (H.seen host.new) (IsMaking db labels start) }
    ensures done { H.tells_disks → OnOk result ((db : Database)
        (labels : List Label) (start : Before)
        → IsSigning db labels start 0 (H.seen host.old)
        → IsSigning db labels start (length (H.seen host.old).sizes) (H.seen host.new)) }
    ensures written { H.tells_disks → OnOk result
        ((disk : ℕ) → disk < length (H.seen host.old).sizes
        → image (H.seen host.new).content disk ≡ set (image
        (H.seen host.old).content disk) 0x1FF 0xAA) }
    ensures settled { OnOk result (NothingPending (H.seen host.new)) }
    ensures works { Works (H.seen host.old) (H.seen host.new) (IsErr result) }
{
    'disks: for disk in 0..host.disks() {
        sign(host, disk)?;
    }
    Ok(())
}
