//! The gate of a copy, and what is written behind it.
ghost use Rattle.std.specs.Prelude.{◌≡◌, ◌≢◌, ◌+◌, ◌-◌, ◌*◌, ◌^◌, ◌<◌, ◌≤◌, List, ℕ, length};
ghost use Rattle.std.specs.Prelude.{slice_index, OnOk, IsErr};
ghost use Rattle.ldm_host.specs.Moves.{Settled, Writes, DiskFailed};
ghost use Rattle.ldm_host.specs.Seen.{image};
ghost use Rattle.ldm_label.specs.LabelOf.{Fits};
ghost use Rattle.ldm_group.specs.Database.{Database};
ghost use Rattle.ldm_copy.specs.Copy.{config_area, gate_at, IsOpen, IsShut};
ghost use Rattle.ldm_body.specs.Rewriting.{PutsGate};
ghost use Rattle.ldm_body.specs.Body.{HasBody, IsBodyOn};

use crate::body::Body;
use ldm_host::{Failed, Host};
use ldm_label::Label;

/// The place of the gate byte of the copy on a disk.
pub fn gate_at<H: Host>(host: &H, disk: usize, label: &Label) -> u64
    requires disk { disk < length (H.seen host.now).sizes }
    requires fits { Fits label.now (slice_index (H.seen host.now).sizes disk) }
    ensures is { result ≡ gate_at label.now }
    ensures small { result + 512 * label.now.area_sectors < 2 ^ 64 }
{
    let sectors = host.sectors(disk);
    // The label fits, so the area lies on the disk, and its places fit their type.
    prove!(label.config_start + 2048 <= sectors);
    512 * (label.config_start + label.area_start)
}

// Writes this byte over the gate byte of a copy, then syncs.
fn put_gate<H: Host>(host: &mut H, disk: usize, label: &Label, byte: u8) -> Result<(), Failed>
    requires disk { disk < length (H.seen host.old).sizes }
    requires fits { Fits label.now (slice_index (H.seen host.old).sizes disk) }
    ensures { PutsGate H.tells_disks result disk label.now byte (H.seen host.old)
        (H.seen host.new) }
{
    let at = gate_at(host, disk, label);
    host.write_at(disk, at, &[byte])?;
    host.sync(disk)
}

/// Writes 0 over the gate byte of an open copy, then syncs.
pub fn close<H: Host>(host: &mut H, disk: usize, label: &Label) -> Result<(), Failed>
    requires disk { disk < length (H.seen host.old).sizes }
    requires fits { Fits label.now (slice_index (H.seen host.old).sizes disk) }
    requires settled { Settled (H.seen host.old) disk }
    requires opened { H.tells_disks → IsOpen (config_area label.now
        (image (H.seen host.old).content disk)) }
    ensures { PutsGate H.tells_disks result disk label.now 0 (H.seen host.old) (H.seen host.new) }
{
    put_gate(host, disk, label, 0)
}

/// Writes the bytes of the body but the first behind the gate of a closed copy, then syncs.
pub fn fill<H: Host>(host: &mut H, disk: usize, label: &Label, body: &Body) -> Result<(), Failed>
    requires disk { disk < length (H.seen host.old).sizes }
    requires fits { Fits label.now (slice_index (H.seen host.old).sizes disk) }
    requires room { length body.now ≤ 512 * label.now.area_sectors }
    requires closed { H.tells_disks → (c : List ℕ) → (H.seen host.old).may_leave disk c
        → slice_index c (gate_at label.now) ≢ 0x56 }
    ensures filled { H.tells_disks → OnOk result ((c : List ℕ) → (H.seen host.new).may_leave disk c
        → HasBody label.now body.now c) }
    ensures settled { OnOk result (Settled (H.seen host.new) disk) }
    ensures writes { Writes disk (gate_at label.now + 1) (length body.now - 1) (H.seen host.old)
        (H.seen host.new) }
    ensures cause { IsErr result → DiskFailed (H.seen host.old) (H.seen host.new) }
{
    let at = gate_at(host, disk, label);
    host.write_at(disk, at + 1, &body.as_slice()[1..])?;
    host.sync(disk)
}

/// Writes 0x56 over the gate byte of a closed copy, behind which a body stands, then syncs.
pub fn unseal<H: Host>(host: &mut H, disk: usize, label: &Label) -> Result<(), Failed>
    requires disk { disk < length (H.seen host.old).sizes }
    requires fits { Fits label.now (slice_index (H.seen host.old).sizes disk) }
    requires settled { Settled (H.seen host.old) disk }
    requires closed { H.tells_disks → IsShut label.now (image (H.seen host.old).content disk) }
    requires filled { H.tells_disks → (db : Database) × (body : List ℕ) × IsBodyOn db label.now body
        × HasBody label.now body (image (H.seen host.old).content disk) }
    ensures { PutsGate H.tells_disks result disk label.now 0x56 (H.seen host.old)
        (H.seen host.new) }
{
    put_gate(host, disk, label, 0x56)
}
