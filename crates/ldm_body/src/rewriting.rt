//! Rewrites a copy behind its closed gate.
ghost use Rattle.std.specs.Prelude.{◌+◌, ◌<◌, length, slice_index};
ghost use Rattle.ldm_host.specs.Moves.{Settled};
ghost use Rattle.ldm_host.specs.Seen.{image};
ghost use Rattle.ldm_label.specs.LabelOf.{Fits};
ghost use Rattle.ldm_group.specs.Database.{Database};
ghost use Rattle.ldm_copy.specs.Copy.{config_area, IsOpen, IsShut};
ghost use Rattle.ldm_body.specs.Rewriting.{Rewrites};
ghost use Rattle.ldm_body.specs.Body.{IsBodyOn};

use crate::body::Body;
use crate::gate::{close, fill, unseal};
use ldm_host::{Failed, Host};
use ldm_label::Label;

/// Fills and opens a closed copy. At each moment, whatever the outcome, the copy is closed or that
/// of the body.
pub fn refill<H: Host>(host: &mut H, disk: usize, label: &Label, body: &Body) -> Result<(), Failed>
    requires disk { disk < length (H.seen host.old).sizes }
    requires fits { Fits label.now (slice_index (H.seen host.old).sizes disk) }
    requires body { (db : Database) × IsBodyOn db label.now body.now }
    requires settled { Settled (H.seen host.old) disk }
    requires closed { H.tells_disks → IsShut label.now (image (H.seen host.old).content disk) }
    ensures { Rewrites H.tells_disks result disk label.now body.now (length body.now)
        (H.seen host.old) (H.seen host.new) }
{
    fill(host, disk, label, body)?;
    unseal(host, disk, label)
}

/// Closes, fills and opens an open copy. At each moment, whatever the outcome, the area is as it
/// was, or the copy is closed or that of the body.
pub fn rewrite<H: Host>(host: &mut H, disk: usize, label: &Label, body: &Body) -> Result<(), Failed>
    requires disk { disk < length (H.seen host.old).sizes }
    requires fits { Fits label.now (slice_index (H.seen host.old).sizes disk) }
    requires body { (db : Database) × IsBodyOn db label.now body.now }
    requires settled { Settled (H.seen host.old) disk }
    requires opened { H.tells_disks → IsOpen (config_area label.now
        (image (H.seen host.old).content disk)) }
    ensures { Rewrites H.tells_disks result disk label.now body.now (length body.now + 1)
        (H.seen host.old) (H.seen host.new) }
{
    close(host, disk, label)?;
    refill(host, disk, label, body)
}
