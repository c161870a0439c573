//! Rewrites a copy by its changed blocks.
ghost use Rattle.std.specs.Prelude.{◌+◌, ◌*◌, ◌<◌, List, ℕ, length, slice_index};
ghost use Rattle.ldm_host.specs.Moves.{Settled};
ghost use Rattle.ldm_host.specs.Seen.{image};
ghost use Rattle.ldm_label.specs.LabelOf.{Fits};
ghost use Rattle.ldm_group.specs.Database.{Database};
ghost use Rattle.ldm_copy.specs.Copy.{config_area, IsOpen, IsShut};
ghost use Rattle.ldm_body.specs.Rewriting.{Rewrites};
ghost use Rattle.ldm_body.specs.Body.{HasBody, IsBodyOn};
ghost use Rattle.ldm_changed.specs.Change.{ChangesFrom};

use crate::change::Change;
use crate::filling::fill_changed;
use ldm_body::{close, unseal};
use ldm_host::{Failed, Host};
use ldm_label::Label;

/// Fills a closed copy, behind whose gate the old body stands, and opens it. At each moment,
/// whatever the outcome, the copy is closed or that of the new body.
pub fn refill_changed<H: Host>(
    host: &mut H,
    disk: usize,
    label: &Label,
    change: &Change,
) -> Result<(), Failed>
    requires disk { disk < length (H.seen host.old).sizes }
    requires fits { Fits label.now (slice_index (H.seen host.old).sizes disk) }
    requires body { (db : Database) × IsBodyOn db label.now change.now.body }
    requires settled { Settled (H.seen host.old) disk }
    requires closed { H.tells_disks → IsShut label.now (image (H.seen host.old).content disk) }
    requires before { H.tells_disks → (old : List ℕ) × ChangesFrom old change.now
        × HasBody label.now old (image (H.seen host.old).content disk) }
    ensures { Rewrites H.tells_disks result disk label.now change.now.body
        (512 + 128 * length change.now.numbers) (H.seen host.old) (H.seen host.new) }
{
    fill_changed(host, disk, label, change)?;
    unseal(host, disk, label)
}

/// Closes an open copy whose bytes are those of the old body, fills it with what differs, and opens
/// it. At each moment, whatever the outcome, the area is as it was, or the copy is closed or that
/// of the new body.
pub fn rewrite_changed<H: Host>(
    host: &mut H,
    disk: usize,
    label: &Label,
    change: &Change,
) -> Result<(), Failed>
    requires disk { disk < length (H.seen host.old).sizes }
    requires fits { Fits label.now (slice_index (H.seen host.old).sizes disk) }
    requires body { (db : Database) × IsBodyOn db label.now change.now.body }
    requires settled { Settled (H.seen host.old) disk }
    requires opened { H.tells_disks → IsOpen (config_area label.now
        (image (H.seen host.old).content disk)) }
    requires before { H.tells_disks → (old : List ℕ) × ChangesFrom old change.now
        × HasBody label.now old (image (H.seen host.old).content disk) }
    ensures { Rewrites H.tells_disks result disk label.now change.now.body
        (513 + 128 * length change.now.numbers) (H.seen host.old) (H.seen host.new) }
{
    close(host, disk, label)?;
    refill_changed(host, disk, label, change)
}
