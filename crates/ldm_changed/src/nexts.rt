//! What a copy becomes: a whole body, or a change of the one that is there.
ghost use Rattle.std.specs.Prelude.{◌≡◌, ◌<◌, List, ℕ, length, slice_index};
ghost use Rattle.ldm_host.specs.Moves.{Settled};
ghost use Rattle.ldm_host.specs.Seen.{image};
ghost use Rattle.ldm_label.specs.LabelOf.{Fits};
ghost use Rattle.ldm_group.specs.Database.{Database};
ghost use Rattle.ldm_copy.specs.Copy.{config_area, IsOpen};
ghost use Rattle.ldm_body.specs.Rewriting.{Rewrites};
ghost use Rattle.ldm_body.specs.Body.{HasBody, IsBodyOn};
ghost use Rattle.ldm_changed.specs.Change.{Changed, ChangesFrom};
ghost use Rattle.ldm_changed.specs.Nexts.{bytes_in, most_in};
ghost use Rattle.ldm_changed.specs.declared.nexts.Next.TheVariants as nexts;

use crate::change::Change;
use crate::rewriting::rewrite_changed;
use ldm_body::{Body, rewrite};
use ldm_host::{Failed, Host};
use ldm_label::Label;

/// What a command writes to each disk: a whole body, or what changes in the body that is there.
#[derive(Drop)]
pub enum Next {
    Whole(Body),
    Changed(Change),
}

impl Next {
    ghost use Rattle.std.specs.Prelude.{◌≡◌};
    ghost use Rattle.ldm_changed.specs.Nexts.{bytes_in};

    /// The new body.
    pub fn into_body(self) -> Body
        ensures { result ≡ bytes_in self }
    {
        match self {
            Next::Whole(body) => body,
            Next::Changed(change) => change.into_body(),
        }
    }
}

/// Closes an open copy, writes what is next into it, and opens it. At each moment, whatever the
/// outcome, the area is as it was, or the copy is closed or that of the new body.
pub fn rewrite_next<H: Host>(
    host: &mut H,
    disk: usize,
    label: &Label,
    next: &Next,
) -> Result<(), Failed>
    requires disk { disk < length (H.seen host.old).sizes }
    requires fits { Fits label.now (slice_index (H.seen host.old).sizes disk) }
    requires body { (db : Database) × IsBodyOn db label.now (bytes_in next.now) }
    requires settled { Settled (H.seen host.old) disk }
    requires opened { H.tells_disks → IsOpen (config_area label.now
        (image (H.seen host.old).content disk)) }
    requires before { H.tells_disks → (change : Changed) → next.now ≡ nexts.Changed change
        → (old : List ℕ) × ChangesFrom old change × HasBody label.now old
        (image (H.seen host.old).content disk) }
    ensures { Rewrites H.tells_disks result disk label.now (bytes_in next.now) (most_in next.now)
        (H.seen host.old) (H.seen host.new) }
{
    match next {
        Next::Whole(body) => rewrite(host, disk, label, body),
        Next::Changed(change) => rewrite_changed(host, disk, label, change),
    }
}
