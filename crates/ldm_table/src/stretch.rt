//! Sectors of a volume that lie side by side on one image.
ghost use Rattle.std.specs.Prelude.{◌≡◌, ◌≢◌, ◌<◌, None};
ghost use Rattle.ldm_dump.specs.Sources.{first_copy};
ghost use Rattle.ldm_dump.specs.Runs.{LiesOn};
ghost use Rattle.ldm_table.specs.Tables.{is_next_to};
ghost use Rattle.ldm_table.specs.Runs.{IsStretchOf};

use ldm_dump::{Spot, run_at, spot_of};
use ldm_found::Found;
use ldm_host::Host;
use ldm_layout::Plan;

/// Some sectors of a volume, from `start` on, and where on an image the first of them is.
#[derive(Clone, Copy)]
pub struct Stretch {
    pub start: u64,
    pub sectors: u64,
    pub spot: Spot,
}

/// Whether the second lies on the image of the first, right behind it.
pub(crate) fn is_behind(a: &Stretch, b: &Stretch) -> bool
    ensures { result ≡ is_next_to a.now b.now }
{
    a.spot.image == b.spot.image
        && u128::from(a.spot.sector) + u128::from(a.sectors) == u128::from(b.spot.sector)
}

/// The sectors of the volume from this one on that lie together in its first copy that is there.
pub(crate) fn stretch_at<H: Host>(host: &H, found: &Found, plan: &Plan, sector: u64) -> Stretch
    requires within { sector < plan.now.size }
    requires copied { first_copy found.now plan.now sector ≢ None }
    requires lies { LiesOn found.now plan.now (H.seen host.now).sizes }
    ensures { IsStretchOf found.now plan.now sector result }
{
    let run = run_at(found, plan, sector);
    let Some(copy) = run.copy else {
        unreachable!();
    };
    let Some(spot) = spot_of(host, found, plan.place(sector, copy)) else {
        unreachable!();
    };
    Stretch {
        start: sector,
        sectors: run.sectors,
        spot,
    }
}
