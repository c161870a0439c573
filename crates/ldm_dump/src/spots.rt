//! Sectors of images.
ghost use Rattle.std.specs.Prelude.{◌≡◌, ◌+◌, Some};
ghost use Rattle.ldm_dump.specs.declared.spots.Spot.{Spot as Sector};
ghost use Rattle.ldm_dump.specs.Sources.{is_here, data_start, spot_of};
ghost use Rattle.ldm_dump.specs.Runs.{IsOn};

use ldm_found::Found;
use ldm_host::Host;
use ldm_label::Label;
use ldm_layout::Place;

/// A sector of an image.
#[derive(Clone, Copy)]
pub struct Spot {
    pub image: usize,
    pub sector: u64,
}

/// Whether an image of the place's disk is there.
pub fn is_here(found: &Found, place: Place) -> bool
    ensures { result ≡ is_here found.now (Some place) }
{
    found.image_of(place.disk).is_some()
}

fn data_start(labels: &[Label], image: usize) -> u64
    ensures { result ≡ data_start labels.now image }
{
    match labels.get(image) {
        Some(label) => label.data_start,
        None => 0,
    }
}

/// The place, as a sector of the first image of its disk.
pub fn spot_of<H: Host>(host: &H, found: &Found, place: Place) -> Option<Spot>
    requires { (s : Sector) → spot_of found.now place ≡ Some s → IsOn (H.seen host.now).sizes s }
    ensures { result ≡ spot_of found.now place }
{
    match found.image_of(place.disk) {
        Some(image) => Some(spot_on(host, found, place, image)),
        None => None,
    }
}

// The place, as a sector of this image of its disk.
fn spot_on<H: Host>(host: &H, found: &Found, place: Place, image: usize) -> Spot
    requires { IsOn (H.seen host.now).sizes (record
        { image = image; sector = data_start found.now.labels image + place.sector }) }
    ensures { result ≡ record {
      image = image;
      sector = data_start found.now.labels image
          + place.sector;
    } }
{
    let sectors = host.sectors(image);
    let start = data_start(found.labels.as_slice(), image);
    // The sector lies on the image, so its number fits its type.
    prove!(sectors < 0x80_0000_0000_0000);
    Spot {
        image,
        sector: start + place.sector,
    }
}
