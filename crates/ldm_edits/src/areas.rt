//! How many blocks the config areas of the images hold.
ghost use Rattle.std.specs.Prelude.{◌≡◌, ◌*◌, ◌-◌, ◌≤◌, min, fold};
ghost use Rattle.ldm_places.specs.Extents.{least};
ghost use Rattle.ldm_edits.specs.Changes.{least_area, most_blocks, AreasFit};

use ldm_label::Label;

// The least of a number and the areas of these labels.
fn least_with(sectors: u64, labels: &[Label]) -> u64
    ensures { result ≡ fold (λ m l. min m l.area_sectors) sectors labels.now }
{
    labels
        .iter()
        .fold(sectors, |least, l| least.min(l.area_sectors))
}

// The least config area of the images, in sectors; 0 where there is none.
#[tactic(auto, using(crate::proofs::AreaLaws::least_walked))]
fn least_area(labels: &[Label]) -> u64
    ensures { result ≡ least_area labels.now }
{
    match labels {
        [] => 0,
        [first, rest @ ..] => least_with(first.area_sectors, rest),
    }
}

/// The most blocks that each of the config areas holds.
#[tactic(auto, using(crate::proofs::AreaLaws::least_low))]
pub fn most_blocks(labels: &[Label]) -> u64
    requires { AreasFit labels.now }
    ensures is { result ≡ most_blocks labels.now }
    ensures few { result ≤ 8188 }
{
    (4 * least_area(labels)).saturating_sub(4)
}
