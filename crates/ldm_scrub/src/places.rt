//! The places of a volume that are compared.
ghost use Rattle.std.specs.Prelude.{◌≡◌, ◌-◌, ◌%◌, ◌/◌, ◌<◌, length};
ghost use Rattle.ldm_places.specs.Columns.{columns_of, IsColumned};
ghost use Rattle.ldm_places.specs.declared.shape.Shape.TheVariants.{Raid5};
ghost use Rattle.ldm_scrub.specs.Compare.{place_sector, IsCount, IsCommonRun};

use ldm_layout::{Plan, Shape};

// How many places a RAID-5 has: those of its whole rows, and those of the row that the volume's end
// cuts.
fn count_rows(plan: &Plan) -> u64
    requires { plan.now.shape ≡ Raid5 }
    ensures { IsCount plan.now result }
{
    let chunk = u128::from(plan.chunk());
    let row = chunk * (plan.columns() as u128 - 1);
    let size = u128::from(plan.size());
    (size / row * chunk + (size % row).min(chunk)) as u64
}

/// How many places there are.
pub fn place_count(plan: &Plan) -> u64
    ensures { IsCount plan.now result }
{
    match plan.shape() {
        Shape::Raid5 => count_rows(plan),
        _ => plan.size(),
    }
}

/// The sector of a place of a RAID-5.
pub fn row_sector(plan: &Plan, place: u64) -> u64
    requires raid5 { plan.now.shape ≡ Raid5 }
    requires within { place_sector plan.now place < plan.now.size }
    ensures is { result ≡ place_sector plan.now place }
    ensures columned { IsColumned plan.now }
{
    let size = plan.size();
    // The sector lies in front of the volume's end, so its number fits its type.
    prove!(0 < size);
    let chunk = plan.chunk();
    place / chunk * (plan.columns() as u64 - 1) * chunk + place % chunk
}

/// The place whose sector this is, in the first chunk of a row of a RAID-5.
pub fn row_place(plan: &Plan, sector: u64) -> u64
    requires raid5 { plan.now.shape ≡ Raid5 }
    requires first { sector / plan.now.chunk % (length (columns_of plan.now) - 1) ≡ 0 }
    ensures { place_sector plan.now result ≡ sector }
{
    let chunk = plan.chunk();
    sector / chunk / (plan.columns() as u64 - 1) * chunk + sector % chunk
}

/// How many sectors from this one on lie side by side in each copy.
pub fn common_run(plan: &Plan, sector: u64) -> u64
    requires { sector < plan.now.size }
    ensures { IsCommonRun plan.now sector result }
{
    let mut sectors = plan.size() - sector;
    'copies: for copy in 0..plan.copies() {
        sectors = sectors.min(plan.stretch(sector, copy));
    }
    sectors
}
