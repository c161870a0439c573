//! The whole rows of a stripe or a RAID-5.
ghost use Rattle.std.specs.Prelude.{◌≡◌, ◌*◌, ◌<◌, ◌≤◌};
ghost use Rattle.ldm_places.specs.Columns.{chunk_of};
ghost use Rattle.ldm_table.specs.Tables.{data_columns, row_sectors, whole_rows, in_rows};

use ldm_layout::{Plan, Shape};

fn data_columns(shape: Shape, columns: usize) -> usize
    ensures { result ≡ data_columns shape columns }
{
    match shape {
        Shape::Stripe => columns,
        Shape::Raid5 => columns.saturating_sub(1),
        _ => 0,
    }
}

/// The sectors of a row; 0 where there are no rows.
pub(crate) fn row_sectors(plan: &Plan) -> u128
    ensures { result ≡ row_sectors plan.now }
{
    u128::from(plan.chunk()) * data_columns(plan.shape(), plan.columns()) as u128
}

/// How many rows are whole.
pub(crate) fn whole_rows(plan: &Plan) -> u64
    ensures { result ≡ whole_rows plan.now }
{
    let row = row_sectors(plan);
    if row == 0 {
        0
    } else {
        (u128::from(plan.size()) / row) as u64
    }
}

/// The sectors that they hold.
pub(crate) fn in_rows(plan: &Plan) -> u64
    ensures is { result ≡ in_rows plan.now }
    ensures within { result ≤ plan.now.size }
{
    let row = row_sectors(plan);
    if row == 0 {
        0
    } else {
        plan.size() - (u128::from(plan.size()) % row) as u64
    }
}

/// The sectors that they have of a column.
pub(crate) fn rows_in_column(plan: &Plan) -> u64
    requires { 0 < whole_rows plan.now }
    ensures { result ≡ whole_rows plan.now * chunk_of plan.now }
{
    let sectors = u128::from(whole_rows(plan)) * u128::from(plan.chunk());
    prove!(sectors <= u128::from(plan.size()));
    sectors as u64
}
