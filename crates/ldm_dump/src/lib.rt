//! The bytes of a volume, read from the images of its disks, also where one is absent.
#![tactic(auto)]

mod dumping;
mod laws;
mod losing;
mod reading;
mod runs;
mod spots;

pub use dumping::{DumpError, dump_sectors};
pub use laws::{redundant_volumes_read_the_same, sections_join, volumes_lie_on_images};
pub use losing::{lost, lost_in, lost_sectors};
pub use reading::{clear, join_spot, read_sector, read_spot};
pub use runs::{Run, run_at};
pub use spots::{Spot, spot_of};
