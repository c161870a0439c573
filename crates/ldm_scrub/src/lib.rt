//! Mirrors whose copies differ, and RAID-5s whose parity fails.
#![tactic(auto)]

mod comparing;
mod laws;
mod lines;
mod missing;
mod places;
mod scrubbing;

pub use comparing::place_bad;
pub use laws::{clean_volumes_are_redundant, volumes_without_missing_disks_are_complete};
pub use lines::LINE;
pub use missing::missing_disk;
pub use scrubbing::{ScrubError, scrub_volume};
