//! New records of a database, those of new volumes, and changed ones.
//!
//! All sizes, starts, offsets and stripe sizes are in sectors.
#![tactic(auto)]

mod changed;
mod made;
mod taken;
mod volumes;

pub use changed::{resized, with_children};
pub use made::{new_component, new_disk, new_group, new_partition, new_volume};
pub use taken::Taken;
pub use volumes::{mirror, raid5, sectors_with, span, stripe, with_tiles};
