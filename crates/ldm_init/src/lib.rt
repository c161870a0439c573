//! A new group on empty images.
#![tactic(auto)]

mod database;
mod faults;
mod group;
mod labels;
mod laws;
mod making;
mod signing;
mod writing;

pub use database::new_database;
pub use faults::{InitError, InitFault, check_disks};
pub use group::init;
pub use laws::{new_group_moments, new_groups_open};
pub use making::{write_all, write_group};
pub use signing::sign_all;
pub use writing::write_disk;
