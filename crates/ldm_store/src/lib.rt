//! The group of a host's disks while it is edited: copies that a stop left behind are healed, and a
//! command is done on all disks, one after the other.
#![tactic(auto)]

mod laws;
mod rewriting;
mod session;
mod settling;
mod sharing;

pub use laws::{disks_alone, group_alone, kept_images_open};
pub use session::{ApplyError, Session};
pub use settling::{settle, sync_all};
