//! The seven record types of the Logical Disk Manager's database, and the length of their own
//! spelling.
//!
//! A payload is the text of a record in the blocks of the database. All sizes, starts, offsets and
//! stripe sizes are in sectors.
#![tactic(auto)]

mod cloning;
mod field;
mod lengths;
mod listing;
mod outline;
mod pieces;
mod same;
mod types;

pub use field::Field;
pub use lengths::{fields_len, spelled_len};
pub use listing::record_sound;
pub use outline::{Outline, outline_of};
pub use pieces::{DiskForm, GroupForm, Head, Striping, TwoIds};
pub use types::{Component, Disk, GroupRec, Partition, Record, Volume};
