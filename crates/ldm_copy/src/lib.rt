//! One copy of a group's database, read from the config area of a disk: its header sector, and
//! where it is open the blocks in use. And what the copies and labels of several disks come to: a
//! group, with a label and a note for each image, or a fault; which of them, `ldm_found` says.
//!
//! Sectors have 512 bytes, blocks 128. What a copy is, and its faults in their order, is in
//! `specs/Copy.antt`.
#![tactic(auto)]

mod alike;
mod answer;
mod database;
mod fault;
mod found;
mod notes;
mod reading;

pub use alike::is_alike;
pub use answer::{CopyError, CopyFault, CopyState};
pub use fault::OpenFault;
pub use found::Found;
pub use notes::{Note, Notes};
pub use reading::read_copy;
