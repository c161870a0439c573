//! The disks of the sample groups: their labels and GUIDs.
#![tactic(auto)]

mod disks;

pub use disks::{guid_with, sample_label, zeros};
