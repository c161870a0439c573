//! Reads the records of the Logical Disk Manager's database from their payloads.
#![tactic(auto)]

mod component;
mod disk;
mod ends;
mod fault;
mod fields;
mod group;
mod ids_text;
mod opening;
mod partition;
mod reading;
mod volume;
mod volume_text;

pub use fault::{RecordError, RecordFault};
pub use reading::read_record;
