//! The device-mapper tables that make read-only devices of volumes, and the text that `dmsetup` makes
//! them from.
#![tactic(auto)]

mod faults;
mod groups;
mod lines;
mod names;
mod parts;
mod rows;
mod stretch;
mod table;

pub use faults::{TableFault, fault_text};
pub use groups::{TablesFault, group_tables_are_volumes, tables_fault_text, tables_text};
pub use parts::Member;
pub use stretch::Stretch;
pub use table::{table_fault, table_text, tables_are_volumes};
