//! The jobs that look at the disks of a host, and then say their answer: disk, records, scan, show,
//! check and map; and the texts and the JSON that are said, each exact.
//!
//! The top call is `look`. Its contract is the theorem of the program that only looks.
#![tactic(auto)]

mod check_json;
mod check_text;
mod counting;
mod families;
mod fault_json;
mod foreign;
mod formats;
mod label_json;
mod lines;
mod looking;
mod map_json;
mod map_text;
mod mapped;
mod mapping;
mod opening;
mod optional;
mod paths;
mod records_json;
mod refusing;
mod saying;
mod scan_text;
mod scanned;
mod scanning;
mod show_json;
mod show_text;
mod states;
mod volumes;

pub use check_json::begin_check;
pub use counting::open_counted;
pub use foreign::Foreign;
pub use formats::said_check;
pub use looking::{check, disk, is_look, look, map, open_for, open_group, records, scan, show};
pub use refusing::refuse_for;
pub use saying::{refuse, say_made};
pub use scan_text::{push_scanned_json, push_scanned_line};
pub use scanned::{Membership, Scanned};
pub use scanning::{ScanError, scan_image};
