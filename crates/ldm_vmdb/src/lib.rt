//! The header sector of the database (VMDB) as it is read, and how many blocks (VBLKs) a payload
//! behind it takes.
#![tactic(auto)]

mod header;
mod parts;
mod reading;

pub use header::{Header, VmdbError, VmdbFault};
pub use parts::parts_of;
pub use reading::read_header;
