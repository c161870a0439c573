//! The outside as the program sees it: many disks, input and output.
//!
//! The clauses of a host are relations between what is seen of it before a call and after it
//! (`specs/Seen.antt`, `specs/Moves.antt`). What a stop may leave on the disks is part of that.
#![tactic(auto)]

mod host;

pub use host::{DiskRange, Failed, Host};
