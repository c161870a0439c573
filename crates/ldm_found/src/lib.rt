//! The group that the images of several disks hold, and whether it may be edited.
//!
//! What is found, and the faults in their order, is in `specs/Opening.antt`; why a group may not be
//! edited, in `specs/Editing.antt`.
#![tactic(auto)]

mod choosing;
mod copies;
mod disks;
mod editing;
mod fault;
mod finding;

pub use disks::twins;
pub use fault::OpenError;
pub use finding::find_group;
pub use ldm_copy::{Found, Note, Notes, OpenFault};
