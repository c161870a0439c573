//! `MemoryHost`, a host in memory that tells everything and whose failures are exact
//! (`specs/Story.antt`, `specs/Ending.antt`).
//!
//! `left` gives one list of the images that a stop may leave of it (`specs/Left.antt`).
#![tactic(auto)]

mod call;
mod in_memory;
mod left;
mod made;
mod memory;
mod outcome;
mod steps;

pub use left::Filling;
pub use memory::MemoryHost;
