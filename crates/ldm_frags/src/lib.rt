//! Records in blocks: the payloads that a list of blocks holds.
//!
//! A block has 128 bytes: a head of 16 bytes and a payload of 112. A record that takes more than
//! one block stands in the fragments of a group, which may lie anywhere among the blocks.
#![tactic(auto)]

mod blocks;
mod faults;
mod groups;
mod joiner;
mod joining;

pub use faults::{FragError, FragFault, Joined};
pub use joiner::Joiner;
