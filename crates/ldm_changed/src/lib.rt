//! A body that takes the place of another on the disks: records that both databases have keep their
//! blocks, and only the blocks that differ are written.
//!
//! What changes of the blocks is in `specs/Plan.antt`, and what a change of a body is in
//! `specs/Change.antt`.
#![tactic(auto)]

mod change;
mod filling;
mod nexts;
mod planning;
mod rewriting;
mod weaving;

pub use change::{Change, next_body};
pub use filling::fill_changed;
pub use nexts::{Next, rewrite_next};
pub use rewriting::{refill_changed, rewrite_changed};
