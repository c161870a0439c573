//! `repair`: copies of the database that are damaged, closed or behind the others are made anew from
//! the group that the images hold past what is damaged.
//!
//! The words are in `specs/RepairWords.antt`; the answer, and what a stop leaves, in
//! `specs/Repairing.antt`; what holds while damaged copies are closed, in `specs/Closing.antt`.
#![tactic(auto)]

mod closing;
mod healing;
mod laws;
mod planning;
mod ran;
mod repairing;
mod texts;
mod viewing;
mod words;

pub use laws::{damaged_turns_hold_one_of_both, repairs_keep_the_group};
pub use ran::{Ran, damage_status, host_of};
pub use repairing::repair;
pub use viewing::find_shown;
pub use words::repair_images;
