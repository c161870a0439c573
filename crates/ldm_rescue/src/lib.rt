//! A volume that is read off disks that fail: each of its sectors from the first of its sources that
//! can be read, and all of them said, where zeros stand for those that are lost.
//!
//! What is read of a sector is in `specs/Rescued.antt`, and which ranges are told in
//! `specs/Losses.antt`.
#![tactic(auto)]

mod laws;
mod losses;
mod reading;
mod rescuing;
mod saying;
mod sources;
mod words;

pub use laws::rescued_sectors_are_dumped;
pub use losses::{Loss, Losses};
pub use reading::{Cause, Rescued, rescue_some};
pub use rescuing::{Rescue, Totals, run_rescue};
pub use saying::rescue_sectors;
pub use words::{RescueWords, rescue_words};
