//! Why a job refused, for one who sits at a terminal: in a line or two, with the paths of images,
//! the names of disks and volumes, and numbers.
//!
//! Nothing is read of what the job said: the cause is found again, by the calls that the job made.
//! The calls that take a host only look at its disks. Of the texts nothing is proved.
#![tactic(auto)]

mod behind;
mod command;
mod damage;
mod explaining;
mod group;
mod image;
mod line;
mod names;
mod saying;
mod script;
mod sight;
mod tables;
mod volume;
mod words;

pub use behind::behind_text;
pub use command::say_refusal;
pub use damage::{damage_text, repair_text};
pub use explaining::explain;
pub use group::fault_line;
pub use image::{Glimpse, copy_line, label_line};
pub use line::say_unread;
pub use sight::Sight;
pub use tables::untabled_text;
pub use words::words_of;
