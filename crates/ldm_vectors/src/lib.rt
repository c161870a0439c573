//! A small sample group, for examples and tests: the images of `Dg0`, with one to three disks and
//! no volume, and a script for it.
#![tactic(auto)]

mod images;
mod script;

pub use images::sample_images;
pub use script::sample_script;
