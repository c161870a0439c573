//! What is damaged on the images of a group: labels, which views mend, and copies of the database,
//! which views pass over. Nothing is written.
//!
//! What a label is mended by is in `specs/Mending.antt`, what passing over a copy is in
//! `specs/Passing.antt`, and both of all images in `specs/Views.antt`.
#![tactic(auto)]

mod copies;
mod damage;
mod error;
mod finding;
mod labels;
mod laws;
mod mending;
mod passing;

pub use copies::copy_shown;
pub use damage::Damage;
pub use error::DamageError;
pub use finding::find_damage;
pub use labels::label_shown;
pub use laws::damage_is_told_once;
