//! The rules of a sound group.
//!
//! `check` tests them in their order, which `specs/Table.antt` has as a table, and answers the
//! first that is broken, with the least id at which it is. Most rules are a walk over the records,
//! each of which asks the look-ups of the database.
#![tactic(auto)]

mod broken;
mod ends;
mod fault;
mod found;
mod laws;
mod layouts;
mod meetings;
mod plans;
mod single;
mod table;
mod tree;
mod twins;

pub use ends::sectors_of;
pub use fault::RuleError;
pub use laws::{new_groups_are_sound, places_are_disjoint};
pub use ldm_group::RuleFault;
pub use plans::sound_plan;
pub use table::check;
