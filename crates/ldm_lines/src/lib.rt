//! The lines of a script, and the command that each says.
#![tactic(auto)]

mod line;
mod reading;

pub use line::{LineError, front_line, read_line};
pub use reading::read_script_line;
