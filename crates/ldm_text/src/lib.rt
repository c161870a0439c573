//! The texts that the program says of a disk and of a copy, each exact, and what all texts are made
//! of.
#![tactic(auto)]

mod copy_fault;
mod growing;
mod label;
mod naming;
mod parts;
mod records;
mod refusal;

pub use copy_fault::copy_fault_text;
pub use growing::Text;
pub use label::{label_fault_text, label_text};
pub use naming::{guid_of, push_name, push_named, push_number, said_text};
pub use parts::{Part, push_parts};
pub use records::records_text;
pub use refusal::{image_fault_text, refusal_text};
