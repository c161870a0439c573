//! What is written of a database: its header, the own spellings of records, records laid in blocks,
//! and unused blocks.
//!
//! And `join`, which takes all blocks of a list at once: blocks that hold records join to them.
#![tactic(auto)]

mod error;
mod header;
mod made;
mod records;
mod slots;
mod splitting;
mod whole;
mod writing;

pub use error::SplitError;
pub use header::{Counts, write_header};
pub use made::new_header;
pub use records::spelling;
pub use slots::Slots;
pub use splitting::{split, with_unused};
pub use whole::join;
pub use writing::{is_unused, is_written, write_record, write_unused};
