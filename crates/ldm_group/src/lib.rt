//! The database of a group: a header and the records of its disks, volumes, components and
//! partitions.
//!
//! The records stand in rising order of kind and id. What they are looked up by stands in maps,
//! which are made with the database: so a look-up takes no memory, and doesn't walk.
#![tactic(auto)]

mod catalog;
mod db;
mod error;
mod fault;
mod index;
mod looks;
mod order;
mod records;
mod room;
mod same;
mod used;

pub use db::Db;
pub use error::DbError;
pub use fault::RuleFault;
pub use order::{id_of, kind_of};
pub use records::Records;
pub use room::{last_for, own_len};
pub use same::is_same_header;
pub use used::{used_of, used_sectors};
