//! Bytes of the disk format: lists of bytes, big-endian numbers at plain offsets, variable numbers
//! and texts, and GUID texts.
//!
//! All numbers of the format are big-endian. No call takes memory but those that take an allocator.
#![tactic(auto)]

mod bytes;
mod fixed;
mod guid;
mod numbers;

pub use bytes::{Bytes, NoMemory};
pub use fixed::{get_u16, get_u32, get_u64, put_bytes, put_u16, put_u32, put_u64};
pub use guid::{read_guid, write_guid};
pub use numbers::{front_number, front_text, number_len, put_number, take_number, take_text};
