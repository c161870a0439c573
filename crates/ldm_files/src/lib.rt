//! Files as the outside of the program: images that are open for their disks, standard input and
//! output.
//!
//! `FileHost` is the host that `ldm` runs over. It tells nothing of what is in the files: what its
//! calls do to them is trusted.
#![tactic(auto)]

mod file_host;
mod image;
mod streams;
mod watch;

pub use file_host::{DiskCall, Failure, FileHost, Sectors};
pub use image::{Access, FileId, ImageError, ImageFile};
pub use streams::{STREAMS, take_closed_streams};
pub use watch::{Unwatched, Watch};
