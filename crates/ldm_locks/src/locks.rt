//! Who holds bytes of a file.
use crate::system::{DeviceNumber, System};
use ldm_files::FileId;
use std::alloc::{AllocError, Global};
use std::io;

// A file as the table of locks calls it, by its number on its device.
fn file_text(alloc: Global, id: FileId) -> Result<String, AllocError> {
    let DeviceNumber { major, minor } = DeviceNumber::of(id.device);
    format!(in alloc; "{major:02x}:{minor:02x}:{}", id.number)
}

// Whether a line of the table of locks is of bytes of the file that is called so there. What waits
// for a lock has none.
fn locks_bytes(line: &str, file: &str) -> bool {
    let mut words = line.split_whitespace().skip(1);
    let is_of_bytes = matches!(words.next(), Some("POSIX" | "OFDLCK"));
    is_of_bytes && words.nth(3) == Some(file)
}

/// Whether a program holds bytes of the file, as programs do that run virtual machines. A lock of
/// the whole file is none of these.
pub(crate) fn has_byte_locks(
    rt: &HostRuntime,
    system: &System<'_>,
    id: FileId,
) -> io::Result<bool> {
    let file = file_text(rt.alloc(), id)?;
    let table = system.table(rt, "locks")?;
    Ok(
        table
            .as_str()
            .lines()
            .any(|line| locks_bytes(line, file.as_str())),
    )
}
