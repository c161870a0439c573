//! Holds an image for a job that writes.
use crate::device::Device;
use crate::locks::has_byte_locks;
use crate::loops::{Below, find_used_loop};
use crate::system::{DeviceNumber, System};
use crate::uses::Use;
use ldm_files::{FileId, ImageError, ImageFile};
use std::io::{self, ErrorKind};

// The system doesn't tell who uses an image, or there is no memory for it.
fn untold(error: io::Error) -> ImageError {
    if error.kind() == ErrorKind::OutOfMemory {
        ImageError::NoMemory
    } else {
        ImageError::Untold
    }
}

fn error_of_device(used: Use) -> ImageError {
    match used {
        Use::Mounted => ImageError::Mounted,
        Use::Swap => ImageError::Swap,
        Use::Below => ImageError::Below,
    }
}

// What stands against an edit of the block device of this number: that it or a partition of it may
// not be written, is mounted, swapped to or under another device, or that a loop device over one of
// them is. An error where the system doesn't tell it.
fn find_hindrance(
    rt: &HostRuntime,
    system: &System<'_>,
    number: DeviceNumber,
) -> io::Result<Option<ImageError>> {
    let name = format!(in rt.alloc(); "dev/block/{number}")?;
    let device = Device::look_at(rt, system.place(rt, name.as_str())?.as_path())?;
    if device.is_read_only {
        return Ok(Some(ImageError::ReadOnly));
    }
    match device.find_use(rt, system)? {
        Some(used) => Ok(Some(error_of_device(used))),
        None => find_used_loop(rt, system, Below::Devices(device.numbers.as_slice())),
    }
}

// Refuses where something stands against an edit, and where the system doesn't tell.
fn require_none(hindrance: io::Result<Option<ImageError>>) -> Result<(), ImageError> {
    match hindrance {
        Ok(None) => Ok(()),
        Ok(Some(error)) => Err(error),
        Err(error) => Err(untold(error)),
    }
}

/// Refuses a block device that is used or may not be written.
pub(crate) fn require_unused_device(
    rt: &HostRuntime,
    system: &System<'_>,
    number: DeviceNumber,
) -> Result<(), ImageError> {
    require_none(find_hindrance(rt, system, number))
}

// Refuses a file with a loop device over it that is used.
fn require_unused_file(
    rt: &HostRuntime,
    system: &System<'_>,
    id: FileId,
) -> Result<(), ImageError> {
    require_none(find_used_loop(rt, system, Below::File(id)))
}

fn require_no_byte_locks(
    rt: &HostRuntime,
    system: &System<'_>,
    id: FileId,
) -> Result<(), ImageError> {
    match has_byte_locks(rt, system, id) {
        Ok(false) => Ok(()),
        Ok(true) => Err(ImageError::Held),
        Err(error) => Err(untold(error)),
    }
}

/// Locks the image against other programs that edit, for as long as it is open. Fails where one of
/// them holds it, where any program holds bytes of it, where it is a block device that is used by
/// anything else or may not be written, and where a loop device over it is used. An image that is
/// among those held before is left to the lock of the first, so that it is found to be named twice.
pub fn hold(
    rt: &HostRuntime,
    system: &System<'_>,
    image: &ImageFile,
    others: &[ImageFile],
) -> Result<(), ImageError> {
    match image.block_device()? {
        Some(device) => require_unused_device(rt, system, DeviceNumber::of(device))?,
        None => require_unused_file(rt, system, image.id())?,
    }
    if others.iter().any(|other| other.id() == image.id()) {
        return Ok(());
    }
    image.try_lock()?;
    require_no_byte_locks(rt, system, image.id())
}
