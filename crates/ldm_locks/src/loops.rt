//! What stands against an edit of an image in the loop devices over it.
use crate::device::{Device, is_read_only};
use crate::system::{DeviceNumber, System, read_line};
use crate::uses::Use;
use ldm_files::{FileId, ImageError};
use std::fs::{self, DirEntry, Metadata};
use std::io;
use std::os::unix::fs::{FileTypeExt, MetadataExt};

/// What loop devices may stand on: a file, or one of some block devices.
#[derive(Clone, Copy)]
pub(crate) enum Below<'a> {
    File(FileId),
    Devices(&'a [DeviceNumber]),
}

impl Below<'_> {
    // Whether the file of this metadata is it.
    fn is(&self, metadata: &Metadata) -> bool {
        match self {
            Below::File(id) => metadata.dev() == id.device && metadata.ino() == id.number,
            Below::Devices(numbers) => {
                let number = DeviceNumber::of(metadata.rdev());
                metadata.file_type().is_block_device() && numbers.iter().any(|it| *it == number)
            }
        }
    }
}

// Where a loop device that stands on a file says which one.
const BACKING_FILE: &str = "loop/backing_file";

// The number of a loop device, by the name of its folder.
fn loop_number(name: &str) -> Option<u32> {
    name.strip_prefix("loop")?.parse().ok()
}

// Whether writes may come through the loop device of this folder.
fn may_write(rt: &HostRuntime, entry: &DirEntry) -> io::Result<bool> {
    let file = entry.path().join(rt.alloc(), BACKING_FILE)?;
    Ok(fs::exists(rt, &file)? && !is_read_only(rt, entry.path())?)
}

// Whether the loop device of this folder stands on it. An error where its file can't be looked at,
// as one whose name is gone, or that is seen by other processes alone.
fn stands_on(rt: &HostRuntime, entry: &DirEntry, below: Below<'_>) -> io::Result<bool> {
    let path = read_line(rt, entry.path(), BACKING_FILE)?;
    Ok(below.is(&fs::metadata(rt, path.as_str())?))
}

fn error_of_loop(used: Use, number: u32) -> ImageError {
    match used {
        Use::Mounted => ImageError::LoopMounted(number),
        Use::Swap => ImageError::LoopSwap(number),
        Use::Below => ImageError::LoopBelow(number),
    }
}

// What stands against an edit of it in the loop device of this folder. What the device stands on
// must be told only where it is used.
fn find_hindrance(
    rt: &HostRuntime,
    system: &System<'_>,
    entry: &DirEntry,
    number: u32,
    below: Below<'_>,
) -> io::Result<Option<ImageError>> {
    if !may_write(rt, entry)? {
        return Ok(None);
    }
    let stands = stands_on(rt, entry, below);
    if matches!(stands, Ok(false)) {
        return Ok(None);
    }
    match Device::look_at(rt, entry.path())?.find_use(rt, system)? {
        Some(used) => stands.map(|_| Some(error_of_loop(used, number))),
        None => Ok(None),
    }
}

/// A loop device over this that may be written, and that or a partition of which is mounted,
/// swapped to or under another device. An error where the system doesn't tell it.
pub(crate) fn find_used_loop(
    rt: &HostRuntime,
    system: &System<'_>,
    below: Below<'_>,
) -> io::Result<Option<ImageError>> {
    for entry in fs::read_dir(rt, system.place(rt, "block")?)? {
        let entry = entry?;
        if let Some(number) = loop_number(entry.file_name()) {
            let hindrance = find_hindrance(rt, system, &entry, number, below)?;
            if hindrance.is_some() {
                return Ok(hindrance);
            }
        }
    }
    Ok(None)
}
