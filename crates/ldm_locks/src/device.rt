//! What the system tells of a block device and of its partitions.
use crate::system::{DeviceNumber, System, number_in, read_line};
use crate::uses::{Use, find_use};
use std::fs::{self, DirEntry};
use std::io;
use std::path::Path;

/// Whether the block device of this folder may not be written.
pub(crate) fn is_read_only(rt: &HostRuntime, folder: Path<'_>) -> io::Result<bool> {
    Ok(read_line(rt, folder, "ro")?.as_str() != "0")
}

// Whether another device stands on the block device of this folder.
fn has_holders(rt: &HostRuntime, folder: Path<'_>) -> io::Result<bool> {
    let holders = folder.join(rt.alloc(), "holders")?;
    Ok(fs::read_dir(rt, &holders)?.next().is_some())
}

// Whether this is the folder of a partition, in that of its block device.
fn is_partition(rt: &HostRuntime, entry: &DirEntry) -> io::Result<bool> {
    let mark = entry.path().join(rt.alloc(), "partition")?;
    Ok(entry.file_type()?.is_dir() && fs::exists(rt, &mark)?)
}

/// A block device and its partitions.
#[derive(Drop)]
pub(crate) struct Device {
    pub(crate) numbers: Vec<DeviceNumber>,
    /// Whether it or one of its partitions may not be written.
    pub(crate) is_read_only: bool,
    // Whether another device stands on it or on one of its partitions.
    is_below: bool,
}

impl Device {
    // Adds the device or the partition of this folder.
    fn add(&mut self, rt: &HostRuntime, folder: Path<'_>) -> io::Result<()> {
        self.numbers.push(number_in(rt, folder)?)?;
        self.is_read_only = is_read_only(rt, folder)? || self.is_read_only;
        self.is_below = has_holders(rt, folder)? || self.is_below;
        Ok(())
    }

    /// What the system tells of the block device of this folder.
    pub(crate) fn look_at(rt: &HostRuntime, folder: Path<'_>) -> io::Result<Device> {
        let mut device = Device {
            numbers: Vec::new(rt.alloc()),
            is_read_only: false,
            is_below: false,
        };
        device.add(rt, folder)?;
        for entry in fs::read_dir(rt, folder)? {
            let entry = entry?;
            if is_partition(rt, &entry)? {
                device.add(rt, entry.path())?;
            }
        }
        Ok(device)
    }

    /// What it is used for.
    pub(crate) fn find_use(
        &self,
        rt: &HostRuntime,
        system: &System<'_>,
    ) -> io::Result<Option<Use>> {
        if self.is_below {
            return Ok(Some(Use::Below));
        }
        find_use(rt, system, self.numbers.as_slice())
    }
}
