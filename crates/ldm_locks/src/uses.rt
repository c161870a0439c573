//! What block devices are used for.
use crate::system::{DeviceNumber, System};
use std::io;

/// What a block device or a partition of it is used for.
#[derive(Clone, Copy, PartialEq, Eq)]
pub(crate) enum Use {
    Mounted,
    Swap,
    /// Another device stands on it.
    Below,
}

// Whether the device of this path is one of these. A path that isn't below /dev/ names none.
fn is_one_of(
    rt: &HostRuntime,
    system: &System<'_>,
    numbers: &[DeviceNumber],
    path: &str,
) -> io::Result<bool> {
    match path.strip_prefix("/dev/") {
        Some(name) => {
            let number = system.number_of(rt, name)?;
            Ok(numbers.iter().any(|it| *it == number))
        }
        None => Ok(false),
    }
}

// Whether a line of the table of mounts is of one of the devices. Its third word is the number of
// the device. Some file systems have one with major number 0 there, which is none of a device: they
// name what they lie on as the second word behind a bar.
fn mounts_one_of(
    rt: &HostRuntime,
    system: &System<'_>,
    numbers: &[DeviceNumber],
    line: &str,
) -> io::Result<bool> {
    let number = DeviceNumber::read(line.split(' ').nth(2).unwrap_or(""))?;
    if number.major != 0 {
        return Ok(numbers.iter().any(|it| *it == number));
    }
    let behind = line.split(" - ").nth(1).unwrap_or("");
    is_one_of(rt, system, numbers, behind.split(' ').nth(1).unwrap_or(""))
}

fn are_mounted(
    rt: &HostRuntime,
    system: &System<'_>,
    numbers: &[DeviceNumber],
) -> io::Result<bool> {
    let table = system.table(rt, "self/mountinfo")?;
    for line in table.as_str().lines() {
        if mounts_one_of(rt, system, numbers, line)? {
            return Ok(true);
        }
    }
    Ok(false)
}

// Whether one of the devices is swapped to. The first line of the table is none of a swap.
fn are_swap(rt: &HostRuntime, system: &System<'_>, numbers: &[DeviceNumber]) -> io::Result<bool> {
    let table = system.table(rt, "swaps")?;
    for line in table.as_str().lines().skip(1) {
        let path = line.split(' ').next().unwrap_or("");
        if is_one_of(rt, system, numbers, path)? {
            return Ok(true);
        }
    }
    Ok(false)
}

/// What one of these devices is used for, of what stands in the tables of mounts and of swap. An
/// error where they don't tell it.
pub(crate) fn find_use(
    rt: &HostRuntime,
    system: &System<'_>,
    numbers: &[DeviceNumber],
) -> io::Result<Option<Use>> {
    if are_mounted(rt, system, numbers)? {
        Ok(Some(Use::Mounted))
    } else if are_swap(rt, system, numbers)? {
        Ok(Some(Use::Swap))
    } else {
        Ok(None)
    }
}
