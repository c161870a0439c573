//! Where the system tells in files who uses what, and the numbers by which it calls devices.
use std::io::{self, ErrorKind};
use std::os::unix::fs::MetadataExt;
use std::path::{Path, PathBuf};
use std::{fmt, fs};

/// The folders in which the system tells who uses what.
#[derive(Clone, Copy)]
pub struct System<'a> {
    pub sys: &'a str,
    pub proc: &'a str,
    pub dev: &'a str,
}

impl System<'static> {
    /// Those of the machine that the program runs on.
    pub fn of_machine() -> System<'static> {
        System {
            sys: "/sys",
            proc: "/proc",
            dev: "/dev",
        }
    }
}

/// The two numbers that make the number of a device. It is written as the system writes it in most
/// places.
#[derive(Clone, Copy, PartialEq, Eq)]
pub(crate) struct DeviceNumber {
    pub(crate) major: u64,
    pub(crate) minor: u64,
}

impl DeviceNumber {
    /// The numbers of a device as a file's metadata has it.
    pub(crate) fn of(device: u64) -> DeviceNumber {
        DeviceNumber {
            major: (device >> 8 & 0xfff) | (device >> 32 & 0xffff_f000),
            minor: (device & 0xff) | (device >> 12 & 0xffff_ff00),
        }
    }

    /// Reads what the system writes. A text of another form is invalid data.
    pub(crate) fn read(text: &str) -> io::Result<DeviceNumber> {
        let numbers = text.split_once(':');
        let major = numbers.and_then(|(major, _)| major.parse().ok());
        let minor = numbers.and_then(|(_, minor)| minor.parse().ok());
        match (major, minor) {
            (Some(major), Some(minor)) => Ok(DeviceNumber { major, minor }),
            _ => Err(io::Error::from(ErrorKind::InvalidData)),
        }
    }
}

impl fmt::Display for DeviceNumber {
    fn fmt<W: fmt::Write>(&self, f: &mut fmt::Formatter<W>) -> fmt::Result {
        write!(f, "{}:{}", self.major, self.minor)
    }
}

/// What a file in this folder says, without the end of its line.
pub(crate) fn read_line(rt: &HostRuntime, folder: Path<'_>, name: &str) -> io::Result<String> {
    let text = fs::read_to_string(rt, folder.join(rt.alloc(), name)?)?;
    let line = text.as_str();
    Ok(
        line.strip_suffix('\n')
            .unwrap_or(line)
            .to_string(rt.alloc())?,
    )
}

/// The number of the block device of this folder.
pub(crate) fn number_in(rt: &HostRuntime, folder: Path<'_>) -> io::Result<DeviceNumber> {
    DeviceNumber::read(read_line(rt, folder, "dev")?.as_str())
}

impl System<'_> {
    /// A table of the processes and of what they share.
    pub(crate) fn table(&self, rt: &HostRuntime, name: &str) -> io::Result<String> {
        fs::read_to_string(rt, Path::new(self.proc).join(rt.alloc(), name)?)
    }

    /// A place below the folder of devices and drivers.
    pub(crate) fn place(&self, rt: &HostRuntime, name: &str) -> io::Result<PathBuf> {
        Ok(Path::new(self.sys).join(rt.alloc(), name)?)
    }

    /// The number of the device of this name below /dev. Where no such file is there, as in a
    /// container, the system may still know a block device by the name.
    pub(crate) fn number_of(&self, rt: &HostRuntime, name: &str) -> io::Result<DeviceNumber> {
        match fs::metadata(rt, Path::new(self.dev).join(rt.alloc(), name)?) {
            Ok(metadata) => Ok(DeviceNumber::of(metadata.rdev())),
            Err(error) if error.kind() == ErrorKind::NotFound => {
                let folder = self.place(rt, "class/block")?.join(rt.alloc(), name)?;
                number_in(rt, folder.as_path())
            }
            Err(error) => Err(error),
        }
    }
}
