//! Images that are open for their disks.
ghost use Rattle.std.specs.Prelude.{◌≡◌, ◌<◌, ◌^◌, ◌≤ℤ◌};
ghost use Rattle.std.specs.Fd.{file_raw_fd};
ghost use Rattle.ldm_files.specs.declared.streams.TheConstants.{STREAMS};

use crate::streams::STREAMS;
use std::fs::{File, Metadata, TryLockError};
use std::io::{self, ErrorKind, Seek, SeekFrom};
use std::os::fd::AsRawFd;
use std::os::unix::fs::{FileTypeExt, MetadataExt};
use thiserror::Error;

/// What a job does with its images.
#[derive(Clone, Copy, PartialEq, Eq)]
pub enum Access {
    /// They are read alone.
    Read,
    /// They are written to as well.
    Edit,
}

/// Why an image can't be had.
#[derive(Clone, Copy, Debug, Drop, Error)]
pub enum ImageError {
    #[error("there is no such file")]
    Missing,
    #[error("no permission")]
    Forbidden,
    #[error("it is {0}, and neither a regular file nor a block device")]
    NoDisk(&'static str),
    #[error("read-only")]
    ReadOnly,
    #[error("held by another program")]
    Held,
    #[error("it or a partition of it is mounted")]
    Mounted,
    #[error("it or a partition of it is used as swap")]
    Swap,
    #[error("another device stands on it or on a partition of it, as of md or dm")]
    Below,
    #[error("a loop device over it (/dev/loop{0}) is mounted")]
    LoopMounted(u32),
    #[error("a loop device over it (/dev/loop{0}) is used as swap")]
    LoopSwap(u32),
    #[error("another device stands on a loop device over it (/dev/loop{0}), as of md or dm")]
    LoopBelow(u32),
    #[error("the system does not tell in /sys and /proc who uses it")]
    Untold,
    #[error("a standard stream is closed, and the image would take its place")]
    Stream,
    #[error("no memory")]
    NoMemory,
    #[error("{0}")]
    System(io::Error),
}

impl From<io::Error> for ImageError {
    fn from(error: io::Error) -> ImageError {
        match error.kind() {
            ErrorKind::NotFound => ImageError::Missing,
            ErrorKind::PermissionDenied => ImageError::Forbidden,
            ErrorKind::ReadOnlyFilesystem => ImageError::ReadOnly,
            ErrorKind::WouldBlock | ErrorKind::ResourceBusy => ImageError::Held,
            ErrorKind::OutOfMemory => ImageError::NoMemory,
            _ => ImageError::System(error),
        }
    }
}

/// A file by the device that it is on, and its number there.
#[derive(Clone, Copy, PartialEq, Eq)]
pub struct FileId {
    pub device: u64,
    pub number: u64,
}

/// An image that is open for its disk, and how long it is. It is on no standard stream.
#[derive(Drop)]
pub struct ImageFile {
    pub(crate) file: File,
    id: FileId,
    pub(crate) sectors: u64,
    ghost small: { sectors < 2 ^ 55 },
    ghost apart: { STREAMS ≤ℤ file_raw_fd file },
}

// Refuses what holds no disk: only a regular file and a block device do.
fn require_disk(metadata: &Metadata) -> Result<(), ImageError> {
    let kind = metadata.file_type();
    if kind.is_file() || kind.is_block_device() {
        return Ok(());
    }
    Err(ImageError::NoDisk(if kind.is_dir() {
        "a directory"
    } else if kind.is_fifo() {
        "a pipe"
    } else if kind.is_socket() {
        "a socket"
    } else {
        "a character device"
    }))
}

impl ImageFile {
    ghost use Rattle.std.specs.Prelude.{◌≡◌};

    /// Opens an image for reading, and for writing too where the job edits. What holds no disk
    /// isn't even opened, since a named pipe would wait for a writer; what was opened is looked at
    /// again, since the name may stand for another file by then.
    pub fn open(rt: &HostRuntime, path: &str, access: Access) -> Result<ImageFile, ImageError> {
        require_disk(&std::fs::metadata(rt, path)?)?;
        let file = File::options()
            .read(true)
            .write(access == Access::Edit)
            .open(rt, path)?;
        require_disk(&file.metadata()?)?;
        ImageFile::of(file)
    }

    /// Which file it is.
    pub fn id(&self) -> FileId
        ensures { result ≡ self.now.id }
    {
        self.id
    }

    /// The number of the block device that it is, where it is one.
    pub fn block_device(&self) -> Result<Option<u64>, ImageError> {
        let metadata = self.file.metadata()?;
        if metadata.file_type().is_block_device() {
            Ok(Some(metadata.rdev()))
        } else {
            Ok(None)
        }
    }

    /// Locks the file for as long as it is open, and fails where another program has locked it.
    pub fn try_lock(&self) -> Result<(), ImageError> {
        match self.file.try_lock() {
            Ok(()) => Ok(()),
            Err(TryLockError::Error(error)) => Err(ImageError::from(error)),
            Err(TryLockError::WouldBlock) => Err(ImageError::Held),
        }
    }

    /// Takes an open file for an image, but none that is on a standard stream. Its length is where
    /// it ends, since the metadata of a block device has none; whole sectors count.
    pub fn of(file: File) -> Result<ImageFile, ImageError> {
        if file.as_raw_fd() < STREAMS {
            return Err(ImageError::Stream);
        }
        let metadata = file.metadata()?;
        let id = FileId {
            device: metadata.dev(),
            number: metadata.ino(),
        };
        let sectors = (&file).seek(SeekFrom::End(0))? / 512;
        Ok(ImageFile { file, id, sectors })
    }
}
