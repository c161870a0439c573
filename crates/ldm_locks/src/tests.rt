//! Who uses an image, over folders that stand in for those of a system.
use super::*;
use crate::holding::require_unused_device;
use crate::locks::has_byte_locks;
use crate::system::DeviceNumber;
use ldm_files::{FileId, ImageError, ImageFile};
use std::env;
use std::fs::{self, File};
use std::path::PathBuf;
use std::test::Fail;

// A new folder of its own, for a system of this name.
fn folder_for(rt: &HostRuntime, name: &str) -> Result<PathBuf, Fail> {
    let mut folder = env::temp_dir(rt)?;
    let id = std::process::id(rt.process());
    folder.push(format!(in rt.alloc(); "ldm-locks-{name}-{id}")?)?;
    fs::create_dir(rt, &folder)?;
    Ok(folder)
}

// A file of a system, by its path and what it says. The path of a folder ends with a slash. IMAGE is
// the path of the image.
type Told = (&'static str, &'static str);

// A system on which nothing is used: a disk with one partition, and a loop device over the image.
const FREE: [Told; 14] = [
    ("sys/dev/block/8:0/dev", "8:0\n"),
    ("sys/dev/block/8:0/ro", "0\n"),
    ("sys/dev/block/8:0/holders/", ""),
    ("sys/dev/block/8:0/sda1/dev", "8:1\n"),
    ("sys/dev/block/8:0/sda1/ro", "0\n"),
    ("sys/dev/block/8:0/sda1/partition", "1\n"),
    ("sys/dev/block/8:0/sda1/holders/", ""),
    ("sys/block/loop3/dev", "7:3\n"),
    ("sys/block/loop3/ro", "0\n"),
    ("sys/block/loop3/holders/", ""),
    ("sys/block/loop3/loop/backing_file", "IMAGE\n"),
    (
        "proc/self/mountinfo",
        "22 27 0:21 / /proc rw - proc proc rw\n",
    ),
    ("proc/swaps", "Filename Type Size Used Priority\n"),
    ("proc/locks", "1: FLOCK ADVISORY WRITE 7 08:00:42 0 EOF\n"),
];

fn path_in(rt: &HostRuntime, folder: &PathBuf, name: &str) -> Result<String, Fail> {
    Ok(format!(in rt.alloc(); "{}/{name}", folder.as_str())?)
}

// Writes a file of a system, or makes a folder.
fn tell(rt: &HostRuntime, folder: &PathBuf, told: Told) -> Result<(), Fail> {
    let (name, text) = told;
    let path = path_in(rt, folder, name)?;
    let Some((parent, _)) = path.as_str().rsplit_once('/') else {
        return Err(Fail::from("no folder"));
    };
    fs::create_dir_all(rt, parent)?;
    if name.ends_with('/') {
        return Ok(());
    }
    let image = path_in(rt, folder, "a.img")?;
    let text = text.replace(rt.alloc(), "IMAGE", image.as_str())?;
    fs::write(rt, path.as_str(), text.as_str())?;
    Ok(())
}

// What stands against an edit on a system that tells some things besides, and doesn't have one file.
#[derive(Clone, Copy)]
struct Row {
    name: &'static str,
    told: &'static [Told],
    gone: Option<&'static str>,
    text: &'static str,
}

fn with(name: &'static str, told: &'static [Told], text: &'static str) -> Row {
    Row {
        name,
        told,
        gone: None,
        text,
    }
}

fn without(gone: &'static str) -> Row {
    Row {
        name: gone,
        told: &[],
        gone: Some(gone),
        text: "the system does not tell in /sys and /proc who uses it",
    }
}

// What is said of an edit.
fn text_of(rt: &HostRuntime, held: Result<(), ImageError>) -> Result<String, Fail> {
    Ok(match held {
        Ok(()) => String::from_str(rt.alloc(), "free")?,
        Err(error) => format!(in rt.alloc(); "{error}")?,
    })
}

// Makes the system of a row in a folder, and an image beside it.
fn make(rt: &HostRuntime, folder: &PathBuf, row: Row) -> Result<(), Fail> {
    fs::write(rt, path_in(rt, folder, "a.img")?.as_str(), &[0u8; 512])?;
    for told in FREE.iter().chain(row.told) {
        tell(rt, folder, *told)?;
    }
    if let Some(gone) = row.gone {
        fs::remove_file(rt, path_in(rt, folder, gone)?.as_str())?;
    }
    Ok(())
}

// What stands against an edit of the disk on the system of a row, or else of the image.
fn hindrance_on(rt: &HostRuntime, row: Row, is_disk: bool) -> Result<String, Fail> {
    let folder = folder_for(rt, if is_disk { "disk" } else { "file" })?;
    make(rt, &folder, row)?;
    let sys = path_in(rt, &folder, "sys")?;
    let proc = path_in(rt, &folder, "proc")?;
    let system = System {
        sys: sys.as_str(),
        proc: proc.as_str(),
        dev: sys.as_str(),
    };
    let held = if is_disk {
        require_unused_device(rt, &system, DeviceNumber { major: 8, minor: 0 })
    } else {
        let image = File::open(rt, path_in(rt, &folder, "a.img")?.as_str())?;
        hold(rt, &system, &ImageFile::of(image)?, &[])
    };
    fs::remove_dir_all(rt, &folder)?;
    text_of(rt, held)
}

const MOUNTED: &str = "it or a partition of it is mounted";

const SWAP: &str = "it or a partition of it is used as swap";

const BELOW: &str = "another device stands on it or on a partition of it, as of md or dm";

const UNTOLD: &str = "the system does not tell in /sys and /proc who uses it";

const BTRFS: Told = (
    "proc/self/mountinfo",
    "30 1 0:40 / / rw - btrfs /dev/sda1 rw\n",
);

const SWAPS: Told = (
    "proc/swaps",
    "Filename Type Size Used Priority\n/swapfile file 8 0 -2\n/dev/sda1 partition 8 0 -3\n",
);

#[test]
fn tells_what_a_disk_is_used_for(rt: HostRuntime) -> Result<(), Fail> {
    let rows = [
        with("nothing", &[], "free"),
        with("read-only", &[("sys/dev/block/8:0/ro", "1\n")], "read-only"),
        with(
            "a partition is read-only",
            &[("sys/dev/block/8:0/sda1/ro", "1\n")],
            "read-only",
        ),
        with("holders", &[("sys/dev/block/8:0/holders/dm-0", "")], BELOW),
        with(
            "holders of a partition",
            &[("sys/dev/block/8:0/sda1/holders/md0", "")],
            BELOW,
        ),
        with(
            "mounted",
            &[(
                "proc/self/mountinfo",
                "30 1 8:0 / /mnt rw shared:1 - ext4 /dev/sda rw\n",
            )],
            MOUNTED,
        ),
        with(
            "a partition is mounted",
            &[(
                "proc/self/mountinfo",
                "30 1 8:1 / /mnt rw - ext4 /dev/root rw\n",
            )],
            MOUNTED,
        ),
        with(
            "another is mounted, whose path is nothing here",
            &[(
                "proc/self/mountinfo",
                "30 1 8:17 / /mnt rw - ext4 /dev/root rw\n",
            )],
            "free",
        ),
        with(
            "a file system with a number of its own, by the name of its device",
            &[BTRFS, ("sys/class/block/sda1/dev", "8:1\n")],
            MOUNTED,
        ),
        with(
            "such a one on another device",
            &[BTRFS, ("sys/class/block/sda1/dev", "8:17\n")],
            "free",
        ),
        with(
            "such a one, on a device that nothing tells of",
            &[BTRFS],
            UNTOLD,
        ),
        with(
            "swap",
            &[SWAPS, ("sys/class/block/sda1/dev", "8:1\n")],
            SWAP,
        ),
        with("swap on a device that nothing tells of", &[SWAPS], UNTOLD),
        with(
            "a line that is none of a mount",
            &[("proc/self/mountinfo", "30 1\n")],
            UNTOLD,
        ),
        without("sys/dev/block/8:0/ro"),
        without("sys/dev/block/8:0/sda1/dev"),
        without("proc/self/mountinfo"),
        without("proc/swaps"),
    ];
    for row in rows {
        let text = hindrance_on(&rt, row, true)?;
        assert_eq!(rt; text.as_str(), row.text, "{}", row.name);
    }
    Ok(())
}

// The loop device over the image is mounted.
const LOOP: Told = (
    "proc/self/mountinfo",
    "30 1 7:3 / /mnt rw - ext4 /dev/loop3 rw\n",
);

#[test]
fn tells_what_a_loop_device_over_a_file_is_used_for(rt: HostRuntime) -> Result<(), Fail> {
    let rows = [
        with("nothing", &[], "free"),
        with(
            "mounted",
            &[LOOP],
            "a loop device over it (/dev/loop3) is mounted",
        ),
        with(
            "a partition is mounted",
            &[
                ("sys/block/loop3/loop3p1/dev", "259:0\n"),
                ("sys/block/loop3/loop3p1/ro", "0\n"),
                ("sys/block/loop3/loop3p1/partition", "1\n"),
                ("sys/block/loop3/loop3p1/holders/", ""),
                (
                    "proc/self/mountinfo",
                    "30 1 259:0 / /mnt rw - ext4 /dev/loop3p1 rw\n",
                ),
            ],
            "a loop device over it (/dev/loop3) is mounted",
        ),
        with(
            "swap",
            &[SWAPS, ("sys/class/block/sda1/dev", "7:3\n")],
            "a loop device over it (/dev/loop3) is used as swap",
        ),
        with(
            "holders",
            &[("sys/block/loop3/holders/dm-0", "")],
            "another device stands on a loop device over it (/dev/loop3), as of md or dm",
        ),
        with(
            "mounted, and read-only",
            &[LOOP, ("sys/block/loop3/ro", "1\n")],
            "free",
        ),
        with(
            "mounted, over another file",
            &[LOOP, ("sys/block/loop3/loop/backing_file", "/dev/null\n")],
            "free",
        ),
        with(
            "mounted, over a file whose name is gone",
            &[
                LOOP,
                ("sys/block/loop3/loop/backing_file", "IMAGE (deleted)\n"),
            ],
            UNTOLD,
        ),
        with(
            "unused, over a file whose name is gone",
            &[("sys/block/loop3/loop/backing_file", "IMAGE (deleted)\n")],
            "free",
        ),
        without("proc/self/mountinfo"),
        without("proc/swaps"),
        without("proc/locks"),
    ];
    for row in rows {
        let text = hindrance_on(&rt, row, false)?;
        assert_eq!(rt; text.as_str(), row.text, "{}", row.name);
    }
    Ok(())
}

#[test]
fn tells_who_holds_bytes(rt: HostRuntime) -> Result<(), Fail> {
    let id = FileId {
        device: 0xfe00,
        number: 42,
    };
    let folder = folder_for(&rt, "bytes")?;
    let system = System {
        sys: "",
        proc: folder.as_str(),
        dev: "",
    };
    for (line, holds) in [
        ("1: POSIX  ADVISORY  WRITE 7 fe:00:42 0 EOF", true),
        ("1: OFDLCK ADVISORY  READ -1 fe:00:42 201 201", true),
        ("1: FLOCK  ADVISORY  WRITE 7 fe:00:42 0 EOF", false),
        ("1: -> POSIX  ADVISORY  WRITE 7 fe:00:42 0 EOF", false),
        ("1: POSIX  ADVISORY  WRITE 7 fe:00:421 0 EOF", false),
        ("1: POSIX  ADVISORY  WRITE 7 fe:01:42 0 EOF", false),
        ("", false),
    ] {
        let text = format!(in rt.alloc(); "1: FLOCK ADVISORY READ 3 00:01:1 0 EOF\n{line}\n")?;
        fs::write(&rt, path_in(&rt, &folder, "locks")?.as_str(), text.as_str())?;
        let found = has_byte_locks(&rt, &system, id);
        assert!(rt; matches!(found, Ok(it) if it == holds), "{line}");
    }
    fs::remove_dir_all(&rt, &folder)?;
    assert!(rt; has_byte_locks(&rt, &system, id).is_err());
    Ok(())
}
