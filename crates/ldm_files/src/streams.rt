//! The standard streams that the program was started without.
use std::fs::File;
use std::io;
use std::os::fd::{AsRawFd, IntoRawFd, RawFd};

/// The descriptors below this are those of standard input, output and error.
pub const STREAMS: RawFd = 3;

// The descriptor of standard input.
const INPUT: RawFd = 0;

const NULL: &str = "/dev/null";

// Takes the descriptor of standard input, where it is closed. On any other the device is closed
// again.
fn take_closed_input(rt: &HostRuntime) -> io::Result<()> {
    let null = File::options().write(true).open(rt, NULL)?;
    if null.as_raw_fd() == INPUT {
        let _ = null.into_raw_fd();
    }
    Ok(())
}

/// Takes the descriptors of the standard streams that are closed, for as long as the program runs,
/// so that no image gets one. They are on the null device: standard input is open for writing
/// alone, and the others for reading alone, so to hear or to say something fails.
///
/// It rests on the system, which opens a file on the least descriptor that is free.
pub fn take_closed_streams(rt: &HostRuntime) -> io::Result<()> {
    take_closed_input(rt)?;
    for _ in 0..STREAMS {
        let null = File::open(rt, NULL)?;
        if null.as_raw_fd() >= STREAMS {
            break;
        }
        // The descriptor stays open, as nothing owns it any more.
        let _ = null.into_raw_fd();
    }
    Ok(())
}
