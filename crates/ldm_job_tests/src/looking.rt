//! What `look` says of the sample group, and that it leaves other jobs alone.
use crate::jobs::{named_images, sample_group, words_in};
use ldm_host::Host;
use ldm_look::look;
use ldm_memory::MemoryHost;
use ldm_run::Status;
use ldm_words::read_words;
use std::alloc::Global;
use std::process::Abort;
use std::test::Fail;

// Looks where the host has just the images that the words name.
fn look_over<H: Host>(alloc: Global, words: &[String], host: &mut H) -> Option<Status> {
    match read_words(alloc, words) {
        Ok((_, count)) => {
            if count == host.disks() {
                Some(look(alloc, words, host))
            } else {
                None
            }
        }
        Err(_) => None,
    }
}

// Compares how a look at a group ends, and all that is said.
fn expect_look(
    alloc: Global,
    rt: &impl Abort,
    group: &[Vec<u8>],
    line: &str,
    (text, status): (&str, Status),
) -> Result<(), Fail> {
    let images = named_images(alloc, group, line)?;
    let mut host = MemoryHost::new(alloc, images, Vec::new(alloc))?;
    let ended = look_over(alloc, &words_in(alloc, line)?, &mut host);
    assert_eq!(rt;
        (ended, host.said()),
        (Some(status), text.as_bytes()),
        "{line}"
    );
    Ok(())
}

const EQUAL: &str = "\
image 0 sequence 7
image 1 sequence 7
image 2 sequence 7
ok: editable
";

// A job, what is said of it, and how it ends.
const ROWS: [(&str, &str, Status); 3] = [
    ("check on A B C", EQUAL, Status::Done),
    (
        "map Nope 0 1 on A B C",
        "refused: no volume\n",
        Status::Refused,
    ),
    ("dump Nope on A B C", "", Status::Usage),
];

#[test]
fn looks_at_a_group(rt: HostRuntime) -> Result<(), Fail> {
    let alloc = rt.alloc();
    let group = sample_group(alloc, 3, 64)?;
    for (line, text, status) in ROWS {
        expect_look(alloc, &rt, &group, line, (text, status))?;
    }
    Ok(())
}
