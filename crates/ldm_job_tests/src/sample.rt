//! The job `sample`: a script that is drawn from a seed, done to a group in memory.
use crate::jobs::expect;
use ldm_run::{Status, sample_host};
use ldm_vectors::sample_script;
use std::alloc::Global;
use std::process::Abort;
use std::test::Fail;

// Words, and the summary.
const SAMPLES: [(&str, &str); 2] = [
    (
        "sample 0",
        "sample 0 ok 145 refused 55 sequence 152 blocks 385 of 508\n",
    ),
    (
        "sample 18446744073709551615",
        "sample 18446744073709551615 ok 140 refused 60 sequence 147 blocks 319 of 508\n",
    ),
];

fn expect_sample(alloc: Global, rt: &impl Abort, words: &str, text: &str) -> Result<(), Fail> {
    let images = Vec::new(alloc);
    expect(alloc, rt, words, images, b"", (text, Status::Done))
}

// Each run of a seed says the same.
#[test]
fn says_the_summary_of_a_seed(rt: HostRuntime) -> Result<(), Fail> {
    for (words, text) in SAMPLES {
        expect_sample(rt.alloc(), &rt, words, text)?;
        expect_sample(rt.alloc(), &rt, words, text)?;
    }
    Ok(())
}

#[test]
fn deletes_the_first_volume_first(rt: HostRuntime) -> Result<(), Fail> {
    let script = sample_script(rt.alloc(), 0)?;
    assert!(rt; script.as_slice().starts_with(b"delete V1\n"));
    Ok(())
}

// The first line is refused, since no volume is there yet.
#[test]
fn replies_to_each_line_of_the_sample(rt: HostRuntime) -> Result<(), Fail> {
    let host = sample_host(rt.alloc(), 0)?;
    assert!(rt; host.said().starts_with(b"1 refused: no volume\n"));
    let lines = host.said().iter().filter(|byte| **byte == b'\n').count();
    assert!(rt; host.dry() == 0 && lines == 200);
    Ok(())
}
