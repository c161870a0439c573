//! Repairs: what they say of the sample group, copies of which are damaged, and what a stop at each
//! call leaves.
use crate::edit::play;
use crate::group::change_images;
use crate::jobs::{run_any, sample_group, words_in};
use ldm_memory::{Filling, MemoryHost};
use ldm_run::Status;
use std::alloc::Global;
use std::process::Abort;
use std::test::Fail;

// A copy has a block that is none. It is made anew; then nothing is to be done.
const COPY: &str = "\
$ create Data bbbbbbbb-bbbb-bbbb-bbbb-bbbbbbbbbbbb span Disk1=2048 Disk2=10 on A B C
1 ok 8
= 0 ABC
! 1.copy+200=57
$ check on A B C
refused: image 1: block 4: no VBLK
= 1
$ repair on A B
refused: disk 4 is absent
= 1
$ repair x on A B C
= 2
$ repair on A B C
ok 8 repaired 1
= 0 B
$ check on A B C
image 0 sequence 8
image 1 sequence 8
image 2 sequence 8
ok: editable
= 0
$ map Data 2048 1 on A B C
2048 copy 0 Disk2 0 at 63
= 0
$ repair on C B A
ok 8 repaired 0
= 0";

// Of two copies one is damaged in its header and one is closed.
const COPIES: &str = "\
! 0.copy+11=02
! 2.copy+0=00
$ repair on A B C
ok 7 repaired 1
= 0 AC
$ check on A B C
image 0 sequence 7
image 1 sequence 7
image 2 sequence 7
ok: editable
= 0";

// A label is damaged too, and then no copy is left.
const REFUSED: &str = "\
! 1.copy+200=57
! 2.zero+0=
$ repair on A B C
refused: image 2: no signature
= 1
$ repair on A B
refused: disk 4 is absent
= 1
! 0.copy+200=57
$ repair on A B
refused: no open copy
= 1";

#[test]
fn makes_copies_anew(rt: HostRuntime) -> Result<(), Fail> {
    for text in [COPY, COPIES, REFUSED] {
        play(rt.alloc(), &rt, 3, 64, text)?;
    }
    Ok(())
}

const SHOWN: &str = "\
group Dg0 aaaaaaaa-aaaa-aaaa-aaaa-aaaaaaaaaaaa sequence 7 blocks 4 of 60
disk 2 Disk1 11111111-1111-1111-1111-111111111111 image 0 free 6081
disk 3 Disk2 22222222-2222-2222-2222-222222222222 image 1 free 6081
disk 4 Disk3 33333333-3333-3333-3333-333333333333 image 2 free 6081
";

const CHECKED: &str = "\
image 0 sequence 7
image 1 sequence 7
image 2 sequence 7
ok: editable
";

// The sample group, of which the first copy is damaged and the last is closed.
fn damaged_host(alloc: Global) -> Result<MemoryHost, Fail> {
    let mut images = sample_group(alloc, 3, 64)?;
    change_images(alloc, images.as_mut_slice(), "0.copy+200=57")?;
    change_images(alloc, images.as_mut_slice(), "2.copy+0=00")?;
    Ok(MemoryHost::new(alloc, images, Vec::new(alloc))?)
}

// Runs a job over all three images.
fn run_job(alloc: Global, host: MemoryHost, job: &str) -> Result<(MemoryHost, Status), Fail> {
    let words = format!(in alloc; "{job} on A B C")?;
    match run_any(alloc, &words_in(alloc, &words)?, host) {
        Some(ran) => Ok(ran),
        None => Err(Fail::from("no run")),
    }
}

// A job over these images is done, and says this.
fn says(
    alloc: Global,
    rt: &impl Abort,
    images: Vec<Vec<u8>>,
    job: &str,
    text: &str,
) -> Result<MemoryHost, Fail> {
    let host = MemoryHost::new(alloc, images, Vec::new(alloc))?;
    let (host, status) = run_job(alloc, host, job)?;
    assert_eq!(rt;
        (status, host.said()),
        (Status::Done, text.as_bytes()),
        "{job}"
    );
    Ok(host)
}

// What a repair leaves that is stopped after so many calls, with this filling, is the group past
// damage, and the group where something was said; and a repair of that ends. Answers whether it was
// whole.
fn stops(alloc: Global, rt: &impl Abort, calls: u64, filling: Filling) -> Result<bool, Fail> {
    let host = damaged_host(alloc)?.stop_after(calls);
    let (host, status) = run_job(alloc, host, "repair")?;
    let left = host.left(alloc, filling)?;
    let host_shown = says(alloc, rt, left, "show --past-damage", SHOWN)?;
    if !host.said().is_empty() {
        says(alloc, rt, host_shown.left(alloc, filling)?, "show", SHOWN)?;
    }
    let (again, ended) = run_job(alloc, host_shown, "repair")?;
    assert_eq!(rt; ended, Status::Done, "{calls}");
    says(alloc, rt, again.left(alloc, filling)?, "check", CHECKED)?;
    Ok(status == Status::Done && host.said() == b"ok 7 repaired 1\n".as_slice())
}

// Stops a repair after each of its calls.
fn stops_each(alloc: Global, rt: &impl Abort, filling: Filling) -> Result<(), Fail> {
    for calls in 0..1000 {
        if stops(alloc, rt, calls, filling)? {
            return Ok(());
        }
    }
    Err(Fail::from("no repair was whole"))
}

#[test]
fn reads_past_damage_after_a_stop(rt: HostRuntime) -> Result<(), Fail> {
    let fillings = [
        Filling::Old,
        Filling::New,
        Filling::Fill(0x56),
        Filling::Fill(0x00),
    ];
    for filling in fillings {
        stops_each(rt.alloc(), &rt, filling)?;
    }
    Ok(())
}
