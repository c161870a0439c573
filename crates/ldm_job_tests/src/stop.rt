//! What a stop at each call of an edit leaves of a group, and edits that begin again where calls
//! failed.
use crate::jobs::{run_over, sample_group, words_in};
use ldm_host::Host;
use ldm_memory::{Filling, MemoryHost};
use ldm_run::Status;
use std::alloc::Global;
use std::process::Abort;
use std::test::Fail;

// A script over the sample group of so many disks with this `last`, what is said to it where no
// call fails, how that ends, and for each number of replies that are whole the groups that may
// open.
struct Script {
    disks: u8,
    last: u32,
    lines: &'static str,
    said: &'static str,
    ends: Status,
    opens: &'static [[usize; 2]],
}

const LINES: Script = Script {
    disks: 3,
    last: 64,
    lines: "\
create Data bbbbbbbb-bbbb-bbbb-bbbb-bbbbbbbbbbbb span Disk1=2048
delete Nope
extend Data Disk2=100",
    said: "1 ok 8\n2 refused: no volume\n3 ok 9\n",
    ends: Status::Refused,
    opens: &[[0, 1], [1, 1], [1, 2], [2, 2]],
};

const BATCH: Script = Script {
    disks: 3,
    last: 64,
    lines: "\
begin
create Data bbbbbbbb-bbbb-bbbb-bbbb-bbbbbbbbbbbb span Disk1=2048
delete Nope
extend Data Disk2=100
commit
commit",
    said: "1 held\n2 held\n3 refused: no volume\n4 held\n5 ok 8\n6 refused: no batch\n",
    ends: Status::Refused,
    opens: &[[0, 0], [0, 0], [0, 0], [0, 0], [0, 3], [3, 3], [3, 3]],
};

// The group has four blocks more after it.
const GROWTH: Script = Script {
    disks: 2,
    last: 8,
    lines: "create Data bbbbbbbb-bbbb-bbbb-bbbb-bbbbbbbbbbbb span Disk1=2048",
    said: "1 ok 8\n",
    ends: Status::Done,
    opens: &[[4, 5], [5, 5]],
};

// What the group is before the first two scripts, after the first line of the first and after its
// last, and after the batch; and before and after the third: as it is shown, and then as it is
// checked once all its copies are equal again.
const GROUPS: [&str; 6] = [
    "\
group Dg0 aaaaaaaa-aaaa-aaaa-aaaa-aaaaaaaaaaaa sequence 7 blocks 4 of 60
disk 2 Disk1 11111111-1111-1111-1111-111111111111 image 0 free 6081
disk 3 Disk2 22222222-2222-2222-2222-222222222222 image 1 free 6081
disk 4 Disk3 33333333-3333-3333-3333-333333333333 image 2 free 6081
image 0 sequence 7
image 1 sequence 7
image 2 sequence 7
ok: editable
",
    "\
group Dg0 aaaaaaaa-aaaa-aaaa-aaaa-aaaaaaaaaaaa sequence 8 blocks 7 of 60
disk 2 Disk1 11111111-1111-1111-1111-111111111111 image 0 free 4033
disk 3 Disk2 22222222-2222-2222-2222-222222222222 image 1 free 6081
disk 4 Disk3 33333333-3333-3333-3333-333333333333 image 2 free 6081
volume 5 Data span 2048 bbbbbbbb-bbbb-bbbb-bbbb-bbbbbbbbbbbb
  component 6 c6 basic
    partition 7 p7 disk 2 start 0 size 2048 offset 0
image 0 sequence 8
image 1 sequence 8
image 2 sequence 8
ok: editable
",
    "\
group Dg0 aaaaaaaa-aaaa-aaaa-aaaa-aaaaaaaaaaaa sequence 9 blocks 8 of 60
disk 2 Disk1 11111111-1111-1111-1111-111111111111 image 0 free 4033
disk 3 Disk2 22222222-2222-2222-2222-222222222222 image 1 free 5981
disk 4 Disk3 33333333-3333-3333-3333-333333333333 image 2 free 6081
volume 5 Data span 2148 bbbbbbbb-bbbb-bbbb-bbbb-bbbbbbbbbbbb
  component 6 c6 basic
    partition 7 p7 disk 2 start 0 size 2048 offset 0
    partition 8 p8 disk 3 start 0 size 100 offset 2048
image 0 sequence 9
image 1 sequence 9
image 2 sequence 9
ok: editable
",
    "\
group Dg0 aaaaaaaa-aaaa-aaaa-aaaa-aaaaaaaaaaaa sequence 8 blocks 8 of 60
disk 2 Disk1 11111111-1111-1111-1111-111111111111 image 0 free 4033
disk 3 Disk2 22222222-2222-2222-2222-222222222222 image 1 free 5981
disk 4 Disk3 33333333-3333-3333-3333-333333333333 image 2 free 6081
volume 5 Data span 2148 bbbbbbbb-bbbb-bbbb-bbbb-bbbbbbbbbbbb
  component 6 c6 basic
    partition 7 p7 disk 2 start 0 size 2048 offset 0
    partition 8 p8 disk 3 start 0 size 100 offset 2048
image 0 sequence 8
image 1 sequence 8
image 2 sequence 8
ok: editable
",
    "\
group Dg0 aaaaaaaa-aaaa-aaaa-aaaa-aaaaaaaaaaaa sequence 7 blocks 3 of 4
disk 2 Disk1 11111111-1111-1111-1111-111111111111 image 0 free 6081
disk 3 Disk2 22222222-2222-2222-2222-222222222222 image 1 free 6081
image 0 sequence 7
image 1 sequence 7
ok: editable
",
    "\
group Dg0 aaaaaaaa-aaaa-aaaa-aaaa-aaaaaaaaaaaa sequence 8 blocks 6 of 8
disk 2 Disk1 11111111-1111-1111-1111-111111111111 image 0 free 4033
disk 3 Disk2 22222222-2222-2222-2222-222222222222 image 1 free 6081
volume 4 Data span 2048 bbbbbbbb-bbbb-bbbb-bbbb-bbbbbbbbbbbb
  component 5 c5 basic
    partition 6 p6 disk 2 start 0 size 2048 offset 0
image 0 sequence 8
image 1 sequence 8
ok: editable
",
];

// Which group this says.
fn group_said(said: &[u8]) -> Option<usize> {
    GROUPS.iter().position(|group| said == group.as_bytes())
}

// Runs a job over all disks of the host, of which there are two or three.
fn run_job(alloc: Global, host: &mut MemoryHost, job: &str) -> Result<Option<Status>, Fail> {
    let letters = if host.disks() == 2 { "A B" } else { "A B C" };
    let words = format!(in alloc; "{job} on {letters}")?;
    Ok(run_over(alloc, &words_in(alloc, &words)?, host))
}

// Which group opens of these images, and stays when an edit of nothing makes all copies equal.
fn opens(alloc: Global, rt: &impl Abort, images: Vec<Vec<u8>>) -> Result<Option<usize>, Fail> {
    let mut host = MemoryHost::new(alloc, images, Vec::new(alloc))?;
    for job in ["show", "edit", "check"] {
        let status = run_job(alloc, &mut host, job)?;
        assert_eq!(rt; status, Some(Status::Done), "{job}");
    }
    Ok(group_said(host.said()))
}

// How many lines have this text in them, of those that are whole.
fn count_lines(said: &[u8], text: &str) -> usize {
    let mut count: usize = 0;
    for line in said.split_inclusive(|byte| *byte == b'\n') {
        if line.ends_with(b"\n") && has_part(line, text.as_bytes()) {
            count = count.saturating_add(1);
        }
    }
    count
}

fn has_part(line: &[u8], part: &[u8]) -> bool {
    line.windows(part.len().max(1)).any(|window| window == part)
}

// A host of the sample group, with the script to be heard.
fn fresh_host(alloc: Global, script: &Script) -> Result<MemoryHost, Fail> {
    let lines = script.lines.as_bytes().to_vec(alloc)?;
    let images = sample_group(alloc, script.disks, script.last)?;
    Ok(MemoryHost::new(alloc, images, lines)?)
}

// Edits the disks of the host by what is left of its input.
fn edit(alloc: Global, host: &mut MemoryHost) -> Result<Option<Status>, Fail> {
    run_job(alloc, host, "edit")
}

// Whether the edit ended as it does where no call fails.
fn is_whole(host: &MemoryHost, script: &Script, status: Option<Status>) -> bool {
    status == Some(script.ends) && host.said() == script.said.as_bytes()
}

fn is_fault(status: Option<Status>) -> bool {
    matches!(status, Some(Status::DiskFault) | Some(Status::TalkFault))
}

// Looks at what an edit leaves that is stopped after so many calls, with this filling, and answers
// whether it was whole.
fn stops(
    alloc: Global,
    rt: &impl Abort,
    script: &Script,
    calls: u64,
    filling: Filling,
) -> Result<bool, Fail> {
    let mut host = fresh_host(alloc, script)?.stop_after(calls);
    let status = edit(alloc, &mut host)?;
    let Some(may_open) = script.opens.get(count_lines(host.said(), "\n")) else {
        return Err(Fail::from("too many replies"));
    };
    let Some(group) = opens(alloc, rt, host.left(alloc, filling)?)? else {
        return Err(Fail::from("another group"));
    };
    assert!(rt; may_open.contains(&group), "{calls}");
    Ok(is_whole(&host, script, status))
}

// Stops the edit after each of its calls.
fn stops_each(
    alloc: Global,
    rt: &impl Abort,
    script: &Script,
    filling: Filling,
) -> Result<(), Fail> {
    for calls in 0..1000 {
        if stops(alloc, rt, script, calls, filling)? {
            return Ok(());
        }
    }
    Err(Fail::from("no edit was whole"))
}

#[test]
fn opens_after_a_stop_where_old_bytes_are_left(rt: HostRuntime) -> Result<(), Fail> {
    stops_each(rt.alloc(), &rt, &LINES, Filling::Old)
}

#[test]
fn opens_after_a_stop_where_new_bytes_are_left(rt: HostRuntime) -> Result<(), Fail> {
    stops_each(rt.alloc(), &rt, &LINES, Filling::New)
}

#[test]
fn opens_after_a_stop_where_open_gates_are_left(rt: HostRuntime) -> Result<(), Fail> {
    stops_each(rt.alloc(), &rt, &LINES, Filling::Fill(0x56))
}

#[test]
fn opens_after_a_stop_where_zeros_are_left(rt: HostRuntime) -> Result<(), Fail> {
    stops_each(rt.alloc(), &rt, &LINES, Filling::Fill(0x00))
}

const FILLINGS: [Filling; 4] = [
    Filling::Old,
    Filling::New,
    Filling::Fill(0x56),
    Filling::Fill(0x00),
];

#[test]
fn opens_after_a_stop_of_a_batch(rt: HostRuntime) -> Result<(), Fail> {
    for filling in FILLINGS {
        stops_each(rt.alloc(), &rt, &BATCH, filling)?;
    }
    Ok(())
}

#[test]
fn opens_after_a_stop_while_the_group_grows(rt: HostRuntime) -> Result<(), Fail> {
    for filling in FILLINGS {
        stops_each(rt.alloc(), &rt, &GROWTH, filling)?;
    }
    Ok(())
}

// Edits a second time on the host of an edit in which a call failed, by what is left of the script.
// Then all copies are open with one group, not before the last line that was answered with ok.
fn edits_again(alloc: Global, rt: &impl Abort, host: MemoryHost, call: u64) -> Result<(), Fail> {
    let mut host = host;
    let unheard = call == 1;
    let status = edit(alloc, &mut host)?;
    let whole = if unheard {
        Status::Refused
    } else {
        Status::Done
    };
    assert_eq!(rt; status, Some(whole), "{call}");
    let answered = count_lines(host.said(), " ok ");
    let Some(group) = opens(alloc, rt, host.left(alloc, Filling::Fill(0x00))?)? else {
        return Err(Fail::from("another group"));
    };
    assert!(rt; answered <= group, "{call}");
    let said = host.said().len();
    for job in ["show", "check"] {
        let status = run_job(alloc, &mut host, job)?;
        assert_eq!(rt; status, Some(Status::Done), "{call}: {job}");
    }
    assert_eq!(rt;
        group_said(host.said().get(said..).unwrap_or_default()),
        Some(group),
        "{call}"
    );
    Ok(())
}

// One call of an edit fails; answers whether the edit didn't come so far.
fn fails_at(alloc: Global, rt: &impl Abort, call: u64) -> Result<bool, Fail> {
    let mut host = fresh_host(alloc, &LINES)?.with_failures(vec![in alloc; call]?);
    let status = edit(alloc, &mut host)?;
    if is_whole(&host, &LINES, status) {
        return Ok(true);
    }
    assert!(rt; is_fault(status), "{call}");
    edits_again(alloc, rt, host, call)?;
    Ok(false)
}

#[test]
fn edits_again_after_a_call_that_failed(rt: HostRuntime) -> Result<(), Fail> {
    for call in 1..1000 {
        if fails_at(rt.alloc(), &rt, call)? {
            return Ok(());
        }
    }
    Err(Fail::from("no edit was whole"))
}

// What a stop leaves of the host with this filling opens, not before the last line that was
// answered with ok.
fn opens_answered(
    alloc: Global,
    rt: &impl Abort,
    host: &MemoryHost,
    filling: Filling,
    call: u64,
) -> Result<(), Fail> {
    let answered = count_lines(host.said(), " ok ");
    let Some(group) = opens(alloc, rt, host.left(alloc, filling)?)? else {
        return Err(Fail::from("another group"));
    };
    assert!(rt; answered <= group, "{call}");
    Ok(())
}

// Four calls in a row fail, and the edit is begun again until no call fails in it. Answers whether
// the first didn't come so far.
fn fails_from(alloc: Global, rt: &impl Abort, call: u64, filling: Filling) -> Result<bool, Fail> {
    let mut calls = Vec::new(alloc);
    for more in 0..4u64 {
        calls.push(call.saturating_add(more))?;
    }
    let mut host = fresh_host(alloc, &LINES)?.with_failures(calls);
    for run in 0..5 {
        let status = edit(alloc, &mut host)?;
        opens_answered(alloc, rt, &host, filling, call)?;
        if !is_fault(status) {
            return Ok(run == 0);
        }
    }
    Err(Fail::from("more than five edits"))
}

// Lets the calls fail from each call of the edit on.
fn fails_from_each(alloc: Global, rt: &impl Abort, filling: Filling) -> Result<(), Fail> {
    for call in 1..1000 {
        if fails_from(alloc, rt, call, filling)? {
            return Ok(());
        }
    }
    Err(Fail::from("no edit was whole"))
}

#[test]
fn edits_again_after_four_failures_where_old_bytes_are_left(rt: HostRuntime) -> Result<(), Fail> {
    fails_from_each(rt.alloc(), &rt, Filling::Old)
}

#[test]
fn edits_again_after_four_failures_where_new_bytes_are_left(rt: HostRuntime) -> Result<(), Fail> {
    fails_from_each(rt.alloc(), &rt, Filling::New)
}

#[test]
fn edits_again_after_four_failures_where_open_gates_are_left(rt: HostRuntime) -> Result<(), Fail> {
    fails_from_each(rt.alloc(), &rt, Filling::Fill(0x56))
}

#[test]
fn edits_again_after_four_failures_where_zeros_are_left(rt: HostRuntime) -> Result<(), Fail> {
    fails_from_each(rt.alloc(), &rt, Filling::Fill(0x00))
}
