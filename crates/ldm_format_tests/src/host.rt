//! Hosts in memory: what is handed to them, and which of their calls fail.
use crate::made::check;
use ldm_host::{Failed, Host};
use ldm_memory::MemoryHost;
use std::alloc::Global;
use std::process::Abort;

// Zeros in two sectors, and in one and a byte.
fn images(rt: &impl Abort, alloc: Global) -> Vec<Vec<u8>> {
    let two = vec![in alloc; 0; 1024].expect(rt, "memory");
    let one = vec![in alloc; 0; 513].expect(rt, "memory");
    vec![in alloc; two, one].expect(rt, "memory")
}

fn host(rt: &impl Abort, alloc: Global) -> MemoryHost {
    let images = images(rt, alloc);
    let script = b"abc".to_vec(alloc).expect(rt, "memory");
    MemoryHost::new(alloc, images, script).expect(rt, "memory")
}

// Calls with these numbers fail.
fn failing_host(rt: &impl Abort, alloc: Global, calls: &[u64]) -> MemoryHost {
    let calls = Vec::from_slice(alloc, calls).expect(rt, "memory");
    host(rt, alloc).with_failures(calls)
}

// Whether the host has those two disks.
fn has_disks(host: &MemoryHost) -> bool {
    host.disks() == 2 && host.sectors(0) == 2 && host.sectors(1) == 1
}

type Answer = Result<(), Failed>;

// Whether a disk has so many bytes from a place on, and a write of these is answered so.
fn writes(host: &mut MemoryHost, disk: usize, at: u64, bytes: &[u8], want: Answer) -> bool {
    disk < host.disks()
        && host.sectors(disk) != 0
        && at <= 256
        && bytes.len() <= 256
        && host.write_at(disk, at, bytes) == want
}

// Whether a read is answered so, and without a failure gives these bytes.
fn reads(host: &mut MemoryHost, disk: usize, at: u64, bytes: &[u8], want: Answer) -> bool {
    let mut four = [9; 4];
    disk < host.disks()
        && host.sectors(disk) != 0
        && at <= 256
        && host.read_at(disk, at, &mut four) == want
        && (want.is_err() || four.as_slice() == bytes)
}

fn syncs(host: &mut MemoryHost, disk: usize, want: Answer) -> bool {
    disk < host.disks() && host.sync(disk) == want
}

// Whether the host hears these bytes, and leaves the last of four.
fn hears(host: &mut MemoryHost, bytes: &[u8]) -> bool {
    let mut four = [0; 4];
    host.hear(&mut four) == Ok(bytes.len()) && four.starts_with(bytes) && four[3] == 0
}

// Whether so many bytes were handed to a disk, and no call found no memory.
fn was_handed(host: &MemoryHost, disk: usize, bytes: u64) -> bool {
    disk < host.disks() && host.handed(disk) == bytes && host.dry() == 0
}

fn begins(host: &MemoryHost, disk: usize, bytes: &[u8]) -> bool {
    disk < host.disks() && host.image(disk).starts_with(bytes)
}

// A call, or a look at what the calls before did.
#[derive(Clone, Copy)]
enum Step {
    Write,
    Read,
    Sync,
    Hear,
    Say,
    Said,
    Handed,
    Image,
    Disks,
}

// A step, its disk, the place or the number of bytes, its bytes, and the answer.
type Row = (Step, usize, u64, &'static str, Answer);

fn holds(host: &mut MemoryHost, row: &Row) -> bool {
    let (step, disk, at, text, want) = *row;
    match step {
        Step::Write => writes(host, disk, at, text.as_bytes(), want),
        Step::Read => reads(host, disk, at, text.as_bytes(), want),
        Step::Sync => syncs(host, disk, want),
        Step::Hear => hears(host, text.as_bytes()),
        Step::Say => host.say(text.as_bytes()) == want,
        Step::Said => host.said() == text.as_bytes(),
        Step::Handed => was_handed(host, disk, at),
        Step::Image => begins(host, disk, text.as_bytes()),
        Step::Disks => has_disks(host),
    }
}

fn check_rows(rt: &impl Abort, host: MemoryHost, rows: &[Row]) {
    let mut host = host;
    for (place, row) in rows.iter().enumerate() {
        check(rt, holds(&mut host, row), place);
    }
}

const DISK_CALLS: [Row; 6] = [
    (Step::Disks, 0, 0, "", Ok(())),
    (Step::Write, 0, 100, "\x01\x02\x03", Ok(())),
    (Step::Read, 0, 101, "\x02\x03\0\0", Ok(())),
    (Step::Sync, 0, 0, "", Ok(())),
    (Step::Handed, 0, 3, "", Ok(())),
    (Step::Handed, 1, 0, "", Ok(())),
];

#[test]
fn disk_calls(rt: HostRuntime) {
    check_rows(&rt, host(&rt, rt.alloc()), &DISK_CALLS);
}

const TALK_CALLS: [Row; 4] = [
    (Step::Hear, 0, 0, "abc", Ok(())),
    (Step::Hear, 0, 0, "", Ok(())),
    (Step::Say, 0, 0, "hello", Ok(())),
    (Step::Said, 0, 0, "hello", Ok(())),
];

#[test]
fn talk_calls(rt: HostRuntime) {
    check_rows(&rt, host(&rt, rt.alloc()), &TALK_CALLS);
}

// The first and the third call fail. A chosen call takes half of its bytes.
const CHOSEN_DISK_CALLS: [Row; 5] = [
    (Step::Disks, 0, 0, "", Ok(())),
    (Step::Write, 0, 0, "\x01\x02\x03\x04\x05", Err(Failed)),
    (Step::Read, 0, 0, "\x01\x02\0\0", Ok(())),
    (Step::Read, 0, 0, "", Err(Failed)),
    (Step::Handed, 0, 5, "", Ok(())),
];

#[test]
fn chosen_disk_calls_fail(rt: HostRuntime) {
    let host = failing_host(&rt, rt.alloc(), &[1, 3]);
    check_rows(&rt, host, &CHOSEN_DISK_CALLS);
}

const CHOSEN_TALK_CALLS: [Row; 3] = [
    (Step::Say, 0, 0, "hello", Err(Failed)),
    (Step::Say, 0, 0, "!", Ok(())),
    (Step::Said, 0, 0, "he!", Ok(())),
];

#[test]
fn chosen_talk_calls_fail(rt: HostRuntime) {
    let host = failing_host(&rt, rt.alloc(), &[1]);
    check_rows(&rt, host, &CHOSEN_TALK_CALLS);
}

const STOPPED_CALLS: [Row; 7] = [
    (Step::Disks, 0, 0, "", Ok(())),
    (Step::Write, 1, 0, "\x01\x02", Ok(())),
    (Step::Write, 1, 0, "\x03\x04", Err(Failed)),
    (Step::Sync, 1, 0, "", Err(Failed)),
    (Step::Say, 0, 0, "hello", Err(Failed)),
    (Step::Said, 0, 0, "", Ok(())),
    (Step::Image, 1, 0, "\x01\x02\0", Ok(())),
];

#[test]
fn stops_after_a_call(rt: HostRuntime) {
    let host = host(&rt, rt.alloc()).stop_after(1);
    check_rows(&rt, host, &STOPPED_CALLS);
}
