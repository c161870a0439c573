//! How many blocks differ in a body that takes the place of another.
ghost use Rattle.std.specs.Prelude.{IfOk};
ghost use Rattle.ldm_group.specs.Room.{FitsHeader};

use crate::jobs::{run_over, sample_group, words_in};
use ldm_body::body_of;
use ldm_changed::next_body;
use ldm_copy::{CopyState, read_copy};
use ldm_group::Db;
use ldm_host::Host;
use ldm_label::read_label;
use ldm_memory::MemoryHost;
use ldm_run::Status;
use std::alloc::Global;
use std::test::Fail;

// The database of the copy on the first disk.
fn copy_on(alloc: Global, host: &mut MemoryHost) -> Result<Db, Fail>
    ensures { IfOk result FitsHeader }
{
    if host.disks() == 0 {
        return Err(Fail::from("no disk"));
    }
    let Ok(label) = read_label(host, 0) else {
        return Err(Fail::from("no label"));
    };
    match read_copy(alloc, host, 0, &label) {
        Ok(CopyState::Valid(db)) => Ok(db),
        _ => Err(Fail::from("no open copy")),
    }
}

// The databases of the sample group with this `last` before and after a command.
fn edited(alloc: Global, last: u32, words: &str) -> Result<(Db, Db), Fail>
    ensures older { IfOk result (λ both. FitsHeader both.0) }
    ensures newer { IfOk result (λ both. FitsHeader both.1) }
{
    let images = sample_group(alloc, 2, last)?;
    let mut host = MemoryHost::new(alloc, images, Vec::new(alloc))?;
    let older = copy_on(alloc, &mut host)?;
    if run_over(alloc, &words_in(alloc, words)?, &mut host) != Some(Status::Done) {
        return Err(Fail::from("no edit"));
    }
    Ok((older, copy_on(alloc, &mut host)?))
}

// How many blocks differ in the body of the group after a command, and of how many bytes it is.
fn differing(alloc: Global, last: u32, words: &str) -> Result<(usize, usize), Fail> {
    let (older, newer) = edited(alloc, last, words)?;
    let before = older.header().last;
    let after = newer.header().last;
    if before < 4 || after < before || after > 8192 {
        return Err(Fail::from("no room"));
    }
    let body = body_of(alloc, &older)?;
    let change = next_body(alloc, &body, &older, &newer)?;
    let blocks = change.blocks();
    let next = change.into_body();
    Ok((blocks, next.as_slice().len()))
}

// The records of a volume, its component and two partitions.
#[test]
fn counts_the_blocks_of_new_records(rt: HostRuntime) -> Result<(), Fail> {
    let words = "create Data bbbbbbbb-bbbb-bbbb-bbbb-bbbbbbbbbbbb span Disk1=2048 Disk1=10 on A B";
    assert_eq!(rt; differing(rt.alloc(), 64, words)?, (4, 8192));
    Ok(())
}

// Three records in blocks that were unused or are new, and the block that is new and unused.
#[test]
fn counts_the_blocks_that_are_more(rt: HostRuntime) -> Result<(), Fail> {
    let words = "create Data bbbbbbbb-bbbb-bbbb-bbbb-bbbbbbbbbbbb span Disk1=2048 on A B";
    assert_eq!(rt; differing(rt.alloc(), 8, words)?, (5, 1536));
    Ok(())
}
