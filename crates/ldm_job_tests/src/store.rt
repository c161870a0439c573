//! A group that is edited over disks in memory: its database, and the batch that is open.
ghost use Rattle.std.specs.Prelude.{IfOk};
ghost use Rattle.ldm_memory.specs.Memory.{memory_seen};
ghost use Rattle.ldm_store.specs.Sessions.{RestsOn, HoldsSession};

use crate::jobs::sample_group;
use ldm_host::Host;
use ldm_lines::read_line;
use ldm_memory::MemoryHost;
use ldm_store::{Session, settle};
use std::alloc::Global;
use std::process::Abort;
use std::test::Fail;

// The session of the group that the disks hold.
fn settled(alloc: Global, host: &mut MemoryHost) -> Result<Session, Fail>
    ensures rests { IfOk result (λ session. RestsOn session.group (memory_seen host.new)) }
    ensures holds { IfOk result (λ session. HoldsSession session (memory_seen host.new).content) }
{
    if host.disks() == 0 {
        return Err(Fail::from("no disk"));
    }
    match settle(alloc, host) {
        Ok(session) => Ok(session),
        Err(_) => Err(Fail::from("no group")),
    }
}

// The session after a line.
fn after(
    alloc: Global,
    host: &mut MemoryHost,
    session: Session,
    line: &str,
) -> Result<Session, Fail>
    requires rests { RestsOn session.group (memory_seen host.old) }
    requires holds { HoldsSession session (memory_seen host.old).content }
    ensures rests { IfOk result (λ session. RestsOn session.group (memory_seen host.new)) }
    ensures holds { IfOk result (λ session. HoldsSession session (memory_seen host.new).content) }
{
    let Ok(command) = read_line(alloc, line.as_bytes()) else {
        return Err(Fail::from("no command"));
    };
    match session.apply(alloc, host, &command) {
        Ok((session, _)) => Ok(session),
        Err(_) => Err(Fail::from("no answer")),
    }
}

// The sequence of a group, how many records it has, and of a batch that is open whether it has held
// a command, and how many records the group has with what it holds.
type Seen = (u64, usize, Option<(bool, usize)>);

fn seen(alloc: Global, session: &Session) -> Result<Seen, Fail> {
    let db = session.db();
    let batch = match session.draft() {
        Some(draft) => Some((draft.filled(), draft.db(alloc)?.count())),
        None => None,
    };
    Ok((db.header().seq, db.count(), batch))
}

// Does a line, and compares what is seen after it.
fn step(
    alloc: Global,
    rt: &impl Abort,
    host: &mut MemoryHost,
    session: Session,
    row: (&str, Seen),
) -> Result<Session, Fail>
    requires rests { RestsOn session.group (memory_seen host.old) }
    requires holds { HoldsSession session (memory_seen host.old).content }
    ensures rests { IfOk result (λ session. RestsOn session.group (memory_seen host.new)) }
    ensures holds { IfOk result (λ session. HoldsSession session (memory_seen host.new).content) }
{
    let (line, want) = row;
    let session = after(alloc, host, session, line)?;
    assert_eq!(rt; seen(alloc, &session)?, want, "{line}");
    Ok(session)
}

const CREATE: &str = "create Data bbbbbbbb-bbbb-bbbb-bbbb-bbbbbbbbbbbb span Disk1=10";

#[test]
fn has_the_group_and_the_batch(rt: HostRuntime) -> Result<(), Fail> {
    let alloc = rt.alloc();
    let mut host = MemoryHost::new(alloc, sample_group(alloc, 3, 64)?, Vec::new(alloc))?;
    let session = settled(alloc, &mut host)?;
    assert_eq!(rt; seen(alloc, &session)?, (7, 4, None));
    let begun = ("begin", (7, 4, Some((false, 4))));
    let session = step(alloc, &rt, &mut host, session, begun)?;
    let held = (CREATE, (7, 4, Some((true, 7))));
    let session = step(alloc, &rt, &mut host, session, held)?;
    let refused = ("delete Nope", (7, 4, Some((true, 7))));
    let session = step(alloc, &rt, &mut host, session, refused)?;
    let done = ("commit", (8, 7, None));
    let session = step(alloc, &rt, &mut host, session, done)?;
    step(
        alloc,
        &rt,
        &mut host,
        session,
        ("delete Data", (9, 4, None)),
    )?;
    Ok(())
}
