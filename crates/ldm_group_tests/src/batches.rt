//! What lines come to where a batch is open.
ghost use Rattle.std.specs.Prelude.{IfOk, option_copied};
ghost use Rattle.std.specs.Option.{ForSome};
ghost use Rattle.ldm_rules.specs.Facts.{IsSoundOn};
ghost use Rattle.ldm_edits.specs.Changes.{AreasFit};
ghost use Rattle.ldm_edits.specs.Steps.{IsDraftOf, VerdictKeeps};

use crate::steps::{Numbers, all_numbers, group_of, line_of};
use ldm_edits::{Draft, Turn, turn};
use ldm_group::Db;
use ldm_label::Labels;
use ldm_lines::read_line;
use std::alloc::Global;
use std::test::Fail;

// What a line comes to.
fn turned(
    alloc: Global,
    db: &Db,
    batch: Option<&Draft>,
    labels: &Labels,
    line: &str,
) -> Result<Turn, Fail>
    requires sound { IsSoundOn db.now labels.now }
    requires areas { AreasFit labels.now }
    requires batch { ForSome (option_copied batch) (IsDraftOf labels.now db.now) }
    ensures { IfOk result (VerdictKeeps labels.now db.now) }
{
    let Ok(command) = read_line(alloc, line_of(alloc, line)?.as_bytes()) else {
        return Err(Fail::from("no command"));
    };
    Ok(turn(alloc, db, batch, labels, &command)?)
}

// The batch after a line that it holds.
fn held(
    alloc: Global,
    db: &Db,
    batch: Option<&Draft>,
    labels: &Labels,
    line: &str,
) -> Result<Draft, Fail>
    requires sound { IsSoundOn db.now labels.now }
    requires areas { AreasFit labels.now }
    requires batch { ForSome (option_copied batch) (IsDraftOf labels.now db.now) }
    ensures { IfOk result (IsDraftOf labels.now db.now) }
{
    match turned(alloc, db, batch, labels, line)? {
        Turn::Hold(draft) => Ok(draft),
        _ => Err(Fail::from("not held")),
    }
}

// Whether a batch has held a command or not, and its group has these numbers and the sequence of
// the group before.
fn holds(alloc: Global, batch: &Draft, filled: bool, numbers: &[Numbers]) -> Result<bool, Fail> {
    let db = batch.db(alloc)?;
    let all = all_numbers(alloc, &db)?;
    Ok(batch.filled() == filled && db.header().seq == 7 && all.as_slice() == numbers)
}

// A volume of 10 sectors, its component and its partition.
const CREATED: [Numbers; 3] = [
    [5, 1, 10, 0, 0, 0, 0],
    [6, 5, 2, 1, 0, 0, 0],
    [7, 6, 2, 0, 10, 0, 0],
];

// The volume has 15 sectors, and one partition more.
const EXTENDED: [Numbers; 4] = [
    [5, 1, 15, 0, 0, 0, 0],
    [6, 5, 2, 2, 0, 0, 0],
    [7, 6, 2, 0, 10, 0, 0],
    [8, 6, 3, 0, 5, 10, 0],
];

#[test]
fn holds_each_change(rt: HostRuntime) -> Result<(), Fail> {
    let alloc = rt.alloc();
    let found = group_of(alloc, 3, "0.64", "")?;
    let (db, labels) = (&found.db, &found.labels);
    let begun = held(alloc, db, None, labels, "begin")?;
    assert!(rt; holds(alloc, &begun, false, &[])?);
    let line = "create Data * span Disk1=10";
    let created = held(alloc, db, Some(&begun), labels, line)?;
    assert!(rt; holds(alloc, &created, true, &CREATED)?);
    let extended = held(alloc, db, Some(&created), labels, "extend Data Disk2=5")?;
    assert!(rt; holds(alloc, &extended, true, &EXTENDED)?);
    let deleted = held(alloc, db, Some(&extended), labels, "delete Data")?;
    assert!(rt; holds(alloc, &deleted, true, &[])?);
    let Turn::Next(next) = turned(alloc, db, Some(&extended), labels, "commit")? else {
        return Err(Fail::from("no next group"));
    };
    assert!(rt; next.header().seq == 8);
    assert!(rt; all_numbers(alloc, &next)?.as_slice() == EXTENDED.as_slice());
    Ok(())
}
