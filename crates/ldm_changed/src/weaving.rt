//! The blocks of kept and made records, in the order of the records.
ghost use Rattle.std.specs.Prelude.{◌≡◌, ◌<◌, ◌++◌, length, filter, IsPermutation, IfOk};
ghost use Rattle.ldm_changed.specs.Plan.{has_record, lacks, Weaves, one_of};
ghost use Rattle.ldm_body.specs.Body.{stored_at};

use crate::planning::has;
use ldm_bytes::NoMemory;
use ldm_group::Db;
use ldm_records::Record;
use ldm_written::Slots;
use std::alloc::Global;

// Adds the next slots of the one list or the other, and answers how many of each were taken.
fn weave_one(
    alloc: Global,
    there: bool,
    kept: &[Slots],
    made: &[Slots],
    taken: (usize, usize),
    table: &mut Vec<Slots>,
) -> Result<(usize, usize), NoMemory>
    requires within { one_of there taken < length (one_of there (kept.now, made.now)) }
    ensures { IfOk result (λ next. Weaves there kept.now made.now taken next table.old.items
        table.new.items) }
{
    if there {
        table.push(kept[taken.0].clone_in(alloc)?)?;
        return Ok((taken.0 + 1, taken.1));
    }
    table.push(made[taken.1].clone_in(alloc)?)?;
    Ok((taken.0, taken.1 + 1))
}

// The slots of all records in their order, from those of the records that the old database has, and
// those of the others.
pub fn weave(
    alloc: Global,
    records: &[Record],
    old: &Db,
    kept: &[Slots],
    made: &[Slots],
) -> Result<Vec<Slots>, NoMemory>
    requires kept { length kept.now ≡ length (filter (has_record old.now.records) records.now) }
    requires made { length made.now ≡ length (filter (lacks old.now.records) records.now) }
    ensures one_each { IfOk result (λ table. length table.items ≡ length records.now) }
    ensures same { IfOk result (λ table. IsPermutation (stored_at records.now table.items)
        (stored_at (filter (lacks old.now.records) records.now) made.now
        ++ stored_at (filter (has_record old.now.records) records.now) kept.now)) }
{
    let mut table = Vec::new(alloc);
    let mut taken = (0, 0);
    for j in 0..records.len() {
        let there = has(old, &records[j]);
        taken = weave_one(alloc, there, kept, made, taken, &mut table)?;
    }
    Ok(table)
}
