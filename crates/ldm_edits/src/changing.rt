//! The next group of a command: the records that stay and those that are made, behind one header.
ghost use Rattle.std.specs.Prelude.{◌≡◌, ◌≢◌, ◌++◌, ◌-◌, ◌^◌, All, IfOk};
ghost use Rattle.ldm_group.specs.Order.{Rising, in_order};
ghost use Rattle.ldm_group.specs.Room.{IsFitting, last_for};
ghost use Rattle.ldm_edits.specs.Answers.{StepsTo};
ghost use Rattle.ldm_edits.specs.Changes.{need_in, AreasFit, changed, change_to};
ghost use Rattle.ldm_edits.specs.Staying.{staying, change_of};

use crate::error::StepError;
use crate::leaving::{Leaving, stay};
use crate::limits::{first_limit, need_after};
use ldm_bytes::NoMemory;
use ldm_group::{Db, DbError, last_for};
use ldm_label::Labels;
use ldm_records::Record;
use std::alloc::Global;

// The group with these records in the places of those that leave it, and with this last VBLK
// sequence.
fn changed(
    alloc: Global,
    db: &Db,
    leaving: Leaving,
    made: Vec<Record>,
    last: u32,
) -> Result<Db, NoMemory>
    requires rising { Rising db.now.records → Rising
        (in_order (staying leaving db.now.records ++ made.items)) }
    requires seq { db.now.header.seq ≢ 2 ^ 64 - 1 }
    requires last { last ≡ last_for db.now.header.last
        (need_in (change_of leaving db.now.records made.items)) }
    ensures { IfOk result (λ next. next ≡ changed db.now
        (change_of leaving db.now.records made.items)) }
{
    let header = db.header().grown_to(alloc, last, db.header().seq + 1)?;
    let mut records = stay(alloc, db, leaving)?;
    let mut made = made;
    records.append(&mut made)?;
    match Db::new(alloc, header, records) {
        Ok(next) => Ok(next),
        Err(DbError::NoMemory) => Err(NoMemory),
        Err(DbError::SameId { .. }) => unreachable!(),
    }
}

/// The group with these records, of which so many are new, in the places of those that leave it,
/// where no limit is passed. The records that stay are copied only then.
#[tactic(auto, using(crate::proofs::LimitLaws::within_limits, crate::proofs::AreaLaws::most_low))]
pub fn change(
    alloc: Global,
    db: &Db,
    labels: &Labels,
    fresh: u64,
    leaving: Leaving,
    made: Vec<Record>,
) -> Result<Db, StepError>
    requires fits { All IsFitting db.now.records }
    requires areas { AreasFit labels.now }
    requires rising { Rising db.now.records → Rising
        (in_order (staying leaving db.now.records ++ made.items)) }
    ensures { StepsTo result (change_to db.now labels.now fresh
        (change_of leaving db.now.records made.items)) }
{
    if let Some(refusal) = first_limit(db, labels, fresh, leaving, made.as_slice()) {
        return Err(StepError::Refused(refusal));
    }
    let need = need_after(db, leaving, made.as_slice());
    let last = last_for(db.header().last, need);
    Ok(changed(alloc, db, leaving, made, last)?)
}
