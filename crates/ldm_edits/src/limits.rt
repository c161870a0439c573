//! The limits of ids, records, blocks and the sequence.
ghost use Rattle.std.specs.Prelude.{◌≡◌, min, unwrap_or, ◌+◌, ◌-◌, ◌^◌, ◌≤◌, ◌<◌, All, MatchOption};
ghost use Rattle.std.specs.Prelude.{nat_le};
ghost use Rattle.std.specs.Option.{option_map};
ghost use Rattle.ldm_bytes.specs.Tables.{first_of};
ghost use Rattle.ldm_group.specs.Looks.{max_id};
ghost use Rattle.ldm_group.specs.Room.{IsFitting, need_of};
ghost use Rattle.ldm_group.specs.Database.{Database};
ghost use Rattle.ldm_edits.specs.Changes.{Change, long_id, need_in, AreasFit, later_limits, limits};
ghost use Rattle.ldm_edits.specs.Staying.{staying, change_of};

use crate::areas::most_blocks;
use crate::leaving::Leaving;
use crate::reply::Refusal;
use ldm_group::{Db, id_of, own_len};
use ldm_label::Labels;
use ldm_records::Record;
use ldm_vmdb::parts_of;

// Whether so many new records find ids behind the greatest.
fn has_ids(max_id: u64, fresh: u64) -> bool
    ensures { result ≡ nat_le (max_id + fresh) (2 ^ 64 - 1) }
{
    fresh <= u64::MAX - max_id
}

/// The first id of so many new records behind the greatest; none where there are fewer left.
pub fn first_new_id(max_id: u64, fresh: u64) -> Option<u64>
    requires { 1 ≤ fresh }
    ensures { MatchOption result (2 ^ 64 - 1 < max_id + fresh)
        (λ id. (id ≡ max_id + 1) × (max_id + fresh ≤ 2 ^ 64 - 1)) }
{
    if has_ids(max_id, fresh) {
        Some(max_id + 1)
    } else {
        None
    }
}

// The less of an id and the least of those before it.
fn lesser(least: Option<u64>, id: u64) -> u64
    ensures { result ≡ unwrap_or (option_map (λ other. min id other) least) id }
{
    match least {
        Some(other) => id.min(other),
        None => id,
    }
}

// The least id of the records whose own spelling takes more than four blocks.
#[tactic(auto, using(std::proofs::lemmas::Grind::common_steps, crate::proofs::LimitLaws::kept))]
fn long_id(records: &[Record]) -> Option<u64>
    ensures { result ≡ long_id records.now }
{
    let mut least = None;
    for r in records {
        if own_len(r) > 448 {
            least = Some(lesser(least, id_of(r)));
        }
    }
    least
}

// How many blocks the records take that stay.
fn need_staying(db: &Db, leaving: Leaving) -> u64
    requires { All IsFitting db.now.records }
    ensures is { result ≡ need_of (staying leaving db.now.records) }
    ensures few { result < 2 ^ 63 }
{
    let mut need = 0;
    for r in db.as_slice() {
        if !leaving.takes(db, r) {
            need += u64::from(parts_of(own_len(r)));
        }
    }
    need
}

/// How many blocks these new records take.
pub fn need_made(made: &[Record]) -> u64
    requires { All IsFitting made.now }
    ensures is { result ≡ need_of made.now }
    ensures few { result < 2 ^ 63 }
{
    let mut need = 0;
    for r in made {
        need += u64::from(parts_of(own_len(r)));
    }
    need
}

/// How many blocks the records take that stay, and those that are made.
#[tactic(auto, using(crate::proofs::LimitLaws::need_both))]
pub fn need_after(db: &Db, leaving: Leaving, made: &[Record]) -> u64
    requires there { All IsFitting db.now.records }
    requires made { All IsFitting made.now }
    ensures { result ≡ need_in (change_of leaving db.now.records made.now) }
{
    need_staying(db, leaving) + need_made(made)
}

/// The first of the limits but for the ids, where the records that stay take so many blocks and the
/// group has this sequence.
#[tactic(auto, using(crate::proofs::LimitLaws::need_both, crate::proofs::LimitLaws::none_long))]
pub fn later_limit(labels: &Labels, seq: u64, staying: u64, made: &[Record]) -> Option<Refusal>
    requires areas { AreasFit labels.now }
    requires few { staying < 2 ^ 63 }
    ensures { (db : Database) (change : Change) → seq ≡ db.header.seq
        → staying ≡ need_of change.stay → made.now ≡ change.made
        → result ≡ first_of (later_limits db labels.now change) }
{
    if let Some(id) = long_id(made) {
        return Some(Refusal::TooLong(id));
    }
    let need = staying + need_made(made);
    let have = most_blocks(labels.as_slice());
    if have < need {
        return Some(Refusal::NoRoom { need, have });
    }
    if seq == u64::MAX {
        return Some(Refusal::SequenceSpent);
    }
    None
}

/// The first reason why these records, of which so many are new, can't take the places of those
/// that leave the group.
#[tactic(auto, unfolding(crate::specs::Changes::limits))]
pub fn first_limit(
    db: &Db,
    labels: &Labels,
    fresh: u64,
    leaving: Leaving,
    made: &[Record],
) -> Option<Refusal>
    requires fits { All IsFitting db.now.records }
    requires areas { AreasFit labels.now }
    ensures { result ≡ first_of (limits db.now labels.now fresh
        (change_of leaving db.now.records made.now)) }
{
    if has_ids(db.max_id(), fresh) {
        later_limit(labels, db.header().seq, need_staying(db, leaving), made)
    } else {
        Some(Refusal::IdsSpent)
    }
}
