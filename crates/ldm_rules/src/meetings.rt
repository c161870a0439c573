//! Rule 11: partitions that have a sector in common.
ghost use Rattle.std.specs.Prelude.{◌≡◌, ◌↔◌, ◌==◌, ◌&&◌, ◌≤◌, ◌<◌, ◌+◌, max, min, All, IfOk};
ghost use Rattle.std.specs.Prelude.{IsTrue, find, option_copied, length, IsPermutation};
ghost use Rattle.std.specs.List.{filter_map, list_any, AllAdjacentBelow};
ghost use Rattle.std.specs.List.Sorted.{IsNonDecreasingBy};
ghost use Rattle.ldm_group.specs.Partitions.{EndsInRange, meets};
ghost use Rattle.ldm_rules.specs.Rules.{first_broken, is_other_meeting, meets_another};
ghost use Rattle.ldm_rules.specs.Spans.{span_of};

use crate::found::id_in;
use ldm_bytes::NoMemory;
use ldm_group::Db;
use ldm_records::{Partition, Record};
use std::alloc::Global;

/// Sectors on one line of all disks, from `start` up to `end`.
#[derive(Drop)]
pub struct Span {
    pub start: u128,
    pub end: u128,
}

// Whether both have a sector in common.
fn meets(p: &Partition, q: &Partition) -> bool
    ensures { result ≡ meets p.now q.now }
{
    p.disk == q.disk
        && u128::from(p.start).max(u128::from(q.start))
            < (u128::from(p.start) + u128::from(p.size)).min(
                u128::from(q.start) + u128::from(q.size),
            )
}

fn is_other_meeting(p: &Partition, r: &Record) -> bool
    ensures { result ≡ is_other_meeting p.now r.now }
{
    match r {
        Record::Partition(q) => q.head.id != p.head.id && meets(p, q),
        _ => false,
    }
}

fn any_meets(p: &Partition, records: &[Record]) -> bool
    ensures { result ≡ list_any (is_other_meeting p.now) records.now }
{
    records.iter().any(|r| is_other_meeting(p, r))
}

fn meets_another(r: &Record, records: &[Record]) -> bool
    ensures { result ≡ meets_another records.now r.now }
{
    match r {
        Record::Partition(p) => any_meets(p, records),
        _ => false,
    }
}

// The first partition that meets another.
fn first_meeting(records: &[Record]) -> Option<&Record>
    ensures { option_copied result ≡ find (meets_another records.now) records.now }
{
    records.iter().find(|r| meets_another(r, records))
}

// Whether each partition ends below 2^64.
fn all_end_in_range(records: &[Record]) -> bool
    ensures { IsTrue result ↔ All EndsInRange records.now }
{
    for r in records {
        if let Record::Partition(p) = r {
            if u128::from(p.start) + u128::from(p.size) > 0xFFFF_FFFF_FFFF_FFFF {
                return false;
            }
        }
    }
    true
}

// The partitions' sectors on one line.
fn spans_of(alloc: Global, records: &[Record]) -> Result<Vec<Span>, NoMemory>
    requires { All EndsInRange records.now }
    ensures { IfOk result (λ v. v.items ≡ filter_map span_of records.now) }
{
    let mut spans = Vec::new(alloc);
    for r in records {
        if let Record::Partition(p) = r {
            let start = u128::from(p.disk) * 0x1_0000_0000_0000_0000 + u128::from(p.start);
            let end = start + u128::from(p.size);
            spans.push(Span { start, end })?;
        }
    }
    Ok(spans)
}

// Whether each ends before the next.
fn are_apart(spans: &[Span]) -> bool
    ensures { IsTrue result ↔ AllAdjacentBelow (λ a b. a.end ≤ b.start) spans.now
        (length spans.now) }
{
    for at in 1..spans.len() {
        if spans[at].start < spans[at - 1].end {
            return false;
        }
    }
    true
}

// The spans of all partitions, in rising start.
fn sorted_spans(alloc: Global, records: &[Record]) -> Result<Vec<Span>, NoMemory>
    requires { All EndsInRange records.now }
    ensures same { IfOk result (λ v. IsPermutation (filter_map span_of records.now) v.items) }
    ensures rising { IfOk result (λ v. IsNonDecreasingBy (λ s. s.start) v.items) }
{
    let mut spans = spans_of(alloc, records)?;
    spans.sort_by_key(|s| s.start)?;
    Ok(spans)
}

/// The least partition that meets another of its disk. The sorted sectors tell where none does. All
/// pairs are looked at only where two meet, or one ends past 2^64 - 1.
pub fn meeting(alloc: Global, db: &Db) -> Result<Option<u64>, NoMemory>
    ensures { IfOk result (λ id. id ≡ first_broken (meets_another db.now.records) db.now.records) }
{
    if all_end_in_range(db.as_slice()) {
        let spans = sorted_spans(alloc, db.as_slice())?;
        if are_apart(spans.as_slice()) {
            return Ok(None);
        }
    }
    Ok(id_in(first_meeting(db.as_slice())))
}
