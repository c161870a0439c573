//! The gaps of a disk, from which runs of sectors are taken.
ghost use Rattle.std.specs.Prelude.{◌≡◌, ◌+◌, ◌-◌, ◌^◌, ◌<◌, ◌++◌, ℕ, List, All, IfOk, OnOk};
ghost use Rattle.std.specs.Prelude.{IfNone, IsPermutation};
ghost use Rattle.std.specs.List.{filter_map, position};
ghost use Rattle.std.specs.List.Sorted.{IsNonDecreasingBy};
ghost use Rattle.ldm_group.specs.Partitions.{EndsInRange};
ghost use Rattle.ldm_space.specs.Free.{Taken, taken_in};
ghost use Rattle.ldm_space.specs.Gaps.{AreGaps, TakesFirst, has_length, first_gap, without_first};
ghost use Rattle.ldm_space.specs.Gaps.{taken_on, with_gap, largest_free};

use ldm_bytes::NoMemory;
use ldm_group::Db;
use ldm_made::Taken;
use ldm_records::Record;
use std::alloc::Global;
use std::marker::Model;

/// A run of free sectors of a disk's data area: `len` of them from `start` on.
#[derive(Clone, Copy)]
pub struct Gap {
    pub start: u64,
    pub len: u64,
}

/// The gaps of a disk's data area, in rising start. Contracts see them as that list.
#[derive(Drop)]
pub struct FreeMap {
    gaps: Vec<Gap>,
}

impl Model for FreeMap {
    ghost use Rattle.std.specs.Prelude.{ℕ, ◌+◌, ◌^◌, ◌<◌, List, All};
    ghost use Rattle.ldm_space.specs.declared.gaps.Gap.{Gap};

    ghost Value = { List Gap };

    ghost view = { λ map. map.gaps.items };

    ghost invariant = { λ map. All (λ g. g.start + g.len < 2 ^ 64) map.gaps.items };
}

// What the partition takes, where it has sectors of this disk.
fn taken_on(disk: u64, r: &Record) -> Option<Taken>
    ensures { result ≡ taken_on disk r.now }
{
    match r {
        Record::Partition(p) if p.disk == disk && p.size > 0 => Some(Taken {
            disk: p.disk,
            start: p.start,
            size: p.size,
        }),
        _ => None,
    }
}

// What is taken of the disk behind what was found before.
fn push_taken_on(taken: &mut Vec<Taken>, records: &[Record], disk: u64) -> Result<(), NoMemory>
    ensures { OnOk result (taken.new.items
        ≡ taken.old.items ++ filter_map (taken_on disk) records.now) }
{
    for r in records {
        if let Some(t) = taken_on(disk, r) {
            taken.push(t)?;
        }
    }
    Ok(())
}

// What is taken of the disk, in rising start.
fn all_taken_on(
    alloc: Global,
    records: &[Record],
    more: &[Record],
    disk: u64,
) -> Result<Vec<Taken>, NoMemory>
    ensures same { IfOk result (λ v. IsPermutation
        (filter_map (taken_on disk) (records.now ++ more.now)) v.items) }
    ensures rising { IfOk result (λ v. IsNonDecreasingBy (λ t. t.start) v.items) }
{
    let mut taken = Vec::new(alloc);
    push_taken_on(&mut taken, records, disk)?;
    push_taken_on(&mut taken, more, disk)?;
    taken.sort_unstable_by_key(|t| t.start);
    Ok(taken)
}

// The sectors from `at` up to `until` are a gap more, where there are some.
fn push_gap(gaps: &mut Vec<Gap>, at: u64, until: u64) -> Result<(), NoMemory>
    ensures { OnOk result (gaps.new.items ≡ with_gap gaps.old.items at until) }
{
    if at < until {
        gaps.push(Gap {
            start: at,
            len: until - at,
        })?;
    }
    Ok(())
}

// The place of the first gap of so many sectors or more.
fn first_long(gaps: &[Gap], len: u64) -> Option<usize>
    ensures { result ≡ position (has_length len) gaps.now }
{
    gaps.iter().position(|gap| gap.len >= len)
}

impl FreeMap {
    /// The gaps of the disk of this id, whose data area has `data_size` sectors: the longest runs
    /// of its sectors in which no partition of the disk has one.
    pub fn of(alloc: Global, db: &Db, disk: u64, data_size: u64) -> Result<FreeMap, NoMemory>
        requires ends { All EndsInRange db.now.records }
        ensures { IfOk result (λ map. AreGaps map (taken_in db.now.records) disk data_size) }
    {
        FreeMap::beside(alloc, db.as_slice(), &[], disk, data_size)
    }

    /// The gaps of the disk beside the partitions among two lists of records. One walk over what
    /// is taken in rising start, past the end of all before.
    pub(crate) fn beside(
        alloc: Global,
        records: &[Record],
        more: &[Record],
        disk: u64,
        data_size: u64,
    ) -> Result<FreeMap, NoMemory>
        requires ends { All EndsInRange (records.now ++ more.now) }
        ensures { IfOk result (λ map. AreGaps map (taken_in (records.now ++ more.now))
            disk data_size) }
    {
        let taken = all_taken_on(alloc, records, more, disk)?;
        let mut gaps = Vec::new(alloc);
        let mut at = 0;
        for t in &taken {
            push_gap(&mut gaps, at, t.start.min(data_size))?;
            at = at.max(t.start + t.size);
        }
        push_gap(&mut gaps, at, data_size)?;
        Ok(FreeMap { gaps })
    }

    /// The gaps in rising start.
    pub fn gaps(&self) -> &[Gap]
        ensures { result.now ≡ self.now }
    {
        self.gaps.as_slice()
    }

    /// How many sectors the longest gap has; 0 where there is no gap. It takes no memory.
    pub fn largest(&self) -> u64
        ensures { (taken : List Taken) (disk size : ℕ) → AreGaps self.now taken disk size
            → result ≡ largest_free taken disk size }
    {
        let mut largest = 0;
        for gap in self.gaps() {
            largest = largest.max(gap.len);
        }
        largest
    }

    /// Takes `len` sectors where the first gap of so many or more begins, and says where that is;
    /// `None` where there is no such gap. It takes no memory.
    pub fn take(&mut self, len: u64) -> Option<u64>
        requires some { 0 < len }
        ensures found { result ≡ first_gap len self.old }
        ensures left { self.new ≡ without_first len self.old }
        ensures unchanged { IfNone result (self.new ≡ self.old) }
        ensures first { (taken : List Taken) (disk size : ℕ) → AreGaps self.old taken disk size
            → TakesFirst taken disk size len result self.new }
    {
        let at = first_long(self.gaps.as_slice(), len)?;
        let gap = self.gaps[at];
        if gap.len == len {
            self.gaps.remove(at);
        } else {
            self.gaps[at] = Gap {
                start: gap.start + len,
                len: gap.len - len,
            };
        }
        Some(gap.start)
    }
}
