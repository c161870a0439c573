//! The first free run of sectors of a disk, by a walk over its partitions.
ghost use Rattle.std.specs.Prelude.{◌≡◌, ◌<◌, ◌≤◌, ℕ, All, true, false, ◌+◌, ◌^◌, Some};
ghost use Rattle.ldm_group.specs.Partitions.{EndsInRange};
ghost use Rattle.ldm_space.specs.Free.{taken_by, taken_in, past, is_taken, first_free_start};

use ldm_group::Db;
use ldm_made::Taken;
use ldm_records::Record;

// The end of what is taken, where it has one of the `len` sectors of the disk from `at` on;
// otherwise `at`.
fn past(taken: &Taken, disk: u64, len: u64, at: u64) -> u64
    requires some { 0 < len }
    requires ends { taken.now.start + taken.now.size < 2 ^ 64 }
    ensures { result ≡ past disk len at (Some taken.now) }
{
    let end = taken.start + taken.size;
    if taken.disk == disk && taken.start.saturating_sub(at) < len && at < end && taken.start < end {
        end
    } else {
        at
    }
}

// The end of a partition of this disk that has one of the `len` sectors from `at` on; otherwise
// `at`.
fn past_record(r: &Record, disk: u64, len: u64, at: u64) -> u64
    requires some { 0 < len }
    requires ends { EndsInRange r.now }
    ensures { result ≡ past disk len at (taken_by r.now) }
{
    match r {
        Record::Partition(p) => {
            let taken = Taken {
                disk: p.disk,
                start: p.start,
                size: p.size,
            };
            past(&taken, disk, len, at)
        }
        _ => at,
    }
}

// A walk over all partitions of the disk, past those that have one of the `len` sectors from where
// it has come to.
pub fn past_all(records: &[Record], disk: u64, len: u64, from: u64) -> u64
    requires some { 0 < len }
    requires ends { All EndsInRange records.now }
    ensures not_before { from ≤ result }
    ensures passed { (q : ℕ) → from ≤ q → q < result
        → is_taken (taken_in records.now) disk len q ≡ true }
    ensures free { result ≡ from → is_taken (taken_in records.now) disk len from ≡ false }
{
    let mut at = from;
    for r in records {
        at = past_record(r, disk, len, at);
    }
    at
}

/// The first fit: the least start of `len` sectors of the disk's data area, which has `data_size`
/// sectors, that no partition of the disk has; `None` where there is none. It takes no memory.
///
/// It walks over the records once for each start that it looks at. Each walk but the last passes at
/// least one partition that no later walk meets, so there is at most one walk more than the disk
/// has partitions; two, where they lie in the order of their ids.
pub fn first_fit(db: &Db, disk: u64, data_size: u64, len: u64) -> Option<u64>
    requires some { 0 < len }
    requires ends { All EndsInRange db.now.records }
    ensures { result ≡ first_free_start (taken_in db.now.records) disk data_size len }
{
    if data_size < len {
        return None;
    }
    let last = data_size - len;
    let mut at = 0;
    while at <= last {
        let next = past_all(db.as_slice(), disk, len, at);
        if next == at {
            return Some(at);
        }
        at = next;
    }
    None
}
