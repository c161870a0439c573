//! How many sectors the partitions of each disk use.
ghost use Rattle.std.specs.Prelude.{◌≡◌, ℕ, nat_eq, IfOk, unwrap_or};
ghost use Rattle.indexmap.specs.IndexMap as map;
ghost use Rattle.ldm_group.specs.Partitions.{used_on};

use indexmap::IndexMap;
use ldm_bytes::NoMemory;
use ldm_records::Record;
use std::alloc::Global;

/// The sectors that the partitions of each disk have together, by the disk's id. A disk without
/// partitions isn't there.
pub fn used_sectors(alloc: Global, records: &[Record]) -> Result<IndexMap<u64, u128>, NoMemory>
    ensures { IfOk result (λ m. (disk : ℕ) → unwrap_or (map.get nat_eq m disk) 0
        ≡ used_on records.now disk) }
{
    let mut used = IndexMap::new(alloc);
    for r in records {
        if let Record::Partition(p) = r {
            let sectors = used_of(&used, p.disk) + u128::from(p.size);
            used.insert(p.disk, sectors)?;
        }
    }
    Ok(used)
}

/// The sectors of this disk.
pub fn used_of(used: &IndexMap<u64, u128>, disk: u64) -> u128
    ensures { result ≡ unwrap_or (map.get nat_eq used.now disk) 0 }
{
    used.get(&disk).copied().unwrap_or(0)
}
