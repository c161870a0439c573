//! The rules that are looked for at each record alone.
ghost use Rattle.std.specs.Prelude.{◌≡◌};
ghost use Rattle.ldm_rules.specs.Rules.{first_broken};
ghost use Rattle.ldm_rules.specs.Breaks.{breaks};

use crate::found::id_in;
use crate::single::is_empty;
use crate::tree::{
    lacks_component, lacks_disk, lacks_volume, miscounts_components, miscounts_partitions,
};
use crate::twins::{has_namesake, has_twin_guid};
use ldm_group::Db;
use ldm_records::Record;

/// A rule that is tested on each record alone.
#[derive(Clone, Copy)]
pub enum RecordRule {
    OneGuid,
    OneName,
    HasVolume,
    HasComponent,
    HasDisk,
    CountsComponents,
    CountsPartitions,
    HasSectors,
}

fn breaks(rule: RecordRule, r: &Record, db: &Db) -> bool
    ensures { result ≡ breaks rule db.now.records r.now }
{
    match rule {
        RecordRule::OneGuid => has_twin_guid(r, db),
        RecordRule::OneName => has_namesake(r, db),
        RecordRule::HasVolume => lacks_volume(r, db),
        RecordRule::HasComponent => lacks_component(r, db),
        RecordRule::HasDisk => lacks_disk(r, db),
        RecordRule::CountsComponents => miscounts_components(r, db),
        RecordRule::CountsPartitions => miscounts_partitions(r, db),
        RecordRule::HasSectors => is_empty(r),
    }
}

/// The least id of a record that breaks the rule.
pub fn first_broken(rule: RecordRule, db: &Db) -> Option<u64>
    ensures { result ≡ first_broken (breaks rule db.now.records) db.now.records }
{
    id_in(db.as_slice().iter().find(|r| breaks(rule, r, db)))
}
