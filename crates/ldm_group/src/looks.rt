//! Records by id, name, GUID and parent.
ghost use Rattle.std.specs.Prelude.{◌≡◌, true, Bool, List, find, count_by, option_copied, IfSome};
ghost use Rattle.std.specs.Prelude.{Some, Contains};
ghost use Rattle.ldm_records.specs.declared.types.Record.{Record};
ghost use Rattle.ldm_records.specs.declared.types.Record.TheVariants as kinds;
ghost use Rattle.ldm_group.specs.Hits.{hits};
ghost use Rattle.ldm_group.specs.Looks.{is_at, by_id, is_volume_named, volume_named, disk_named};
ghost use Rattle.ldm_group.specs.Looks.{is_disk_with, disk_with, children_of, max_id};
ghost use Rattle.ldm_group.specs.Order.{kind_of, id_of};

use crate::db::Db;
use crate::index::Hits;
use crate::order::id_of;
use ldm_records::{Disk, Record, Volume};

// How many records a key finds.
fn count_of(found: Option<Hits>) -> u64
    ensures { (records : List Record) (test : Record → Bool) → found ≡ hits test records
        → result ≡ count_by test records }
{
    found.map_or(0, |hits| hits.count)
}

impl Db {
    // The first of the records that a key finds.
    fn first_of(&self, found: Option<Hits>) -> Option<&Record>
        ensures is { (test : Record → Bool) → found ≡ hits test self.now.records
            → option_copied result ≡ find test self.now.records }
        ensures there { IfSome result (λ r. Contains self.now.records r.now) }
        ensures again { IfSome result (λ r. by_id (kind_of r.now)
            (id_of r.now) self.now.records ≡ Some r.now) }
    {
        self.as_slice().get(found?.first)
    }

    /// The record of this kind and id.
    pub fn by_id(&self, kind: u8, id: u64) -> Option<&Record>
        ensures is { option_copied result ≡ by_id kind id self.now.records }
        ensures at { IfSome result (λ r. is_at kind id r.now ≡ true) }
        ensures there { IfSome result (λ r. Contains self.now.records r.now) }
    {
        self.first_of(self.index().at(kind, id))
    }

    /// The volume of this name with the least id.
    pub fn volume_named(&self, name: &[u8]) -> Option<&Volume>
        ensures is { option_copied result ≡ volume_named name.now self.now.records }
        ensures there { IfSome result (λ x. Contains self.now.records (kinds.Volume x.now)) }
        ensures again { IfSome result (λ x. by_id 3 x.now.head.id self.now.records
            ≡ Some (kinds.Volume x.now)) }
    {
        match self.first_of(self.index().volumes(name)) {
            Some(Record::Volume(v)) => Some(v),
            _ => None,
        }
    }

    /// The disk of this name with the least id.
    pub fn disk_named(&self, name: &[u8]) -> Option<&Disk>
        ensures is { option_copied result ≡ disk_named name.now self.now.records }
        ensures there { IfSome result (λ x. Contains self.now.records (kinds.Disk x.now)) }
        ensures again { IfSome result (λ x. by_id 2 x.now.head.id self.now.records
            ≡ Some (kinds.Disk x.now)) }
    {
        match self.first_of(self.index().disks(name)) {
            Some(Record::Disk(d)) => Some(d),
            _ => None,
        }
    }

    /// The disk of this GUID with the least id.
    pub fn disk_with(&self, guid: u128) -> Option<&Disk>
        ensures is { option_copied result ≡ disk_with guid self.now.records }
        ensures there { IfSome result (λ x. Contains self.now.records (kinds.Disk x.now)) }
        ensures again { IfSome result (λ x. by_id 2 x.now.head.id self.now.records
            ≡ Some (kinds.Disk x.now)) }
    {
        match self.first_of(self.index().guids(guid)) {
            Some(Record::Disk(d)) => Some(d),
            _ => None,
        }
    }

    /// How many volumes have this name.
    pub fn name_count(&self, name: &[u8]) -> u64
        ensures { result ≡ count_by (is_volume_named name.now) self.now.records }
    {
        count_of(self.index().volumes(name))
    }

    /// How many disks have this GUID.
    pub fn guid_count(&self, guid: u128) -> u64
        ensures { result ≡ count_by (is_disk_with guid) self.now.records }
    {
        count_of(self.index().guids(guid))
    }

    /// The number of components of a volume (kind 3), or of partitions of a component (kind 4) or
    /// of a disk (kind 2). Other kinds have none.
    pub fn children_of(&self, kind: u8, id: u64) -> u64
        ensures { result ≡ children_of kind id self.now.records }
    {
        count_of(self.index().children(kind, id))
    }

    /// The greatest id of all records, 0 where there are none.
    pub fn max_id(&self) -> u64
        ensures { result ≡ max_id self.now.records }
    {
        self.as_slice().iter().fold(0, |top, r| id_of(r).max(top))
    }
}
