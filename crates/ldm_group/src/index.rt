//! Tables of the places of records, by what they are looked up by.
ghost use Rattle.std.specs.Prelude.{◌≡◌, ◌+◌, ◌<◌, ◌^◌, ℕ, List, Some, if◌then◌else◌, bytes_eq};
ghost use Rattle.std.specs.Prelude.{nat_eq, length, take, OnOk};
ghost use Rattle.indexmap.specs.IndexMap.{get, Updates};
ghost use Rattle.ldm_group.specs.Hits.{hits, count_in, one_more, at_name, at_object};
ghost use Rattle.ldm_group.specs.Looks.{is_at, is_child, is_disk_named, is_disk_with};
ghost use Rattle.ldm_group.specs.Looks.{is_volume_named};

use crate::order::{id_of, kind_of};
use indexmap::IndexMap;
use ldm_bytes::NoMemory;
use ldm_records::Record;
use std::alloc::Global;
use std::hash::Hash;

/// The records that have one key.
#[derive(Clone, Copy)]
pub struct Hits {
    /// The place of the first of them.
    pub first: usize,
    /// How many they are.
    pub count: u64,
}

/// An object's kind and id.
#[derive(Clone, Copy, PartialEq, Eq, Hash)]
pub struct ObjectId {
    pub kind: u8,
    pub id: u64,
}

impl ObjectId {
    fn new(kind: u8, id: u64) -> ObjectId
        ensures { result ≡ record { kind = kind; id = id } }
    {
        ObjectId { kind, id }
    }
}

/// What records are looked up by.
pub struct Index {
    /// All records, by kind and id.
    ids: IndexMap<ObjectId, Hits>,
    /// Volumes by their names.
    volumes: IndexMap<Vec<u8>, Hits>,
    /// Disks by their names.
    disks: IndexMap<Vec<u8>, Hits>,
    /// Disks by their GUIDs.
    guids: IndexMap<u128, Hits>,
    /// Components by their volumes, and partitions by their components and by their disks.
    children: IndexMap<ObjectId, Hits>,
}

// By hand, so that a function that lets an index go has one step for all its maps.
impl Drop for Index {
    fn drop(self) {
        let Index {
            ids: _,
            volumes: _,
            disks: _,
            guids: _,
            children: _,
        } = self;
    }
}

// With one more record, at this place.
fn one_more(found: Option<Hits>, at: usize) -> Hits
    requires { count_in found + 1 < 2 ^ 64 }
    ensures { result ≡ one_more found at }
{
    match found {
        Some(hits) => Hits {
            first: hits.first,
            count: hits.count + 1,
        },
        None => Hits {
            first: at,
            count: 1,
        },
    }
}

// One more record, at this place, has the key.
fn note<K: Eq + Hash + Drop>(map: &mut IndexMap<K, Hits>, key: K, at: usize) -> Result<(), NoMemory>
    requires { count_in (get K.eq map.old key) + 1 < 2 ^ 64 }
    ensures { OnOk result (Updates K.eq map.old map.new key
        (Some (one_more (get K.eq map.old key) at))) }
{
    let hits = one_more(map.get(&key).copied(), at);
    map.insert(key, hits)?;
    Ok(())
}

// One more record, at this place, has the name.
fn note_name(
    names: &mut IndexMap<Vec<u8>, Hits>,
    alloc: Global,
    name: &[u8],
    at: usize,
) -> Result<(), NoMemory>
    requires { count_in (at_name names.old name.now) + 1 < 2 ^ 64 }
    ensures { OnOk result ((q : List ℕ) → at_name names.new q
        ≡ (if bytes_eq name.now q then Some (one_more (at_name names.old name.now) at)
        else at_name names.old q)) }
{
    note(names, Vec::from_slice(alloc, name)?, at)
}

// The record at a place, into a map that has those before it.
fn note_id(
    ids: &mut IndexMap<ObjectId, Hits>,
    records: &[Record],
    at: usize,
) -> Result<(), NoMemory>
    requires within { at < length records.now }
    requires before { (kind id : ℕ) → at_object ids.old kind id
        ≡ hits (is_at kind id) (take at records.now) }
    ensures { OnOk result ((kind id : ℕ) → at_object ids.new kind id
        ≡ hits (is_at kind id) (take (at + 1) records.now)) }
{
    let r = &records[at];
    note(ids, ObjectId::new(kind_of(r), id_of(r)), at)
}

fn note_volume(
    volumes: &mut IndexMap<Vec<u8>, Hits>,
    alloc: Global,
    records: &[Record],
    at: usize,
) -> Result<(), NoMemory>
    requires within { at < length records.now }
    requires before { (name : List ℕ) → at_name volumes.old name
        ≡ hits (is_volume_named name) (take at records.now) }
    ensures { OnOk result ((name : List ℕ) → at_name volumes.new name
        ≡ hits (is_volume_named name) (take (at + 1) records.now)) }
{
    match &records[at] {
        Record::Volume(v) => note_name(volumes, alloc, v.head.name.as_slice(), at),
        _ => Ok(()),
    }
}

fn note_disk(
    disks: &mut IndexMap<Vec<u8>, Hits>,
    alloc: Global,
    records: &[Record],
    at: usize,
) -> Result<(), NoMemory>
    requires within { at < length records.now }
    requires before { (name : List ℕ) → at_name disks.old name
        ≡ hits (is_disk_named name) (take at records.now) }
    ensures { OnOk result ((name : List ℕ) → at_name disks.new name
        ≡ hits (is_disk_named name) (take (at + 1) records.now)) }
{
    match &records[at] {
        Record::Disk(d) => note_name(disks, alloc, d.head.name.as_slice(), at),
        _ => Ok(()),
    }
}

fn note_guid(
    guids: &mut IndexMap<u128, Hits>,
    records: &[Record],
    at: usize,
) -> Result<(), NoMemory>
    requires within { at < length records.now }
    requires before { (guid : ℕ) → get nat_eq guids.old guid
        ≡ hits (is_disk_with guid) (take at records.now) }
    ensures { OnOk result ((guid : ℕ) → get nat_eq guids.new guid
        ≡ hits (is_disk_with guid) (take (at + 1) records.now)) }
{
    match &records[at] {
        Record::Disk(d) => note(guids, d.guid, at),
        _ => Ok(()),
    }
}

fn note_child(
    children: &mut IndexMap<ObjectId, Hits>,
    records: &[Record],
    at: usize,
) -> Result<(), NoMemory>
    requires within { at < length records.now }
    requires before { (kind id : ℕ) → at_object children.old kind id
        ≡ hits (is_child kind id) (take at records.now) }
    ensures { OnOk result ((kind id : ℕ) → at_object children.new kind id
        ≡ hits (is_child kind id) (take (at + 1) records.now)) }
{
    match &records[at] {
        Record::Component(c) => note(children, ObjectId::new(3, c.parent), at),
        Record::Partition(p) => {
            note(children, ObjectId::new(4, p.parent), at)?;
            note(children, ObjectId::new(2, p.disk), at)
        }
        _ => Ok(()),
    }
}

impl Index {
    ghost use Rattle.std.specs.Prelude.{◌≡◌, ◌+◌, ◌<◌, List, [], length, take, IfOk, OnOk};
    ghost use Rattle.ldm_records.specs.declared.types.Record.{Record};
    ghost use Rattle.ldm_group.specs.Hits.{hits};
    ghost use Rattle.ldm_group.specs.Index.{IsIndexOf};
    ghost use Rattle.ldm_group.specs.Looks.{is_at, is_child, is_disk_named, is_disk_with};
    ghost use Rattle.ldm_group.specs.Looks.{is_volume_named};

    // The index of no records, with room for so many.
    fn with_room(alloc: Global, records: usize) -> Result<Index, NoMemory>
        ensures { IfOk result (λ index. IsIndexOf index []) }
    {
        let ids = IndexMap::with_capacity(alloc, records)?;
        let children = IndexMap::with_capacity(alloc, records)?;
        Ok(Index {
            ids,
            volumes: IndexMap::new(alloc),
            disks: IndexMap::new(alloc),
            guids: IndexMap::new(alloc),
            children,
        })
    }

    // The record at a place, into the index of those before it.
    fn note(&mut self, alloc: Global, records: &[Record], at: usize) -> Result<(), NoMemory>
        requires within { at < length records.now }
        requires before { IsIndexOf self.old (take at records.now) }
        ensures { OnOk result (IsIndexOf self.new (take (at + 1) records.now)) }
    {
        note_id(&mut self.ids, records, at)?;
        note_volume(&mut self.volumes, alloc, records, at)?;
        note_disk(&mut self.disks, alloc, records, at)?;
        note_guid(&mut self.guids, records, at)?;
        note_child(&mut self.children, records, at)
    }

    fn note_all(&mut self, alloc: Global, records: &[Record]) -> Result<(), NoMemory>
        requires { IsIndexOf self.old [] }
        ensures { OnOk result (IsIndexOf self.new records.now) }
    {
        for at in 0..records.len() {
            self.note(alloc, records, at)?;
        }
        Ok(())
    }

    /// The index of these records.
    pub fn of(alloc: Global, records: &[Record]) -> Result<Index, NoMemory>
        ensures { IfOk result (λ index. IsIndexOf index records.now) }
    {
        let mut index = Index::with_room(alloc, records.len())?;
        index.note_all(alloc, records)?;
        Ok(index)
    }

    /// The record of this kind and id.
    pub fn at(&self, kind: u8, id: u64) -> Option<Hits>
        ensures { (records : List Record) → IsIndexOf self.now records
            → result ≡ hits (is_at kind id) records }
    {
        self.ids.get(&ObjectId::new(kind, id)).copied()
    }

    /// The volumes of this name.
    pub fn volumes(&self, name: &[u8]) -> Option<Hits>
        ensures { (records : List Record) → IsIndexOf self.now records
            → result ≡ hits (is_volume_named name.now) records }
    {
        self.volumes.get(name).copied()
    }

    /// The disks of this name.
    pub fn disks(&self, name: &[u8]) -> Option<Hits>
        ensures { (records : List Record) → IsIndexOf self.now records
            → result ≡ hits (is_disk_named name.now) records }
    {
        self.disks.get(name).copied()
    }

    /// The disks of this GUID.
    pub fn guids(&self, guid: u128) -> Option<Hits>
        ensures { (records : List Record) → IsIndexOf self.now records
            → result ≡ hits (is_disk_with guid) records }
    {
        self.guids.get(&guid).copied()
    }

    /// The children of the object of this kind and id.
    pub fn children(&self, kind: u8, id: u64) -> Option<Hits>
        ensures { (records : List Record) → IsIndexOf self.now records
            → result ≡ hits (is_child kind id) records }
    {
        self.children.get(&ObjectId::new(kind, id)).copied()
    }
}
