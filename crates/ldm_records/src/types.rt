//! The kinds of records.
ghost use Rattle.std.specs.Prelude.{◌≡◌, ◌≤◌, ◌<◌, ◌^◌, ◌+◌, length, is_some, unwrap_or, [], IfOk};
ghost use Rattle.ldm_records.specs.Values.{values_len};
ghost use Rattle.ldm_records.specs.Table.{has_flag};
ghost use Rattle.ldm_records.specs.Fields.{volume_values, component_values, partition_values};
ghost use Rattle.ldm_records.specs.Forms.{chunk_value, columns_value, first_value, second_value};
ghost use Rattle.ldm_records.specs.Forms.{alt_of, disk_values, guid_text_of, group_values};

use crate::cloning::{both_clone, ends_clone, ids_clone, texts_clone};
use crate::pieces::{DiskForm, GroupForm, Head, Striping, TwoIds};
use ldm_bytes::{Bytes, NoMemory};
use std::alloc::Global;

/// A volume. Its kind is any text, on usual disks `gen` or `raid5`; its size is in sectors.
#[derive(Drop)]
pub struct Volume {
    pub head: Head,
    pub kind: Bytes,
    pub second: Bytes,
    pub fixed21: [u8; 21],
    pub children: u64,
    pub fixed16: [u8; 16],
    pub size: u64,
    pub fixed4: [u8; 4],
    pub part_type: u8,
    /// The GUID's 16 bytes in the order of its text.
    pub guid: [u8; 16],
    pub id1: Option<Bytes>,
    pub id2: Option<Bytes>,
    pub size2: Option<u64>,
    pub hint: Option<Bytes>,
    pub tail: Bytes,
    pub ghost kind_short: { length kind ≤ 255 },
    pub ghost second_short: { length second ≤ 255 },
    pub ghost id1_short: { length (unwrap_or id1 []) ≤ 255 },
    pub ghost id2_short: { length (unwrap_or id2 []) ≤ 255 },
    pub ghost hint_short: { length (unwrap_or hint []) ≤ 255 },
    pub ghost id1_flagged: { is_some id1 ≡ has_flag head.flags 0x08 },
    pub ghost id2_flagged: { is_some id2 ≡ has_flag head.flags 0x20 },
    pub ghost size2_flagged: { is_some size2 ≡ has_flag head.flags 0x80 },
    pub ghost hint_flagged: { is_some hint ≡ has_flag head.flags 0x02 },
    pub ghost short: { values_len (volume_values head.id head.name kind second fixed21 children fixed16 size
        fixed4 part_type guid id1 id2 size2 hint)
        + length tail < 2 ^ 32 },
}

impl Volume {
    /// An equal volume.
    pub fn clone_in(&self, alloc: Global) -> Result<Volume, NoMemory>
        ensures { IfOk result (λ v. v ≡ self.now) }
    {
        if let Ok((kind, second)) = both_clone(&self.kind, &self.second, alloc)
            && let Ok((id1, id2, hint)) = texts_clone(&self.id1, &self.id2, &self.hint, alloc)
            && let Ok((head, tail)) = ends_clone(&self.head, &self.tail, alloc)
        {
            Ok(Volume {
                head,
                kind,
                second,
                fixed21: self.fixed21,
                children: self.children,
                fixed16: self.fixed16,
                size: self.size,
                fixed4: self.fixed4,
                part_type: self.part_type,
                guid: self.guid,
                id1,
                id2,
                size2: self.size2,
                hint,
                tail,
            })
        } else {
            Err(NoMemory)
        }
    }
}

/// A component of a volume: a layout over partitions. The layout type is 1 for stripe, 2 for basic
/// and 3 for RAID; other values are carried.
#[derive(Drop)]
pub struct Component {
    pub head: Head,
    pub state: Bytes,
    pub layout: u8,
    pub fixed4: [u8; 4],
    pub children: u64,
    pub fixed16: [u8; 16],
    /// The volume's id.
    pub parent: u64,
    pub fixed1: u8,
    pub striping: Option<Striping>,
    pub tail: Bytes,
    pub ghost state_short: { length state ≤ 255 },
    pub ghost flagged: { is_some striping ≡ has_flag head.flags 0x10 },
    pub ghost short: { values_len (component_values head.id head.name state layout fixed4 children fixed16
        parent fixed1 (chunk_value striping) (columns_value striping))
        + length tail < 2 ^ 32 },
}

impl Component {
    /// An equal component.
    pub fn clone_in(&self, alloc: Global) -> Result<Component, NoMemory>
        ensures { IfOk result (λ c. c ≡ self.now) }
    {
        if let Ok(state) = self.state.clone_in(alloc)
            && let Ok((head, tail)) = ends_clone(&self.head, &self.tail, alloc)
        {
            Ok(Component {
                head,
                state,
                layout: self.layout,
                fixed4: self.fixed4,
                children: self.children,
                fixed16: self.fixed16,
                parent: self.parent,
                fixed1: self.fixed1,
                striping: self.striping,
                tail,
            })
        } else {
            Err(NoMemory)
        }
    }
}

/// A partition of a component: a piece of a disk. It begins at the sector `start` of the disk's
/// data area. In a span or a mirror it has `offset` sectors of the component before it; a column
/// has 0 there, which nothing reads.
#[derive(Drop)]
pub struct Partition {
    pub head: Head,
    pub fixed12: [u8; 12],
    pub start: u64,
    pub offset: u64,
    pub size: u64,
    /// The component's id.
    pub parent: u64,
    /// The disk's id.
    pub disk: u64,
    /// The column.
    pub index: Option<u64>,
    pub tail: Bytes,
    pub ghost flagged: { is_some index ≡ has_flag head.flags 0x08 },
    pub ghost short: { values_len (partition_values head.id head.name fixed12 start offset size parent disk index)
        + length tail < 2 ^ 32 },
}

impl Partition {
    /// An equal partition.
    pub fn clone_in(&self, alloc: Global) -> Result<Partition, NoMemory>
        ensures { IfOk result (λ p. p ≡ self.now) }
    {
        let (head, tail) = ends_clone(&self.head, &self.tail, alloc)?;
        Ok(Partition {
            head,
            fixed12: self.fixed12,
            start: self.start,
            offset: self.offset,
            size: self.size,
            parent: self.parent,
            disk: self.disk,
            index: self.index,
            tail,
        })
    }
}

/// A disk of the group.
#[derive(Drop)]
pub struct Disk {
    pub head: Head,
    pub guid: u128,
    pub form: DiskForm,
    pub tail: Bytes,
    pub ghost alt_short: { length (alt_of form) ≤ 255 },
    pub ghost short: { values_len (disk_values head.id head.name guid form) + length tail < 2 ^ 32 },
}

impl Disk {
    /// An equal disk.
    pub fn clone_in(&self, alloc: Global) -> Result<Disk, NoMemory>
        ensures { IfOk result (λ d. d ≡ self.now) }
    {
        if let Ok(form) = self.form.clone_in(alloc)
            && let Ok((head, tail)) = ends_clone(&self.head, &self.tail, alloc)
        {
            Ok(Disk {
                head,
                guid: self.guid,
                form,
                tail,
            })
        } else {
            Err(NoMemory)
        }
    }
}

/// The group itself.
#[derive(Drop)]
pub struct GroupRec {
    pub head: Head,
    pub form: GroupForm,
    pub ids: Option<TwoIds>,
    pub tail: Bytes,
    pub ghost guid_short: { length (guid_text_of form) ≤ 255 },
    pub ghost flagged: { is_some ids ≡ has_flag head.flags 0x08 },
    pub ghost short: { values_len (group_values head.id head.name form (first_value ids) (second_value ids))
        + length tail < 2 ^ 32 },
}

impl GroupRec {
    /// An equal group record.
    pub fn clone_in(&self, alloc: Global) -> Result<GroupRec, NoMemory>
        ensures { IfOk result (λ g. g ≡ self.now) }
    {
        if let Ok(form) = self.form.clone_in(alloc)
            && let Ok(ids) = ids_clone(&self.ids, alloc)
            && let Ok((head, tail)) = ends_clone(&self.head, &self.tail, alloc)
        {
            Ok(GroupRec {
                head,
                form,
                ids,
                tail,
            })
        } else {
            Err(NoMemory)
        }
    }
}

/// A record of the database. Each optional field is there exactly where its flag is set, each text
/// has at most 255 bytes, and the own spelling's length fits its four bytes.
pub enum Record {
    Volume(Volume),
    Component(Component),
    Partition(Partition),
    Disk(Disk),
    Group(GroupRec),
}

// By hand, so that a function that lets a record go has one step for all that it has.
impl Drop for Record {
    fn drop(self) {
        match self {
            Record::Volume(_) => {}
            Record::Component(_) => {}
            Record::Partition(_) => {}
            Record::Disk(_) => {}
            Record::Group(_) => {}
        }
    }
}

impl Record {
    /// An equal record.
    pub fn clone_in(&self, alloc: Global) -> Result<Record, NoMemory>
        ensures { IfOk result (λ r. r ≡ self.now) }
    {
        match self {
            Record::Volume(v) => v.clone_in(alloc).map(Record::Volume),
            Record::Component(c) => c.clone_in(alloc).map(Record::Component),
            Record::Partition(p) => p.clone_in(alloc).map(Record::Partition),
            Record::Disk(d) => d.clone_in(alloc).map(Record::Disk),
            Record::Group(g) => g.clone_in(alloc).map(Record::Group),
        }
    }
}
