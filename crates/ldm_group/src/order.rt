//! The order of records: by kind, and then by id.
ghost use Rattle.std.specs.Prelude.{◌≡◌, MatchOption};
ghost use Rattle.ldm_group.specs.Order.{kind_of, id_of, place, place_of, IsFirstTwice, NoneTwice};

use ldm_records::Record;

/// The kind of an object: 1 group, 2 disk, 3 volume, 4 component, 5 partition.
pub fn kind_of(r: &Record) -> u8
    ensures { result ≡ kind_of r.now }
{
    match r {
        Record::Group(_) => 1,
        Record::Disk(_) => 2,
        Record::Volume(_) => 3,
        Record::Component(_) => 4,
        Record::Partition(_) => 5,
    }
}

/// The object's id.
pub fn id_of(r: &Record) -> u64
    ensures { result ≡ id_of r.now }
{
    match r {
        Record::Group(g) => g.head.id,
        Record::Disk(d) => d.head.id,
        Record::Volume(v) => v.head.id,
        Record::Component(c) => c.head.id,
        Record::Partition(p) => p.head.id,
    }
}

// The place of a kind and an id in the order.
pub fn place(kind: u8, id: u64) -> u128
    ensures { result ≡ place kind id }
{
    u128::from(kind) * 0x1_0000_0000_0000_0000 + u128::from(id)
}

// The place of a record.
#[tactic(auto, unfolding(crate::specs::Order::place_of))]
pub fn place_of(r: &Record) -> u128
    ensures { result ≡ place_of r.now }
{
    place(kind_of(r), id_of(r))
}

// The first index whose record is at the same place as the one before.
pub fn first_twice(records: &[Record]) -> Option<usize>
    ensures { MatchOption result (NoneTwice records.now) (λ at. IsFirstTwice records.now at) }
{
    for at in 1..records.len() {
        if place_of(&records[at - 1]) == place_of(&records[at]) {
            return Some(at);
        }
    }
    None
}
