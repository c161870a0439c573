//! Databases: the order of records, look-ups, and ids that two records have.
use crate::made::{database, database_error, kinds_of};
use ldm_group::{Db, DbError, id_of, kind_of};
use std::alloc::Global;
use std::test::Fail;

// Records in no order. Names are the bytes 65 to 71; the volume of components is 6, and partitions
// lie in component 7 on disk 2.
const MIXED: &str =
    "5.1.71.0.8.7.2 2.3.65.65 3.6.68.1.8 4.7.67.1.6 1.9.70 3.4.68.1.8 2.2.65.65 4.1.67.1.6 5.8.68.0.8.7.2";

// The kinds and ids of those records, as they stand.
const ORDER: [(u8, u64); 9] = [
    (1, 9),
    (2, 2),
    (2, 3),
    (3, 4),
    (3, 6),
    (4, 1),
    (4, 7),
    (5, 1),
    (5, 8),
];

#[test]
fn records_stand_in_order(rt: HostRuntime) -> Result<(), Fail> {
    let db = database(rt.alloc(), 64, MIXED)?;
    let order = kinds_of(rt.alloc(), &db)?;
    assert!(rt; order.as_slice() == ORDER.as_slice());
    Ok(())
}

// The kinds and ids of the records, each taken by its place.
fn kinds_by_place(alloc: Global, db: &Db) -> Result<Vec<(u8, u64)>, Fail> {
    let mut kinds = Vec::new(alloc);
    for place in 0..db.count() {
        let r = db.at(place);
        kinds.push((kind_of(r), id_of(r)))?;
    }
    Ok(kinds)
}

#[test]
fn records_are_taken_by_place(rt: HostRuntime) -> Result<(), Fail> {
    let db = database(rt.alloc(), 64, MIXED)?;
    let kinds = kinds_by_place(rt.alloc(), &db)?;
    assert!(rt; kinds.as_slice() == ORDER.as_slice());
    Ok(())
}

// The ids of what is looked up by a name of this byte, as a volume and as a disk, and by this GUID.
fn looked_up(db: &Db, name: u8) -> [u64; 3] {
    let volume = match db.volume_named(&[name]) {
        Some(v) => v.head.id,
        None => 0,
    };
    let disk = match db.disk_named(&[name]) {
        Some(d) => d.head.id,
        None => 0,
    };
    let holder = match db.disk_with(u128::from(name)) {
        Some(d) => d.head.id,
        None => 0,
    };
    [volume, disk, holder]
}

// Of two with one name or GUID, the one of the least id.
const NAMES: [(u8, [u64; 3]); 3] = [(b'D', [4, 0, 0]), (b'A', [0, 2, 2]), (b'B', [0, 0, 0])];

#[test]
fn objects_are_looked_up(rt: HostRuntime) -> Result<(), Fail> {
    let db = database(rt.alloc(), 64, MIXED)?;
    for (name, ids) in &NAMES {
        assert!(rt; looked_up(&db, *name) == *ids, "{name}");
    }
    Ok(())
}

// A kind, an id, and how many children that one has.
const CHILDREN: [(u8, u64, u64); 5] = [(3, 6, 2), (4, 7, 2), (2, 2, 2), (2, 3, 0), (5, 7, 0)];

#[test]
fn children_are_counted(rt: HostRuntime) -> Result<(), Fail> {
    let db = database(rt.alloc(), 64, MIXED)?;
    for (kind, id, children) in &CHILDREN {
        assert!(rt;
            db.children_of(*kind, *id) == *children,
            "kind {kind} id {id}"
        );
    }
    assert!(rt; db.by_id(4, 7).is_some() && db.by_id(3, 7).is_none() && db.max_id() == 9);
    Ok(())
}

// Records, and the kind and the id that two of them have.
const TWINS: [(&str, u8, u64); 4] = [
    ("2.2.65.1 2.2.66.2", 2, 2),
    ("5.1.80 5.1.81 2.2.65.1 2.2.66.2", 2, 2),
    ("2.3.65 2.2.66 2.3.67 2.2.68", 2, 2),
    ("1.4.70 3.4.68 4.4.67 4.4.66", 4, 4),
];

#[test]
fn the_least_id_that_two_have(rt: HostRuntime) -> Result<(), Fail> {
    for &(records, kind, id) in &TWINS {
        let error = database_error(rt.alloc(), records)?;
        assert!(rt; error == Some(DbError::SameId { kind, id }), "{records}");
    }
    Ok(())
}

// Whether a database of 64 blocks and one of so many are the same group.
fn is_same(alloc: Global, records: &str, last: u32, others: &str) -> Result<bool, Fail> {
    let db = database(alloc, 64, records)?;
    let other = database(alloc, last, others)?;
    Ok(db.same_core(&other))
}

#[test]
fn same_groups(rt: HostRuntime) -> Result<(), Fail> {
    assert!(rt; is_same(rt.alloc(), "1.1.70 2.2.65", 64, "2.2.65 1.1.70")?);
    assert!(rt; !is_same(rt.alloc(), "1.1.70 2.2.65", 68, "1.1.70 2.2.65")?);
    Ok(())
}
