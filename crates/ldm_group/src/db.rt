//! The database of a group.
ghost use Rattle.std.specs.Prelude.{◌≡◌, IfOk};

use crate::catalog::Catalog;
use crate::error::DbError;
use crate::index::Index;
use crate::order::{first_twice, id_of, kind_of, place_of};
use ldm_bytes::NoMemory;
use ldm_records::Record;
use ldm_vmdb::Header;
use std::alloc::Global;
use std::marker::Model;

/// A group's header and its records, in rising order of kind and id.
pub struct Db {
    header: Header,
    records: Box<Catalog>,
}

// By hand, so that a function that lets a database go has one step for all that it has.
impl Drop for Db {
    fn drop(self) {
        let Db {
            header: _,
            records: _,
        } = self;
    }
}

impl Model for Db {
    ghost use Rattle.ldm_group.specs.Database.{Database};
    ghost use Rattle.ldm_group.specs.Order.{Rising};

    ghost Value = { Database };

    ghost view = { λ d. record { header = d.header; records = d.records.value } };

    ghost invariant = { λ d. Rising d.records.value };
}

// Copies of records, in their order.
fn copies_of(alloc: Global, records: &[Record]) -> Result<Vec<Record>, NoMemory>
    ensures { IfOk result (λ copies. copies.items ≡ records.now) }
{
    let mut copies = Vec::new(alloc);
    for r in records {
        copies.push(r.clone_in(alloc)?)?;
    }
    Ok(copies)
}

impl Db {
    ghost use Rattle.std.specs.Prelude.{◌≡◌, ◌<◌, length, slice_get, Some, IfOk};
    ghost use Rattle.ldm_group.specs.Order.{Rising};
    ghost use Rattle.ldm_group.specs.Database.{Database, MakesDb, at_seq};
    ghost use Rattle.ldm_group.specs.Index.{IsIndexOf};

    /// The database of this header, with the records in their order. Its maps are made in near
    /// linear time, but where records were chosen so that their keys fall on one place of a hash
    /// table: then in some ten steps for each pair of records.
    pub fn new(alloc: Global, header: Header, records: Vec<Record>) -> Result<Db, DbError>
        ensures { MakesDb result header records.items }
    {
        let mut records = records;
        records.sort_by_key(|r| place_of(r))?;
        if let Some(at) = first_twice(records.as_slice()) {
            return Err(DbError::SameId {
                kind: kind_of(&records[at]),
                id: id_of(&records[at]),
            });
        }
        Ok(Db {
            header,
            records: Catalog::of(alloc, records)?,
        })
    }

    pub fn header(&self) -> &Header
        ensures { result.now ≡ self.now.header }
    {
        &self.header
    }

    /// How many records there are.
    pub fn count(&self) -> usize
        ensures { result ≡ length self.now.records }
    {
        self.records.as_slice().len()
    }

    /// The records in their order.
    pub fn as_slice(&self) -> &[Record]
        ensures all { result.now ≡ self.now.records }
        ensures rising { Rising self.now.records }
    {
        self.records.as_slice()
    }

    /// What the records are looked up by.
    pub(crate) fn index(&self) -> &Index
        ensures { IsIndexOf result.now self.now.records }
    {
        self.records.index()
    }

    /// An equal database.
    pub fn clone_in(&self, alloc: Global) -> Result<Db, NoMemory>
        ensures { IfOk result (λ copy. copy ≡ self.now) }
    {
        let header = self.header.with_seq(alloc, self.header.seq)?;
        let records = copies_of(alloc, self.as_slice())?;
        Ok(Db {
            header,
            records: Catalog::of(alloc, records)?,
        })
    }

    /// This database with another sequence. It takes no memory.
    pub fn with_seq(self, seq: u64) -> Db
        ensures { result ≡ at_seq seq self }
    {
        let Db { header, records } = self;
        let Header {
            last,
            seq: _,
            name,
            guid,
            raw,
        } = header;
        let header = Header {
            last,
            seq,
            name,
            guid,
            raw,
        };
        Db { header, records }
    }

    /// The record at a place of the list.
    pub fn at(&self, place: usize) -> &Record
        requires { place < length self.now.records }
        ensures { slice_get self.now.records place ≡ Some result.now }
    {
        &self.records.as_slice()[place]
    }
}
