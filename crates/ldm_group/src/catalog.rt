//! Records with the tables of their places.
ghost use Rattle.std.specs.Prelude.{◌≡◌, List, IfOk};
ghost use Rattle.ldm_records.specs.declared.types.Record.{Record};
ghost use Rattle.ldm_group.specs.Index.{IsIndexOf};

use crate::index::Index;
use crate::records::Records;
use ldm_bytes::NoMemory;
use ldm_records::Record;
use std::alloc::Global;
use std::marker::Model;

/// Records, with the index by which they are looked up. Contracts see it as the list of the
/// records.
#[derive(Drop)]
pub struct Catalog {
    records: Records,
    index: Index,
}

impl Model for Catalog {
    ghost Value = { List Record };

    ghost view = { λ c. c.records };

    ghost invariant = { λ c. IsIndexOf c.index c.records };
}

impl Catalog {
    /// The catalog of these records.
    pub fn of(alloc: Global, records: Vec<Record>) -> Result<Box<Catalog>, NoMemory>
        ensures { IfOk result (λ catalog. catalog.value ≡ records.items) }
    {
        let index = Index::of(alloc, records.as_slice())?;
        let catalog = Catalog {
            records: Records::from_vec(records),
            index,
        };
        Ok(Box::new(alloc, catalog)?)
    }

    /// The records in their order.
    pub fn as_slice(&self) -> &[Record]
        ensures { result.now ≡ self.now }
    {
        self.records.as_slice()
    }

    /// What the records are looked up by.
    pub fn index(&self) -> &Index
        ensures { IsIndexOf result.now self.now }
    {
        &self.index
    }
}
