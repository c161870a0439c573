//! A list of records.
ghost use Rattle.std.specs.Prelude.{◌≡◌, List};
ghost use Rattle.ldm_records.specs.declared.types.Record.{Record};

use ldm_records::Record;
use std::marker::Model;

/// A list of records. Contracts see it as that list.
#[derive(Drop)]
pub struct Records {
    items: Vec<Record>,
}

impl Model for Records {
    ghost Value = { List Record };

    ghost view = { λ r. r.items.items };
}

impl Records {
    /// The list of these records. It takes no memory.
    pub fn from_vec(items: Vec<Record>) -> Records
        ensures { result ≡ items.items }
    {
        Records { items }
    }

    /// The records in their order.
    pub fn as_slice(&self) -> &[Record]
        ensures { result.now ≡ self.now }
    {
        self.items.as_slice()
    }
}
