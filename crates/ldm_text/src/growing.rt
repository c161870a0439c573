//! A text that grows.
ghost use Rattle.std.specs.Prelude.{◌≡◌, ◌+◌, ◌++◌, List, [], ℕ, OnOk, decimal};
ghost use Rattle.ldm_bytes.specs.Guid.{own_guid};

use ldm_bytes::{Bytes, NoMemory, write_guid};
use std::alloc::Global;
use std::marker::Model;

/// A text that grows at its end. Contracts see it as its bytes.
#[derive(Drop)]
pub struct Text {
    alloc: Global,
    bytes: Vec<u8>,
}

impl Model for Text {
    ghost Value = { List ℕ };

    ghost view = { λ text. text.bytes.items };
}

impl Text {
    pub fn new(alloc: Global) -> Text
        ensures { result ≡ [] }
    {
        Text {
            alloc,
            bytes: Vec::new(alloc),
        }
    }

    pub fn push(&mut self, text: &[u8]) -> Result<(), NoMemory>
        ensures { OnOk result (self.new ≡ self.old ++ text.now) }
    {
        self.bytes.extend_from_slice(text)?;
        Ok(())
    }

    /// A number in decimal.
    pub fn push_number(&mut self, number: u64) -> Result<(), NoMemory>
        ensures { OnOk result (self.new ≡ self.old ++ decimal number) }
    {
        let text = format!(in self.alloc; "{number}")?;
        self.push(text.as_bytes())
    }

    /// The sum of two numbers in decimal.
    pub fn push_sum(&mut self, a: u64, b: u64) -> Result<(), NoMemory>
        ensures { OnOk result (self.new ≡ self.old ++ decimal (a + b)) }
    {
        let sum = u128::from(a) + u128::from(b);
        let text = format!(in self.alloc; "{sum}")?;
        self.push(text.as_bytes())
    }

    /// A GUID text in lower case.
    pub fn push_guid(&mut self, guid: u128) -> Result<(), NoMemory>
        ensures { OnOk result (self.new ≡ self.old ++ own_guid guid) }
    {
        let mut text = [0u8; 36];
        write_guid(guid, &mut text);
        self.push(&text)
    }

    pub fn as_slice(&self) -> &[u8]
        ensures { result.now ≡ self.now }
    {
        self.bytes.as_slice()
    }

    pub fn into_bytes(self) -> Bytes
        ensures { result ≡ self }
    {
        Bytes::from_vec(self.bytes)
    }
}
