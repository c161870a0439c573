//! JSON that grows.
ghost use Rattle.std.specs.Prelude.{◌≡◌, ◌++◌, [], ◌∷◌, OnOk, IfOk, map, flat_map, codes};
ghost use Rattle.json.specs.Token.{begin_array, end_array};
ghost use Rattle.json.specs.Tree.{json_tokens};
ghost use Rattle.json.specs.Print.{print};
ghost use Rattle.ldm_json.specs.Values.{json_of, json_member, json_object, field_tokens};
ghost use Rattle.ldm_json.specs.Values.{opening, closing, then_array};
ghost use Rattle.ldm_json.specs.declared.scalar.Scalar.TheVariants as Scalar;

use crate::naming::{name_text, said_text};
use crate::scalar::Scalar;
use json::Writer;
use ldm_bytes::{Bytes, NoMemory};
use std::alloc::Global;
use std::marker::Model;
use uuid::Uuid;

/// JSON that grows at its end. Contracts see it as its tokens.
#[derive(Drop)]
pub struct Json {
    alloc: Global,
    writer: Writer,
}

impl Model for Json {
    ghost use Rattle.std.specs.Prelude.{◌≡◌, List, []};
    ghost use Rattle.json.specs.Token.{Token, tokens_code};

    ghost Value = { List Token };

    ghost coded = { tokens_code };

    ghost view = { λ json. json.writer.tokens };

    ghost invariant = { λ json. json.writer.before ≡ [] };
}

impl Json {
    pub fn new(alloc: Global) -> Json
        ensures { result ≡ [] }
    {
        Json {
            alloc,
            writer: Writer::new(Vec::new(alloc)),
        }
    }

    fn guid(&mut self, guid: u128) -> Result<(), NoMemory>
        ensures { OnOk result (self.new ≡ self.old ++ json_tokens (json_of (Scalar.Guid guid))) }
    {
        let mut buffer = Uuid::encode_buffer();
        let id = Uuid::from_u128(guid).hyphenated();
        self.writer.string(id.encode_lower(&mut buffer))?;
        Ok(())
    }

    fn name(&mut self, name: &[u8]) -> Result<(), NoMemory>
        ensures { OnOk result (self.new ≡ self.old ++ json_tokens (json_of (Scalar.Name name.entry))) }
    {
        let text = name_text(self.alloc, name)?;
        self.writer.string(&text)?;
        Ok(())
    }

    fn said(&mut self, bytes: &[u8]) -> Result<(), NoMemory>
        ensures { OnOk result (self.new ≡ self.old ++ json_tokens (json_of (Scalar.Said bytes.entry))) }
    {
        let text = said_text(self.alloc, bytes)?;
        self.writer.string(&text)?;
        Ok(())
    }

    /// A value without parts.
    pub fn scalar(&mut self, scalar: Scalar) -> Result<(), NoMemory>
        ensures { OnOk result (self.new ≡ self.old ++ json_tokens (json_of scalar.entry)) }
    {
        match scalar {
            Scalar::Number(number) | Scalar::Maybe(Some(number)) => self.writer.u64(number)?,
            Scalar::Maybe(None) | Scalar::MaybeWord(None) => self.writer.null()?,
            Scalar::MaybeName(None) | Scalar::Null => self.writer.null()?,
            Scalar::Word(word) | Scalar::MaybeWord(Some(word)) => self.writer.string(word)?,
            Scalar::Said(bytes) => self.said(bytes)?,
            Scalar::Name(name) | Scalar::MaybeName(Some(name)) => self.name(name)?,
            Scalar::Guid(guid) => self.guid(guid)?,
            Scalar::Flag(flag) => self.writer.boolean(flag)?,
        }
        Ok(())
    }

    fn field(&mut self, key: &str, scalar: Scalar) -> Result<(), NoMemory>
        ensures { OnOk result (self.new ≡ self.old ++ field_tokens (key.entry, scalar.entry)) }
    {
        self.writer.key(key)?;
        self.scalar(scalar)
    }

    /// Members of an object, in their order.
    pub fn fields(&mut self, fields: &[(&str, Scalar)]) -> Result<(), NoMemory>
        ensures { OnOk result (self.new ≡ self.old ++ flat_map field_tokens fields.now) }
    {
        for (key, scalar) in fields {
            self.field(key, *scalar)?;
        }
        Ok(())
    }

    /// An object of these members.
    pub fn object(&mut self, fields: &[(&str, Scalar)]) -> Result<(), NoMemory>
        ensures { OnOk result (self.new
            ≡ self.old ++ json_tokens (json_object (map json_member fields.now))) }
    {
        self.writer.begin_object()?;
        self.fields(fields)?;
        self.writer.end_object()?;
        Ok(())
    }

    /// An object of these members, and then of those.
    pub fn object_of_both(
        &mut self,
        first: &[(&str, Scalar)],
        second: &[(&str, Scalar)],
    ) -> Result<(), NoMemory>
        ensures { OnOk result (self.new ≡ self.old ++ json_tokens (json_object
            (map json_member first.now ++ map json_member second.now))) }
    {
        self.writer.begin_object()?;
        self.fields(first)?;
        self.fields(second)?;
        self.writer.end_object()?;
        Ok(())
    }

    /// An object with one member, which is an object of these members.
    pub fn object_in(&mut self, key: &str, fields: &[(&str, Scalar)]) -> Result<(), NoMemory>
        ensures { OnOk result (self.new ≡ self.old ++ json_tokens (json_object
            ((key.now, json_object (map json_member fields.now)) ∷ []))) }
    {
        self.writer.begin_object()?;
        self.writer.key(key)?;
        self.object(fields)?;
        self.writer.end_object()?;
        Ok(())
    }

    /// The beginning of an array.
    pub fn begin_array(&mut self) -> Result<(), NoMemory>
        ensures { OnOk result (self.new ≡ self.old ++ begin_array ∷ []) }
    {
        self.writer.begin_array()?;
        Ok(())
    }

    /// The end of an array.
    pub fn end_array(&mut self) -> Result<(), NoMemory>
        ensures { OnOk result (self.new ≡ self.old ++ end_array ∷ []) }
    {
        self.writer.end_array()?;
        Ok(())
    }

    /// The beginning of an object: these members, and one that is an array.
    pub fn open(&mut self, fields: &[(&str, Scalar)], key: &str) -> Result<(), NoMemory>
        ensures { OnOk result (self.new ≡ self.old ++ opening fields.now key.now) }
    {
        self.writer.begin_object()?;
        self.fields(fields)?;
        self.writer.key(key)?;
        self.writer.begin_array()?;
        Ok(())
    }

    /// The end of an array that is the last member of an object.
    pub fn close(&mut self) -> Result<(), NoMemory>
        ensures { OnOk result (self.new ≡ self.old ++ closing) }
    {
        self.writer.end_array()?;
        self.writer.end_object()?;
        Ok(())
    }

    /// The end of an array, and the key of one that follows it.
    pub fn next(&mut self, key: &str) -> Result<(), NoMemory>
        ensures { OnOk result (self.new ≡ self.old ++ then_array key.now) }
    {
        self.writer.end_array()?;
        self.writer.key(key)?;
        self.writer.begin_array()?;
        Ok(())
    }

    /// The text.
    pub fn into_text(self) -> Bytes
        ensures { result ≡ print self }
    {
        Bytes::from_vec(self.writer.into_inner())
    }

    /// The text, and the end of its line.
    pub fn into_line(self) -> Result<Bytes, NoMemory>
        ensures { IfOk result (λ text. text ≡ print self ++ codes "\n") }
    {
        let mut text = self.writer.into_inner();
        text.push(b'\n')?;
        Ok(Bytes::from_vec(text))
    }
}
