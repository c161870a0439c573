//! The text of a copy: a line for its header and for each record.
ghost use Rattle.std.specs.Prelude.{◌≡◌, ◌++◌, OnOk, IfOk, flat_map};
ghost use Rattle.ldm_text.specs.Records.{type_of, record_name, text_of_record, text_of_header};
ghost use Rattle.ldm_text.specs.Records.{text_of_copy};

use crate::growing::Text;
use crate::parts::{Part, push_parts};
use ldm_bytes::{Bytes, NoMemory};
use ldm_copy::CopyState;
use ldm_group::{Db, id_of, own_len};
use ldm_records::{DiskForm, GroupForm, Record};
use ldm_vmdb::Header;
use std::alloc::Global;

fn type_of(r: &Record) -> &'static [u8]
    ensures { result.now ≡ type_of r.now }
{
    match r {
        Record::Volume(_) => b"vol5",
        Record::Component(_) => b"cmp3",
        Record::Partition(_) => b"prt3",
        Record::Disk(d) => match d.form {
            DiskForm::V3 { .. } => b"dsk3",
            DiskForm::V4 { .. } => b"dsk4",
        },
        Record::Group(g) => match g.form {
            GroupForm::V3 { .. } => b"dgr3",
            GroupForm::V4 { .. } => b"dgr4",
        },
    }
}

fn name_of(r: &Record) -> &[u8]
    ensures { result.now ≡ record_name r.now }
{
    match r {
        Record::Volume(v) => v.head.name.as_slice(),
        Record::Component(c) => c.head.name.as_slice(),
        Record::Partition(p) => p.head.name.as_slice(),
        Record::Disk(d) => d.head.name.as_slice(),
        Record::Group(g) => g.head.name.as_slice(),
    }
}

// The line of a record.
#[tactic(auto, unfolding(crate::specs::Records::text_of_record))]
fn push_record(text: &mut Text, r: &Record) -> Result<(), NoMemory>
    ensures { OnOk result (text.new ≡ text.old ++ text_of_record r.now) }
{
    let parts = [
        Part::Word(type_of(r)),
        Part::Word(b" "),
        Part::Number(id_of(r)),
        Part::Word(b" "),
        Part::Name(name_of(r)),
        Part::Word(b" "),
        Part::Number(own_len(r) as u64),
        Part::Word(b"\n"),
    ];
    push_parts(text, &parts)
}

// The line of a header.
#[tactic(auto, unfolding(crate::specs::Records::text_of_header))]
fn push_header(text: &mut Text, header: &Header) -> Result<(), NoMemory>
    ensures { OnOk result (text.new ≡ text.old ++ text_of_header header.now) }
{
    let parts = [
        Part::Word(b"vmdb "),
        Part::Name(header.name.as_slice()),
        Part::Word(b" "),
        Part::Guid(header.guid),
        Part::Word(b" sequence "),
        Part::Number(header.seq),
        Part::Word(b" last "),
        Part::Number(u64::from(header.last)),
        Part::Word(b"\n"),
    ];
    push_parts(text, &parts)
}

// The lines of records.
fn push_records(text: &mut Text, records: &[Record]) -> Result<(), NoMemory>
    ensures { OnOk result (text.new ≡ text.old ++ flat_map text_of_record records.now) }
{
    for r in records {
        push_record(text, r)?;
    }
    Ok(())
}

// The text of a valid copy.
fn database_text(alloc: Global, db: &Db) -> Result<Bytes, NoMemory>
    ensures { IfOk result (λ text. text ≡ text_of_header db.now.header
        ++ flat_map text_of_record db.now.records) }
{
    let mut text = Text::new(alloc);
    push_header(&mut text, db.header())?;
    push_records(&mut text, db.as_slice())?;
    Ok(text.into_bytes())
}

/// The text of one copy of the database: its header and its records, each with the length of its
/// own spelling in bytes.
pub fn records_text(alloc: Global, state: &CopyState) -> Result<Bytes, NoMemory>
    ensures { IfOk result (λ text. text ≡ text_of_copy state.now) }
{
    match state {
        CopyState::Closed => Bytes::from_slice(alloc, b"closed\n"),
        CopyState::Valid(db) => database_text(alloc, db),
    }
}
