//! The lines of components and partitions.
ghost use Rattle.std.specs.Prelude.{◌≡◌, ◌==◌, ◌++◌, ℕ, [], nat_eq, OnOk, IfOk, unwrap_or, codes};
ghost use Rattle.std.specs.Prelude.{if◌then◌else◌};
ghost use Rattle.std.specs.HashMap as hash;
ghost use Rattle.ldm_look.specs.Volumes.{text_of_head, text_of_index, text_of_partition};
ghost use Rattle.ldm_look.specs.Volumes.{text_of_partitions, text_of_striping};
ghost use Rattle.ldm_look.specs.Volumes.{text_of_layout, text_of_component};
ghost use Rattle.ldm_look.specs.Volumes.{text_of_components};

use ldm_bytes::NoMemory;
use ldm_records::{Component, Head, Partition, Record, Striping};
use ldm_text::{Part, Text, push_name, push_number, push_parts};
use std::alloc::Global;
use std::collections::HashMap;

// A word, and then ID NAME.
#[tactic(auto, unfolding(crate::specs::Volumes::text_of_head))]
pub(crate) fn push_head(text: &mut Text, word: &[u8], head: &Head) -> Result<(), NoMemory>
    ensures { OnOk result (text.new ≡ text.old ++ text_of_head word.now head.now) }
{
    push_number(text, word, head.id)?;
    push_name(text, b" ", head.name.as_slice())
}

// index I, where it is there, and the end of the line
fn push_end(text: &mut Text, index: Option<u64>) -> Result<(), NoMemory>
    ensures { OnOk result (text.new ≡ text.old ++ (text_of_index index ++ codes "\n")) }
{
    match index {
        Some(index) => {
            let parts = [
                Part::Word(b" index "),
                Part::Number(index),
                Part::Word(b"\n"),
            ];
            push_parts(text, &parts)
        }
        None => text.push(b"\n"),
    }
}

// The line of a partition.
#[tactic(auto, unfolding(crate::specs::Volumes::text_of_extent, crate::specs::Volumes::text_of_partition))]
fn push_partition(text: &mut Text, p: &Partition) -> Result<(), NoMemory>
    ensures { OnOk result (text.new ≡ text.old ++ text_of_partition p.now) }
{
    push_head(text, b"    partition ", &p.head)?;
    let extent = [
        Part::Word(b" disk "),
        Part::Number(p.disk),
        Part::Word(b" start "),
        Part::Number(p.start),
        Part::Word(b" size "),
        Part::Number(p.size),
        Part::Word(b" offset "),
        Part::Number(p.offset),
    ];
    push_parts(text, &extent)?;
    push_end(text, p.index)
}

// Adds the line of a partition to those of its component.
fn add_partition(
    alloc: Global,
    lines: &mut HashMap<u64, Text>,
    p: &Partition,
) -> Result<(), NoMemory>
    ensures { OnOk result ((id : ℕ) → unwrap_or (hash.get nat_eq lines.new id) []
        ≡ unwrap_or (hash.get nat_eq lines.old id) []
        ++ (if p.now.parent == id then text_of_partition p.now else [])) }
{
    let text = lines.entry(p.parent)?.or_insert(Text::new(alloc));
    push_partition(text, p)
}

/// The lines of the partitions of each component.
pub(crate) fn partition_lines(
    alloc: Global,
    records: &[Record],
) -> Result<HashMap<u64, Text>, NoMemory>
    ensures { IfOk result (λ m. (id : ℕ) → unwrap_or (hash.get nat_eq m id) []
        ≡ text_of_partitions records.now id) }
{
    let mut lines = HashMap::new(alloc);
    for r in records {
        if let Record::Partition(p) = r {
            add_partition(alloc, &mut lines, p)?;
        }
    }
    Ok(lines)
}

/// The lines of this id.
pub(crate) fn lines_of(lines: &HashMap<u64, Text>, id: u64) -> &[u8]
    ensures { result.now ≡ unwrap_or (hash.get nat_eq lines.now id) [] }
{
    match lines.get(&id) {
        Some(text) => text.as_slice(),
        None => b"",
    }
}

// WORD CHUNK COLUMNS, or the word alone
fn push_striped(text: &mut Text, word: &[u8], striping: Option<Striping>) -> Result<(), NoMemory>
    ensures { OnOk result (text.new ≡ text.old ++ (word.now ++ text_of_striping striping)) }
{
    match striping {
        Some(striping) => {
            let parts = [
                Part::Word(word),
                Part::Word(b" "),
                Part::Number(striping.chunk),
                Part::Word(b" "),
                Part::Number(striping.columns),
            ];
            push_parts(text, &parts)
        }
        None => text.push(word),
    }
}

// stripe CHUNK COLUMNS, raid CHUNK COLUMNS, or basic
#[tactic(auto, unfolding(crate::specs::Volumes::text_of_layout))]
fn push_layout(text: &mut Text, c: &Component) -> Result<(), NoMemory>
    ensures { OnOk result (text.new ≡ text.old ++ text_of_layout c.now.layout c.now.striping) }
{
    match c.layout {
        1 => push_striped(text, b" stripe", c.striping),
        3 => push_striped(text, b" raid", c.striping),
        _ => text.push(b" basic"),
    }
}

// The line of a component, and those of its partitions.
fn push_component(text: &mut Text, c: &Component, partitions: &[u8]) -> Result<(), NoMemory>
    ensures { OnOk result (text.new ≡ text.old ++ text_of_component c.now partitions.now) }
{
    push_head(text, b"  component ", &c.head)?;
    push_layout(text, c)?;
    push_parts(text, &[Part::Word(b"\n"), Part::Word(partitions)])
}

// Adds the text of a component to those of its volume.
fn add_component(
    alloc: Global,
    lines: &mut HashMap<u64, Text>,
    c: &Component,
    partitions: &[u8],
) -> Result<(), NoMemory>
    ensures { OnOk result ((id : ℕ) → unwrap_or (hash.get nat_eq lines.new id) []
        ≡ unwrap_or (hash.get nat_eq lines.old id) []
        ++ (if c.now.parent == id then text_of_component c.now partitions.now else [])) }
{
    let text = lines.entry(c.parent)?.or_insert(Text::new(alloc));
    push_component(text, c, partitions)
}

/// The texts of the components of each volume, by the lines of the partitions of each component.
pub(crate) fn component_lines(
    alloc: Global,
    records: &[Record],
    partitions: &HashMap<u64, Text>,
) -> Result<HashMap<u64, Text>, NoMemory>
    ensures { IfOk result (λ m. (id : ℕ) → unwrap_or (hash.get nat_eq m id) []
        ≡ text_of_components (λ component. unwrap_or (hash.get nat_eq partitions.now component) [])
        records.now id) }
{
    let mut lines = HashMap::new(alloc);
    for r in records {
        if let Record::Component(c) = r {
            add_component(alloc, &mut lines, c, lines_of(partitions, c.head.id))?;
        }
    }
    Ok(lines)
}
