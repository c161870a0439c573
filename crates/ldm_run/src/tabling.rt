//! `table`: the device-mapper tables that make devices of volumes.
ghost use Rattle.std.specs.Prelude.{◌≡◌, ◌<◌, length, IfOk};
ghost use Rattle.ldm_found.specs.Facts.{IsSoundGroup, LieOn};
ghost use Rattle.ldm_dump.specs.Runs.{LiesOn, RowsLieOn};
ghost use Rattle.ldm_words.specs.declared.job.Job.TheVariants as jobs;
ghost use Rattle.ldm_table.specs.Faults.{text_of_fault};
ghost use Rattle.ldm_table.specs.Groups.{text_of_tables_fault};
ghost use Rattle.ldm_text.specs.Texts.{text_of_refusal};
ghost use Rattle.ldm_look.specs.Said.{HasAnswer};
ghost use Rattle.ldm_run.specs.Runs.{DoesJob};
ghost use Rattle.ldm_run.specs.Tabling.{table_answer, tables_answer, volume_table};

use ldm_bytes::{Bytes, NoMemory};
use ldm_dump::volumes_lie_on_images;
use ldm_found::Found;
use ldm_host::Host;
use ldm_layout::Plan;
use ldm_look::{open_group, say_made};
use ldm_records::Volume;
use ldm_rules::sound_plan;
use ldm_table::{TableFault, TablesFault, fault_text, table_text, tables_fault_text, tables_text};
use ldm_text::refusal_text;
use ldm_words::{Names, Status};
use std::alloc::Global;

// The line that refuses for a fault of a table.
fn fault_refusal(alloc: Global, fault: TableFault) -> Result<Bytes, NoMemory>
    ensures { IfOk result (λ line. line ≡ text_of_refusal (text_of_fault fault)) }
{
    let text = fault_text(alloc, fault)?;
    refusal_text(alloc, text.as_slice())
}

// What is answered of a volume that is laid out so.
fn table_of<H: Host>(
    alloc: Global,
    host: &H,
    found: &Found,
    volume: &Volume,
    plan: &Plan,
    words: &Names,
) -> Result<(Bytes, Status), NoMemory>
    requires lies { LiesOn found.now plan.now (H.seen host.now).sizes }
    requires rows { RowsLieOn found.now plan.now (H.seen host.now).sizes }
    ensures is { IfOk result (λ answer. (answer.0, answer.1)
        ≡ volume_table words.now found.now volume.now plan.now) }
    ensures status { IfOk result (λ answer. HasAnswer answer.1) }
{
    match table_text(alloc, host, found, volume, plan, words)? {
        Ok(text) => Ok((text, Status::Done)),
        Err(fault) => Ok((fault_refusal(alloc, fault)?, Status::Refused)),
    }
}

// What is answered on a group: the line that makes the device of the volume of this name, or that
// of the refusal.
fn tabled<H: Host>(
    alloc: Global,
    host: &H,
    found: &Found,
    name: &[u8],
    words: &Names,
) -> Result<(Bytes, Status), NoMemory>
    requires sound { IsSoundGroup found.now }
    requires lies { LieOn found.now.labels (H.seen host.now).sizes }
    ensures is { IfOk result (λ answer. (answer.0, answer.1)
        ≡ table_answer name.now words.now found.now) }
    ensures status { IfOk result (λ answer. HasAnswer answer.1) }
{
    let Some(volume) = found.db.volume_named(name) else {
        return Ok((refusal_text(alloc, b"no volume")?, Status::Refused));
    };
    let plan = sound_plan(alloc, &found.db, &found.labels, volume)?;
    volumes_lie_on_images();
    table_of(alloc, host, found, volume, &plan, words)
}

/// table VOLUME on IMAGE...
pub(crate) fn table<H: Host>(alloc: Global, host: &mut H, name: &Bytes, words: &Names) -> Status
    requires { 0 < length (H.seen host.old).sizes }
    ensures { DoesJob H.tells_disks H.tells_talk (jobs.Table name.now words.now) (H.seen host.old)
        (H.seen host.new) result }
{
    let found = match open_group(alloc, host) {
        Err(status) => return status,
        Ok(found) => found,
    };
    match tabled(alloc, host, &found, name.as_slice(), words) {
        Err(NoMemory) => Status::NoMemory,
        Ok((text, status)) => say_made(host, Ok(text), status),
    }
}

// The line that refuses for a fault of all tables.
fn group_refusal(alloc: Global, fault: &TablesFault) -> Result<Bytes, NoMemory>
    ensures { IfOk result (λ line. line ≡ text_of_refusal (text_of_tables_fault fault.now)) }
{
    let text = tables_fault_text(alloc, fault)?;
    refusal_text(alloc, text.as_slice())
}

// What is answered on a group: the line that makes the devices of all volumes that have a table, or
// that of the refusal.
fn all_tabled<H: Host>(
    alloc: Global,
    host: &H,
    found: &Found,
    words: &Names,
) -> Result<(Bytes, Status), NoMemory>
    requires sound { IsSoundGroup found.now }
    requires lies { LieOn found.now.labels (H.seen host.now).sizes }
    ensures is { IfOk result (λ answer. (answer.0, answer.1)
        ≡ tables_answer words.now found.now) }
    ensures status { IfOk result (λ answer. HasAnswer answer.1) }
{
    match tables_text(alloc, host, found, words)? {
        Ok(text) => Ok((text, Status::Done)),
        Err(fault) => Ok((group_refusal(alloc, &fault)?, Status::Refused)),
    }
}

/// table on IMAGE...
pub(crate) fn tables<H: Host>(alloc: Global, host: &mut H, words: &Names) -> Status
    requires { 0 < length (H.seen host.old).sizes }
    ensures { DoesJob H.tells_disks H.tells_talk (jobs.Tables words.now) (H.seen host.old)
        (H.seen host.new) result }
{
    let found = match open_group(alloc, host) {
        Err(status) => return status,
        Ok(found) => found,
    };
    match all_tabled(alloc, host, &found, words) {
        Err(NoMemory) => Status::NoMemory,
        Ok((text, status)) => say_made(host, Ok(text), status),
    }
}
