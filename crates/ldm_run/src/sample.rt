//! The sample: a script from a seed, done to a group of three images in memory.
ghost use Rattle.std.specs.Prelude.{◌≡◌, ◌==◌, ◌≤◌, count_by, length, IfOk, string_bytes};
ghost use Rattle.ldm_copy.specs.declared.found.Found.{Found};
ghost use Rattle.ldm_vectors.specs.Script.{script_of};
ghost use Rattle.ldm_words.specs.declared.job.Job.TheVariants as jobs;
ghost use Rattle.ldm_words.specs.declared.status.Status.{Status as Ending};
ghost use Rattle.ldm_run.specs.Runs.{DoesJob};
ghost use Rattle.ldm_run.specs.Sample.{text_of_counts, text_of_sample, text_of_summary};
ghost use Rattle.ldm_run.specs.Sample.{IsSampleAnswer, IsSampleHost, IsSampleStart};

use crate::running::edit;
use ldm_bytes::{Bytes, NoMemory};
use ldm_edits::sequence_counts_lines;
use ldm_found::find_group;
use ldm_host::Host;
use ldm_look::say_made;
use ldm_memory::MemoryHost;
use ldm_vectors::{sample_images, sample_script};
use ldm_words::{Format, Status};
use std::alloc::Global;

// A host of three sample images, with the sample script of a seed still to be heard.
fn start_host(alloc: Global, seed: u64) -> Result<MemoryHost, NoMemory>
    ensures starts { IfOk result (λ host. (found : Found) × IsSampleStart seed found host) }
    ensures short { IfOk result (λ _. length (script_of seed) ≤ 20000) }
{
    let images = sample_images(alloc, 3, 512)?;
    let script = sample_script(alloc, seed)?;
    Ok(MemoryHost::new(alloc, images, script)?)
}

/// Does the sample script of a seed to the group of three sample images, in memory, as an edit.
pub fn sample_host(alloc: Global, seed: u64) -> Result<MemoryHost, NoMemory>
    ensures { IfOk result (λ host. IsSampleHost seed host) }
{
    let mut host = start_host(alloc, seed)?;
    match edit(alloc, &mut host, &Format::Lines) {
        Status::Done | Status::Refused if host.dry() == 0 => Ok(host),
        _ => Err(NoMemory),
    }
}

// How many lines a text has.
fn count_lines(text: &[u8]) -> u64
    ensures { result ≡ count_by (λ b. b == 0x0A) text.now }
{
    text.iter().filter(|b| **b == b'\n').count() as u64
}

fn counts_text(alloc: Global, seed: u64, done: u64, refused: u64) -> Result<String, NoMemory>
    ensures { IfOk result (λ text. string_bytes text ≡ text_of_counts seed done refused) }
{
    Ok(format!(in alloc; "sample {seed} ok {done} refused {refused}")?)
}

fn group_text(alloc: Global, seq: u64, need: u64, room: u64) -> Result<String, NoMemory>
    ensures { IfOk result (λ text. string_bytes text ≡ text_of_sample seq need room) }
{
    Ok(format!(in alloc; " sequence {seq} blocks {need} of {room}\n")?)
}

// The line that says how many lines of the script were done and refused, and what the group is
// then.
fn summary_text(
    alloc: Global,
    seed: u64,
    done: u64,
    refused: u64,
    seq: u64,
    need: u64,
    room: u64,
) -> Result<Bytes, NoMemory>
    ensures { IfOk result (λ text. text ≡ text_of_summary seed done refused seq need room) }
{
    let mut text = counts_text(alloc, seed, done, refused)?.into_bytes();
    text.extend_from_slice(group_text(alloc, seq, need, room)?.as_bytes())?;
    Ok(Bytes::from_vec(text))
}

// The summary of what such a host said and holds. The group began at sequence 7, and each line that
// was done took it one further.
fn summarize(alloc: Global, seed: u64, host: MemoryHost) -> Result<Bytes, NoMemory>
    requires { IsSampleHost seed host }
    ensures { IfOk result (λ text. IsSampleAnswer seed (text, Ending.Done)) }
{
    let mut host = host;
    let replies = count_lines(host.said());
    let Ok(found) = find_group(alloc, &mut host) else {
        return Err(NoMemory);
    };
    sequence_counts_lines();
    let seq = found.db.header().seq;
    let done = seq - 7;
    summary_text(
        alloc,
        seed,
        done,
        replies - done,
        seq,
        found.db.need(),
        found.db.room(),
    )
}

// The summary of the sample of a seed.
fn sample_text(alloc: Global, seed: u64) -> Result<Bytes, NoMemory>
    ensures { IfOk result (λ text. IsSampleAnswer seed (text, Ending.Done)) }
{
    let host = sample_host(alloc, seed)?;
    summarize(alloc, seed, host)
}

/// sample SEED
pub(crate) fn sample<H: Host>(alloc: Global, host: &mut H, seed: u64) -> Status
    ensures { DoesJob H.tells_disks H.tells_talk (jobs.Sample seed) (H.seen host.old)
        (H.seen host.new) result }
{
    match sample_text(alloc, seed) {
        Err(NoMemory) => Status::NoMemory,
        Ok(text) => say_made(host, Ok(text), Status::Done),
    }
}
