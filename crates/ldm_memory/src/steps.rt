//! What each call of a host in memory adds to what it keeps.
// What the calls of a host in memory do, one by one.
ghost use Rattle.std.specs.Prelude.{◌≡◌, ◌≤◌, ◌<◌, ◌+◌, ◌&&◌, length, IfOk, OnErr, is_ok, not};
ghost use Rattle.std.specs.Prelude.{if◌then◌else◌};
ghost use Rattle.ldm_memory.specs.declared.outcome.Outcome.TheVariants.{Whole};
ghost use Rattle.ldm_host.specs.Images.{items_of};
ghost use Rattle.ldm_memory.specs.Plan.{next};
ghost use Rattle.ldm_host.specs.Seen.{image};
ghost use Rattle.ldm_memory.specs.Steps.{AddsCall, EndsRead, IsHear, IsSay, IsSayOf, IsSync, IsWrite};
ghost use Rattle.ldm_memory.specs.Steps.{IsWriteOf, Moved, held_after, is_whole, bytes_placed};
ghost use Rattle.ldm_memory.specs.Steps.{said_after, said_more};

use crate::call::Call;
use crate::outcome::{Outcome, put_in};
use ldm_host::{DiskRange, Failed};
use std::alloc::Global;

// Each of these says whether it found memory.

// Keeps a call in the list.
fn keep(calls: &mut Vec<Call>, call: Call) -> bool
    ensures { AddsCall result (λ kept. kept ≡ call) calls.old.items calls.new.items }
{
    calls.push(call).is_ok()
}

// Keeps a write that took these bytes.
fn keep_write(
    calls: &mut Vec<Call>,
    alloc: Global,
    disk: usize,
    at: usize,
    taken: &[u8],
    asked: usize,
) -> bool
    ensures { AddsCall result (IsWriteOf disk at taken.now asked) calls.old.items calls.new.items }
{
    match taken.to_vec(alloc) {
        Ok(bytes) => keep(
            calls,
            Call::Write {
                disk,
                at,
                bytes,
                asked,
            },
        ),
        Err(_) => false,
    }
}

// Takes the bytes at the front of a range.
fn take_bytes(
    calls: &mut Vec<Call>,
    held: &mut Vec<Vec<u8>>,
    alloc: Global,
    disk: usize,
    at: usize,
    taken: &[u8],
    asked: usize,
) -> bool
    requires disk { disk < length held.old.items }
    requires range { at + asked ≤ length (image (items_of held.old.items) disk) }
    requires short { length taken.now ≤ asked }
    ensures calls { AddsCall result (IsWriteOf disk at taken.now asked) calls.old.items
        calls.new.items }
    ensures held { items_of held.new.items ≡ bytes_placed result disk at taken.now
        (items_of held.old.items) }
{
    if keep_write(calls, alloc, disk, at, taken, asked) {
        put_in(held, disk, at, taken);
        true
    } else {
        false
    }
}

/// Takes so many of the bytes as the outcome says.
pub fn write_part(
    calls: &mut Vec<Call>,
    held: &mut Vec<Vec<u8>>,
    alloc: Global,
    outcome: Outcome,
    disk: usize,
    at: usize,
    bytes: &[u8],
) -> bool
    requires disk { disk < length held.old.items }
    requires range { at + length bytes.now ≤ length (image (items_of held.old.items) disk) }
    ensures calls { AddsCall result (IsWrite outcome disk at bytes.now) calls.old.items
        calls.new.items }
    ensures held { items_of held.new.items ≡ held_after outcome result disk at bytes.now
        (items_of held.old.items) }
{
    let asked = bytes.len();
    match outcome {
        Outcome::Whole => take_bytes(calls, held, alloc, disk, at, bytes, asked),
        Outcome::Half => take_bytes(calls, held, alloc, disk, at, &bytes[..asked / 2], asked),
        Outcome::Nothing => keep(calls, Call::Nothing),
    }
}

/// Keeps a sync, where the outcome is whole.
pub fn sync_part(calls: &mut Vec<Call>, outcome: Outcome, disk: usize) -> bool
    ensures { AddsCall result (IsSync outcome disk) calls.old.items calls.new.items }
{
    match outcome {
        Outcome::Whole => keep(calls, Call::Sync { disk }),
        _ => keep(calls, Call::Nothing),
    }
}

// Keeps that these bytes were said.
fn keep_said(calls: &mut Vec<Call>, alloc: Global, said: &[u8]) -> bool
    ensures { AddsCall result (IsSayOf said.now) calls.old.items calls.new.items }
{
    match said.to_vec(alloc) {
        Ok(bytes) => keep(calls, Call::Say { bytes }),
        Err(_) => false,
    }
}

// Appends the bytes to what was said.
fn say_bytes(calls: &mut Vec<Call>, said: &mut Vec<u8>, alloc: Global, bytes: &[u8]) -> bool
    ensures calls { AddsCall result (IsSayOf bytes.now) calls.old.items calls.new.items }
    ensures said { said.new.items ≡ said_more result bytes.now said.old.items }
{
    if said.reserve(bytes.len()).is_ok() && keep_said(calls, alloc, bytes) {
        let _ = said.extend_from_slice(bytes);
        true
    } else {
        false
    }
}

/// Appends so many of the bytes to what was said as the outcome says.
pub fn say_part(
    calls: &mut Vec<Call>,
    said: &mut Vec<u8>,
    alloc: Global,
    outcome: Outcome,
    bytes: &[u8],
) -> bool
    ensures calls { AddsCall result (IsSay outcome bytes.now) calls.old.items calls.new.items }
    ensures said { said.new.items ≡ said_after outcome result bytes.now said.old.items }
{
    match outcome {
        Outcome::Whole => say_bytes(calls, said, alloc, bytes),
        Outcome::Half => say_bytes(calls, said, alloc, &bytes[..bytes.len() / 2]),
        Outcome::Nothing => keep(calls, Call::Nothing),
    }
}

/// Moves what comes next of the script to the front of the buffer, where the outcome is whole. It
/// fails where it finds no memory.
pub fn hear_part(
    calls: &mut Vec<Call>,
    heard: &mut usize,
    script: &Vec<u8>,
    outcome: Outcome,
    buf: &mut [u8],
) -> Result<usize, Failed>
    requires some { 0 < length buf.old }
    requires fits { heard.old ≤ length script.now.items }
    ensures count { IfOk result (λ n. n ≤ length buf.old) }
    ensures taken { outcome ≡ Whole → IfOk result
        (λ n. Moved script.now.items heard.old heard.new n buf.new) }
    ensures calls { AddsCall (is_ok result) (IsHear outcome heard.old heard.new) calls.old.items
        calls.new.items }
    ensures fits { heard.new ≤ length script.now.items }
    ensures stays { OnErr result (heard.new ≡ heard.old) }
{
    let Outcome::Whole = outcome else {
        return if keep(calls, Call::Nothing) {
            Ok(0)
        } else {
            Err(Failed)
        };
    };
    let count = (script.len() - *heard).min(buf.len());
    if !keep(calls, Call::Hear { count }) {
        return Err(Failed);
    }
    buf[..count].copy_from_slice(&script[*heard..*heard + count]);
    *heard += count;
    Ok(count)
}

/// Ends a read. One that is to fail is kept in the account, and counted. Where there is no memory
/// for the account it is Ok.
pub fn end_read(
    failed: &mut Vec<DiskRange>,
    range: DiskRange,
    fails: bool,
    faults: &mut u64,
    dry: &mut u64,
) -> Result<(), Failed>
    ensures is { EndsRead fails (is_ok result) range failed.old.items failed.new.items faults.old
        faults.new dry.old dry.new }
    ensures rises { faults.old ≤ faults.new }
{
    if !fails {
        return Ok(());
    }
    if failed.push(range).is_err() {
        *dry = dry.saturating_add(1);
        return Ok(());
    }
    *faults = faults.saturating_add(1);
    Err(Failed)
}

/// Ends a call, and counts that it failed, or found no memory.
pub fn end_call(
    outcome: Outcome,
    found: bool,
    faults: &mut u64,
    dry: &mut u64,
) -> Result<(), Failed>
    ensures ok { is_ok result ≡ is_whole outcome && found }
    ensures faults { faults.new ≡ (if is_ok result then faults.old else next faults.old) }
    ensures rises { faults.old ≤ faults.new }
    ensures dry { dry.new ≡ (if not found then next dry.old else dry.old) }
{
    if !found {
        *dry = dry.saturating_add(1);
    }
    match outcome {
        Outcome::Whole if found => Ok(()),
        _ => {
            *faults = faults.saturating_add(1);
            Err(Failed)
        }
    }
}
