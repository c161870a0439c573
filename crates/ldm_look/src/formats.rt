//! What is said, in the format that was asked for.
ghost use Rattle.std.specs.Prelude.{◌≡◌, IfOk, All};
ghost use Rattle.ldm_group.specs.Partitions.{EndsInRange};
ghost use Rattle.ldm_group.specs.Room.{IsFitting};
ghost use Rattle.ldm_look.specs.Looks.{said_label, said_copy, said_scan, said_group, said_check};

use crate::check_json::check_line;
use crate::check_text::check_text;
use crate::label_json::label_line;
use crate::records_json::records_line;
use crate::scan_text::{scan_line, scan_text};
use crate::scanned::Scanned;
use crate::show_json::show_json;
use crate::show_text::show_text;
use ldm_bytes::{Bytes, NoMemory};
use ldm_copy::{CopyState, Found};
use ldm_label::{GoodCopies, Label};
use ldm_text::{label_text, records_text};
use ldm_words::Format;
use std::alloc::Global;

/// What is said of a label.
pub(crate) fn said_label(alloc: Global, format: &Format, label: &Label) -> Result<Bytes, NoMemory>
    ensures { IfOk result (λ text. text ≡ said_label format.now label.now) }
{
    match format {
        Format::Lines => label_text(alloc, label),
        Format::Json(_) => label_line(alloc, label),
    }
}

/// What is said of a copy of the database.
pub(crate) fn said_copy(
    alloc: Global,
    format: &Format,
    state: &CopyState,
) -> Result<Bytes, NoMemory>
    ensures { IfOk result (λ text. text ≡ said_copy format.now state.now) }
{
    match format {
        Format::Lines => records_text(alloc, state),
        Format::Json(_) => records_line(alloc, state),
    }
}

/// What is said of images that were scanned.
pub(crate) fn said_scan(
    alloc: Global,
    format: &Format,
    scanned: &[Scanned],
) -> Result<Bytes, NoMemory>
    ensures { IfOk result (λ text. text ≡ said_scan format.now scanned.now) }
{
    match format {
        Format::Lines => scan_text(alloc, scanned),
        Format::Json(paths) => scan_line(alloc, paths, scanned),
    }
}

/// What shows a group.
pub(crate) fn said_group(alloc: Global, format: &Format, found: &Found) -> Result<Bytes, NoMemory>
    requires fitting { All IsFitting found.now.db.records }
    requires ends { All EndsInRange found.now.db.records }
    ensures { IfOk result (λ text. text ≡ said_group format.now found.now) }
{
    match format {
        Format::Lines => show_text(alloc, found),
        Format::Json(paths) => show_json(alloc, paths, found),
    }
}

/// What is said of the images of a group, which have so many good copies each, and of whether it may
/// be edited.
pub fn said_check(
    alloc: Global,
    format: &Format,
    goods: &[GoodCopies],
    found: &Found,
) -> Result<Bytes, NoMemory>
    ensures { IfOk result (λ text. text ≡ said_check format.now goods.now found.now) }
{
    match format {
        Format::Lines => check_text(alloc, found),
        Format::Json(paths) => check_line(alloc, paths, goods, found),
    }
}
