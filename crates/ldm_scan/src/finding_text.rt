//! The lines of what was found of images.
ghost use Rattle.std.specs.Prelude.{◌≡◌, ◌++◌, OnOk, IfOk, codes, decimal};
ghost use Rattle.ldm_scan.specs.Findings.{line_of_finding, text_of_findings};

use crate::finding::Finding;
use ldm_bytes::{Bytes, NoMemory};
use ldm_look::push_scanned_line;
use ldm_text::{Part, Text, push_number, push_parts};
use std::alloc::Global;

// image I cannot open: CAUSE
fn push_unopened(text: &mut Text, image: usize, cause: &[u8]) -> Result<(), NoMemory>
    ensures { OnOk result (text.new ≡ text.old ++ ((codes "image " ++ decimal image)
        ++ (codes " cannot open: " ++ (cause.now ++ codes "\n")))) }
{
    push_number(text, b"image ", image as u64)?;
    let parts = [
        Part::Word(b" cannot open: "),
        Part::Word(cause),
        Part::Word(b"\n"),
    ];
    push_parts(text, &parts)
}

// The line of an image.
fn push_finding(
    alloc: Global,
    text: &mut Text,
    image: usize,
    finding: &Finding,
) -> Result<(), NoMemory>
    ensures { OnOk result (text.new ≡ text.old ++ line_of_finding (image, finding.now)) }
{
    match finding {
        Finding::Unopened(cause) => push_unopened(text, image, cause.as_slice()),
        Finding::Unread => {
            push_number(text, b"image ", image as u64)?;
            text.push(b" cannot read\n")
        }
        Finding::Known(scanned) => push_scanned_line(alloc, text, image, scanned),
    }
}

/// A line for each image.
pub(crate) fn findings_text(alloc: Global, findings: &[Finding]) -> Result<Bytes, NoMemory>
    ensures { IfOk result (λ text. text ≡ text_of_findings findings.now) }
{
    let mut text = Text::new(alloc);
    for (image, finding) in findings.iter().enumerate() {
        push_finding(alloc, &mut text, image, finding)?;
    }
    Ok(text.into_bytes())
}
