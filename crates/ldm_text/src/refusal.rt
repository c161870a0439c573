//! The line of a refusal.
ghost use Rattle.std.specs.Prelude.{◌≡◌, IfOk};
ghost use Rattle.ldm_text.specs.Texts.{text_of_image_fault, text_of_refusal};

use crate::parts::{Part, text_of};
use ldm_bytes::{Bytes, NoMemory};
use std::alloc::Global;

/// The text of a fault that an image has. Images are counted from 0.
pub fn image_fault_text(alloc: Global, image: usize, fault: &[u8]) -> Result<Bytes, NoMemory>
    ensures { IfOk result (λ text. text ≡ text_of_image_fault image fault.now) }
{
    let parts = [
        Part::Word(b"image "),
        Part::Number(image as u64),
        Part::Word(b": "),
        Part::Word(fault),
    ];
    text_of(alloc, &parts)
}

/// The line that refuses with the text of a fault.
pub fn refusal_text(alloc: Global, fault: &[u8]) -> Result<Bytes, NoMemory>
    ensures { IfOk result (λ text. text ≡ text_of_refusal fault.now) }
{
    let parts = [
        Part::Word(b"refused: "),
        Part::Word(fault),
        Part::Word(b"\n"),
    ];
    text_of(alloc, &parts)
}
