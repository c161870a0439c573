//! What a repair says.
ghost use Rattle.std.specs.Prelude.{◌≡◌, IfOk};
ghost use Rattle.ldm_repair.specs.Repairing.{damaged_label, damaged_copies, text_of_repair};

use ldm_bytes::{Bytes, NoMemory};
use ldm_damage::Damage;
use ldm_label::LabelFault;
use ldm_text::{Text, push_number};
use std::alloc::Global;

/// The first image whose label is damaged, and its fault.
#[tactic(auto, using(crate::proofs::TextLaws::damaged_none))]
pub(crate) fn damaged_label(damages: &[Damage]) -> Option<(usize, LabelFault)>
    ensures { result ≡ damaged_label damages.now }
{
    for (image, damage) in damages.iter().enumerate() {
        if let Some(fault) = damage.label {
            return Some((image, fault));
        }
    }
    None
}

// How many copies are damaged.
fn damaged_copies(damages: &[Damage]) -> u64
    ensures { result ≡ damaged_copies damages.now }
{
    let mut copies: u64 = 0;
    for damage in damages {
        if damage.copy.is_some() {
            copies += 1;
        }
    }
    copies
}

/// ok S repaired N
pub(crate) fn repair_text(alloc: Global, seq: u64, damages: &[Damage]) -> Result<Bytes, NoMemory>
    ensures { IfOk result (λ text. text ≡ text_of_repair seq (damaged_copies damages.now)) }
{
    let mut text = Text::new(alloc);
    push_number(&mut text, b"ok ", seq)?;
    push_number(&mut text, b" repaired ", damaged_copies(damages))?;
    text.push(b"\n")?;
    Ok(text.into_bytes())
}
