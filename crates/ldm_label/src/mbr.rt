//! The master boot record.
ghost use Rattle.std.specs.Prelude.{◌≡◌};
ghost use Rattle.ldm_label.specs.Answer.{answer};
ghost use Rattle.ldm_label.specs.Fields.{has_signature, has_ldm_entry, is_protective};
ghost use Rattle.ldm_label.specs.LabelOf.{mbr_faults, style_of};

use crate::{LabelFault, Style};

#[tactic(auto, unfolding(crate::specs::Fields::has_signature))]
fn has_signature_test(mbr: &[u8; 512]) -> bool
    ensures { result ≡ has_signature mbr.now }
{
    mbr[0x1FE] == 0x55 && mbr[0x1FF] == 0xAA
}

#[tactic(auto, unfolding(crate::specs::Fields::has_ldm_entry))]
fn has_ldm_entry_test(mbr: &[u8; 512]) -> bool
    ensures { result ≡ has_ldm_entry mbr.now }
{
    mbr[0x1C2] == 0x42 || mbr[0x1D2] == 0x42 || mbr[0x1E2] == 0x42 || mbr[0x1F2] == 0x42
}

/// The first entry has the type of a protective MBR, which stands in front of a GPT.
#[tactic(auto, unfolding(crate::specs::Fields::is_protective))]
pub fn is_protective(mbr: &[u8; 512]) -> bool
    ensures { result ≡ is_protective mbr.now }
{
    mbr[0x1C2] == 0xEE
}

/// How a disk with this MBR is divided, or the first fault of the MBR.
#[tactic(auto, unfolding(crate::specs::LabelOf::mbr_faults))]
pub fn check_mbr(mbr: &[u8; 512]) -> Result<Style, LabelFault>
    ensures { result ≡ answer (mbr_faults mbr.now) (style_of mbr.now) }
{
    if !has_signature_test(mbr) {
        return Err(LabelFault::NoSignature);
    }
    if has_ldm_entry_test(mbr) {
        return Ok(Style::Mbr);
    }
    if !is_protective(mbr) {
        return Err(LabelFault::NoLdmEntry);
    }
    Ok(Style::Gpt)
}
