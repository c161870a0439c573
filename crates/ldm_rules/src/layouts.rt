//! Rules 12 and 13: volumes with a fault of layout.
ghost use Rattle.std.specs.Prelude.{◌≡◌, List, if◌then◌else◌, not, find, option_copied};
ghost use Rattle.std.specs.Option.{option_map};
ghost use Rattle.ldm_records.specs.declared.types.Record.{Record};
ghost use Rattle.ldm_layout.specs.Volumes.{layout_faults};
ghost use Rattle.ldm_rules.specs.Rules.{first_broken, is_short_fault, has_layout_fault};
ghost use Rattle.ldm_rules.specs.Rules.{passes_layout};

use ldm_layout::{LayoutFault, VolumeFault};

// Whether it is that the volume is larger than its layout, or, where `short` is false, another
// fault.
fn is_of(fault: LayoutFault, short: bool) -> bool
    ensures { result ≡ (if short then is_short_fault fault else not (is_short_fault fault)) }
{
    matches!(fault, LayoutFault::Short) == short
}

fn first_of(faults: &[VolumeFault], short: bool) -> Option<&VolumeFault>
    ensures { option_copied result ≡ find (λ f. if short then is_short_fault f.fault else not
        (is_short_fault f.fault)) faults.now }
{
    faults.iter().find(|f| is_of(f.fault, short))
}

fn volume_in(found: Option<&VolumeFault>) -> Option<u64>
    ensures { result ≡ option_map (λ f. f.volume) (option_copied found.entry) }
{
    found.map(|f| f.volume)
}

/// The least volume with a layout fault other than that it is larger than its layout.
pub fn faulty(faults: &[VolumeFault]) -> Option<u64>
    ensures { (records : List Record) → faults.now ≡ layout_faults records
        → result ≡ first_broken (has_layout_fault records) records }
{
    volume_in(first_of(faults, false))
}

/// The least volume that is larger than its layout.
pub fn too_large(faults: &[VolumeFault]) -> Option<u64>
    ensures { (records : List Record) → faults.now ≡ layout_faults records
        → result ≡ first_broken (passes_layout records) records }
{
    volume_in(first_of(faults, true))
}
