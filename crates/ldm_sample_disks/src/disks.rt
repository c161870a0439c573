//! Labels of the disks of the sample groups.
ghost use Rattle.std.specs.Prelude.{◌≡◌, ◌<◌, IfOk};
ghost use Rattle.ldm_sample_disks.specs.Disks.{guid_with, sample_label, IsZeros};

use ldm_bytes::NoMemory;
use ldm_label::{Label, Style};
use std::alloc::Global;

/// This number of zeros, as an image begins.
pub fn zeros(alloc: Global, count: usize) -> Result<Vec<u8>, NoMemory>
    ensures { IfOk result (λ bytes. IsZeros count bytes.items) }
{
    Ok(vec![in alloc; 0u8; count]?)
}

/// The GUID whose every hexadecimal digit is this one.
pub fn guid_with(digit: u8) -> u128
    requires { digit < 16 }
    ensures { result ≡ guid_with digit }
{
    u128::from(digit) * 0x1111_1111_1111_1111_1111_1111_1111_1111
}

/// The label of the disk of this number, from 0.
pub fn sample_label(disk: u8) -> Label
    requires { disk < 15 }
    ensures { result ≡ sample_label disk }
{
    Label {
        style: Style::Mbr,
        disk_guid: guid_with(disk + 1),
        minor: 11,
        data_start: 63,
        data_size: 6081,
        config_start: 6144,
        area_start: 17,
        area_sectors: 1481,
        log_start: 1498,
        log_sectors: 224,
    }
}
