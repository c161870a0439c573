//! How many blocks a payload takes.
ghost use Rattle.std.specs.Prelude.{◌≡◌, ◌≤◌};
ghost use Rattle.ldm_vmdb.specs.Parts.{parts_of};

/// How many blocks a payload of so many bytes takes.
pub fn parts_of(len: usize) -> u32
    requires some { 1 ≤ len }
    requires few { len ≤ 448 }
    ensures { result ≡ parts_of len }
{
    len.div_ceil(112) as u32
}
