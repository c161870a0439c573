//! What records may have or lack.
ghost use Rattle.std.specs.Prelude.{◌≡◌};
ghost use Rattle.std.specs.Option.{option_map};

use ldm_bytes::Bytes;
use ldm_records::Striping;

/// A name, where there is one.
pub(crate) fn name_in(name: &Option<Bytes>) -> Option<&[u8]>
    ensures { option_map (λ n. n.now) result ≡ name.now }
{
    match name {
        Some(name) => Some(name.as_slice()),
        None => None,
    }
}

/// The chunk of a component that is striped.
pub(crate) fn chunk_of(striping: Option<Striping>) -> Option<u64>
    ensures { result ≡ option_map (λ s. s.chunk) striping }
{
    match striping {
        Some(striping) => Some(striping.chunk),
        None => None,
    }
}

/// How many columns it has.
pub(crate) fn columns_of(striping: Option<Striping>) -> Option<u64>
    ensures { result ≡ option_map (λ s. s.columns) striping }
{
    match striping {
        Some(striping) => Some(striping.columns),
        None => None,
    }
}
