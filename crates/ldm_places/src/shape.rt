//! Shapes of volumes, places, and faults of layouts.
ghost use Rattle.std.specs.Prelude.{◌≡◌};
ghost use Rattle.ldm_places.specs.declared.shape.LayoutError.TheVariants as errors;

use ldm_bytes::NoMemory;

/// How the sectors of a volume are spread over its partitions.
#[derive(Clone, Copy, PartialEq, Eq)]
pub enum Shape {
    Span,
    Stripe,
    Mirror,
    Raid5,
}

/// A sector of a disk's data area. The disk is named by the id of its record.
#[derive(Clone, Copy)]
pub struct Place {
    pub disk: u64,
    pub sector: u64,
}

/// Why a volume has no layout. Where there are more than one, the first counts.
#[derive(Clone, Copy)]
pub enum LayoutFault {
    /// Its components make no shape.
    Unknown,
    /// The partitions of a component don't tile.
    Gap,
    /// The chunk is missing or empty.
    Chunk,
    /// The columns are miscounted or too few, or two have one index.
    Columns,
    /// The volume is larger than what its partitions hold.
    Short,
}

/// Why no layout was made.
#[derive(Clone, Copy)]
pub enum LayoutError {
    Fault(LayoutFault),
    NoMemory,
}

impl From<NoMemory> for LayoutError {
    ghost from_gives = { λ _ error. error ≡ errors.NoMemory };

    fn from(_error: NoMemory) -> LayoutError {
        LayoutError::NoMemory
    }
}
