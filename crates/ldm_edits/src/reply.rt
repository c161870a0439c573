//! Refusals of a command, and the reply to a line.
/// Why a command is refused, in the order in which the reasons are looked for.
#[derive(Clone, Copy, PartialEq, Eq)]
pub enum Refusal {
    /// The line has no reading.
    BadLine,
    /// A batch is begun, and one is open.
    BatchOpen,
    /// A batch is committed or cancelled, and none is open.
    NoBatch,
    /// The batch that is to be committed has held no command.
    EmptyBatch,
    /// A volume has the name.
    NameTaken,
    /// No volume has the name.
    NoVolume,
    /// The volume that is to be extended is neither a span nor a mirror.
    NotSpan,
    /// It has a second size.
    ExtraSize,
    /// The mirror that is to be extended has this many components, and the pieces aren't as many.
    PieceCount(usize),
    /// The disk word of this number, from 0 on, names no disk.
    NoDisk(usize),
    /// Two disk words of a stripe, mirror or RAID-5 name one disk, or a mirror is to be extended on
    /// the disk of another of its components.
    SameDisk,
    /// A length or chunk is 0, the sectors of a column are no whole number of chunks, or the
    /// volume's size is 2^64 or more.
    BadSize,
    /// The piece or disk word of this number, from 0 on, finds no free sectors.
    NoSpace(usize),
    /// There are fewer ids left than new records.
    IdsSpent,
    /// The record of this id, the least of those, would take more than four blocks.
    TooLong(u64),
    /// The records would take more blocks than the header leaves them.
    NoRoom { need: u64, have: u64 },
    /// The committed sequence is the last that a number says.
    SequenceSpent,
}

/// The reply to a line of a script.
#[derive(Clone, Copy, PartialEq, Eq)]
pub enum Reply {
    /// It was done, and the committed sequence is this.
    Done(u64),
    /// It is held in the batch that is open, or opened one.
    Held,
    /// The batch was given up.
    Dropped,
    Refused(Refusal),
}
