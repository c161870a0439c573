//! The calls that a host in memory keeps a list of.
/// What a call did, as a host in memory keeps it.
#[derive(Drop)]
pub enum Call {
    /// These bytes were taken at the front of a range of this length, which is pending from then
    /// on.
    Write {
        disk: usize,
        at: usize,
        bytes: Vec<u8>,
        asked: usize,
    },
    /// The disk has no write pending from then on.
    Sync {
        disk: usize,
    },
    /// This number of bytes of the input was heard.
    Hear {
        count: usize,
    },
    /// These bytes were said.
    Say {
        bytes: Vec<u8>,
    },
    /// A call that failed and took nothing.
    Nothing,
}
