//! What watches a run over files.

/// What is told how much a run says and reads.
pub trait Watch {
    /// These bytes were said whole.
    fn said(&mut self, bytes: &[u8]);

    /// This number of bytes was to be read of an image.
    fn read(&mut self, bytes: usize);
}

/// Nothing watches the run.
#[derive(Clone, Copy)]
pub struct Unwatched;

impl Watch for Unwatched {
    fn said(&mut self, _bytes: &[u8]) {}

    fn read(&mut self, _bytes: usize) {}
}
