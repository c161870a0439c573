//! What is found of images, each alone.
use ldm_bytes::Bytes;
use ldm_look::Scanned;

/// What is found of an image.
#[derive(Drop)]
pub(crate) enum Finding {
    /// It didn't open, and why.
    Unopened(Bytes),
    /// A read of it failed.
    Unread,
    /// All of it that was wanted was read.
    Known(Scanned),
}
