//! An input whose bytes are kept, up to one more than a script may have.

use std::alloc::Global;
use std::io::{self, Read};

// One byte more than a script may have.
const MOST: usize = 1_048_577;

/// An input whose bytes are kept, where they are to be. Where memory runs out no more are.
#[derive(Drop)]
pub struct Kept<I> {
    input: I,
    bytes: Vec<u8>,
    keeps: bool,
}

impl<I> Kept<I> {
    pub fn new(alloc: Global, input: I, keeps: bool) -> Self
    where
        I: Drop,
    {
        Kept {
            input,
            bytes: Vec::new(alloc),
            keeps,
        }
    }

    /// What was kept.
    pub fn kept(&self) -> &[u8] {
        self.bytes.as_slice()
    }

    // Keeps bytes that were read.
    fn keep(&mut self, bytes: &[u8]) {
        let room = MOST.saturating_sub(self.bytes.len());
        let count = room.min(bytes.len());
        if self.keeps && self.bytes.extend_from_slice(&bytes[..count]).is_err() {
            self.keeps = false;
        }
    }
}

impl<I: Read> Read for Kept<I> {
    fn read(&mut self, buf: &mut [u8]) -> io::Result<usize> {
        let count = self.input.read(buf)?;
        let read = count.min(buf.len());
        self.keep(&buf[..read]);
        Ok(count)
    }
}
