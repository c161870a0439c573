//! What was noted of the copy on each image.
ghost use Rattle.std.specs.Prelude.{◌≡◌, List};
ghost use Rattle.ldm_copy.specs.declared.notes.Note.{Note};

use std::marker::Model;

/// What an image's copy of the database is.
#[derive(Clone, Copy, PartialEq, Eq)]
pub enum Note {
    Closed,
    /// It is open, and has this sequence.
    Sequence(u64),
}

/// The notes of images, in their order. Contracts see them as that list.
#[derive(Drop)]
pub struct Notes {
    items: Vec<Note>,
}

impl Model for Notes {
    ghost Value = { List Note };

    ghost view = { λ notes. notes.items.items };
}

impl Notes {
    /// The list of these notes. It takes no memory.
    pub fn from_vec(items: Vec<Note>) -> Notes
        ensures { result ≡ items.items }
    {
        Notes { items }
    }

    /// The notes in their order.
    pub fn as_slice(&self) -> &[Note]
        ensures { result.now ≡ self.now }
    {
        self.items.as_slice()
    }
}
