//! Commands, and the lists that they have.
ghost use Rattle.std.specs.Prelude.{◌≡◌};

use ldm_bytes::Bytes;
use std::marker::Model;

/// A disk by its name, and how many sectors of it.
#[derive(Drop)]
pub struct Piece {
    pub disk: Bytes,
    pub len: u64,
}

/// The pieces of a command, in their order. Contracts see them as that list.
#[derive(Drop)]
pub struct Pieces {
    items: Vec<Piece>,
}

impl Model for Pieces {
    ghost use Rattle.std.specs.Prelude.{List};
    ghost use Rattle.ldm_words.specs.declared.command.Piece.{Piece};

    ghost Value = { List Piece };

    ghost view = { λ pieces. pieces.items.items };
}

impl Pieces {
    /// The list of these pieces. It takes no memory.
    pub fn from_vec(items: Vec<Piece>) -> Pieces
        ensures { result ≡ items.items }
    {
        Pieces { items }
    }

    /// The pieces in their order.
    pub fn as_slice(&self) -> &[Piece]
        ensures { result.now ≡ self.now }
    {
        self.items.as_slice()
    }
}

/// The names of disks in a command, or the words of images, in their order. Contracts see them as
/// that list.
#[derive(Drop)]
pub struct Names {
    items: Vec<Bytes>,
}

impl Model for Names {
    ghost use Rattle.std.specs.Prelude.{List, ℕ};

    ghost Value = { List (List ℕ) };

    ghost view = { λ names. names.items.items };
}

impl Names {
    /// The list of these names. It takes no memory.
    pub fn from_vec(items: Vec<Bytes>) -> Names
        ensures { result ≡ items.items }
    {
        Names { items }
    }

    /// The names in their order.
    pub fn as_slice(&self) -> &[Bytes]
        ensures { result.now ≡ self.now }
    {
        self.items.as_slice()
    }
}

/// How a new volume lies on its disks. All lengths are in sectors.
pub enum NewLayout {
    /// The pieces one after another.
    Span { pieces: Pieces },
    /// Columns of `len` sectors, one on each disk, filled in turns of `chunk` sectors.
    Stripe { chunk: u64, len: u64, disks: Names },
    /// A copy of `len` sectors on each disk.
    Mirror { len: u64, disks: Names },
    /// As a stripe, with one column's worth of parity.
    Raid5 { chunk: u64, len: u64, disks: Names },
}

// By hand, so that a function that lets a layout go has one step for all that it has.
impl Drop for NewLayout {
    fn drop(self) {
        match self {
            NewLayout::Span { pieces: _ } => {}
            NewLayout::Stripe {
                chunk: _,
                len: _,
                disks: _,
            } => {}
            NewLayout::Mirror { len: _, disks: _ } => {}
            NewLayout::Raid5 {
                chunk: _,
                len: _,
                disks: _,
            } => {}
        }
    }
}

/// A change of the group that a line of a script, or the words of a command line, ask for; or a
/// word of a batch, which stands in scripts alone.
pub enum Command {
    /// A new volume, with its GUID.
    Create {
        name: Bytes,
        guid: u128,
        layout: NewLayout,
    },
    /// More pieces behind those of a volume.
    Extend {
        name: Bytes,
        pieces: Pieces,
    },
    /// A volume is taken away, with its components and partitions.
    Delete {
        name: Bytes,
    },
    /// A batch is opened: the commands from here on are held.
    Begin,
    /// What the batch holds is done, as one change.
    Commit,
    /// The batch is given up.
    Cancel,
}

// By hand, as that of a layout.
impl Drop for Command {
    fn drop(self) {
        match self {
            Command::Create {
                name: _,
                guid: _,
                layout: _,
            } => {}
            Command::Extend { name: _, pieces: _ } => {}
            Command::Delete { name: _ } => {}
            Command::Begin | Command::Commit | Command::Cancel => {}
        }
    }
}
