//! A batch that is open, and what a line comes to.
use crate::additions::Additions;
use crate::error::StepError;
use crate::reply::Refusal;
use ldm_bytes::NoMemory;
use ldm_group::Db;
use ldm_label::Labels;
use ldm_words::Command;
use std::alloc::Global;
use std::marker::Model;

/// A batch that is open. Contracts see the group with what it holds, but for its sequence, which is
/// that of the group before, and whether it has held a command.
pub struct Draft {
    // The group with its own record and those of its disks alone.
    db: Db,
    // All other records.
    added: Additions,
    filled: bool,
}

// By hand, so that a function that lets a batch go has one step for all that it has.
impl Drop for Draft {
    fn drop(self) {
        let Draft {
            db: _,
            added: _,
            filled: _,
        } = self;
    }
}

impl Model for Draft {
    ghost use Rattle.ldm_edits.specs.Drafts.{Drafted};
    ghost use Rattle.ldm_edits.specs.Additions.{AreAdditions, with_added};
    ghost use Rattle.ldm_edits.specs.Replacing.{AreFront};

    ghost Value = { Drafted };

    ghost view = { λ d. record {
      db = with_added d.db d.added;
      filled = d.filled;
    } };

    ghost invariant = { λ d. AreAdditions d.db.records d.added × AreFront d.db.records };
}

impl Draft {
    ghost use Rattle.std.specs.Prelude.{◌≡◌, ◌^◌, ◌-◌, ◌<◌, All, IfOk};
    ghost use Rattle.ldm_group.specs.Order.{Rising};
    ghost use Rattle.ldm_group.specs.Room.{IsFitting};
    ghost use Rattle.ldm_rules.specs.Facts.{IsSoundOn};
    ghost use Rattle.ldm_words.specs.Limits.{IsChange, IsCommand};
    ghost use Rattle.ldm_edits.specs.Changes.{AreasFit};
    ghost use Rattle.ldm_edits.specs.Additions.{HoldsAs};
    ghost use Rattle.ldm_edits.specs.Steps.{next_of};

    /// A batch with a copy of this group.
    pub(crate) fn of(alloc: Global, db: &Db, filled: bool) -> Result<Draft, NoMemory>
        requires { All IsFitting db.now.records }
        ensures { IfOk result (λ draft. draft ≡ record { db = db.now; filled = filled }) }
    {
        let (db, added) = Additions::apart(alloc, db)?;
        Ok(Draft { db, added, filled })
    }

    /// A law of the types: the records rise, and the last VBLK sequence is a number of the format.
    pub(crate) fn types_hold(&self)
        ensures rising { Rising self.now.db.records }
        ensures last { self.now.db.header.last < 2 ^ 32 }
    {
        let _last = self.added.last;
    }

    /// Whether it has held a command.
    pub fn filled(&self) -> bool
        ensures { result ≡ self.now.filled }
    {
        self.filled
    }

    /// A copy of the group with what it holds, but for its sequence, which is that of the group
    /// before.
    pub fn db(&self, alloc: Global) -> Result<Db, NoMemory>
        ensures { IfOk result (λ db. db ≡ self.now.db) }
    {
        let seq = self.db.header().seq;
        self.added.joined(alloc, &self.db, seq)
    }

    /// Holds a create, an extend or a delete, which copies no records but those of its volume.
    pub(crate) fn change(
        self,
        alloc: Global,
        labels: &Labels,
        command: &Command,
    ) -> (Draft, Result<(), StepError>)
        requires sound { IsSoundOn self.db labels.now }
        requires areas { AreasFit labels.now }
        requires limits { IsCommand command.now }
        requires change { IsChange command.now }
        ensures { HoldsAs self result (next_of self.db labels.now command.now) }
    {
        let Draft {
            db,
            mut added,
            filled,
        } = self;
        match added.change(alloc, &db, labels, command) {
            Ok(()) => (
                Draft {
                    db,
                    added,
                    filled: true,
                },
                Ok(()),
            ),
            Err(error) => (Draft { db, added, filled }, Err(error)),
        }
    }
}

/// What a line comes to.
#[derive(Drop)]
pub enum Turn {
    /// The next group. No batch is open then.
    Next(Db),
    /// A batch is open, with this draft.
    Hold(Draft),
    /// The batch is closed, and counts for nothing.
    GiveUp,
    /// The first reason that the line is refused.
    Refused(Refusal),
}

/// What a line comes to, where the batch is handed over.
#[derive(Drop)]
pub enum Answer {
    /// The next group. No batch is open then.
    Next(Db),
    /// A batch is open, and holds the line.
    Held,
    /// The batch is closed, and counts for nothing.
    Dropped,
    /// The first reason that the line is refused.
    Refused(Refusal),
}
