//! `delete`: a volume and all that it has leave the group.
ghost use Rattle.ldm_group.specs.Looks.{volume_named};
ghost use Rattle.ldm_rules.specs.Facts.{IsSoundOn};
ghost use Rattle.ldm_edits.specs.Answers.{StepsTo};
ghost use Rattle.ldm_edits.specs.Changes.{AreasFit};
ghost use Rattle.ldm_edits.specs.Deleting.{deleted};

use crate::changing::change;
use crate::error::StepError;
use crate::leaving::Leaving;
use crate::reply::Refusal;
use ldm_group::Db;
use ldm_label::Labels;
use std::alloc::Global;

/// The group without the volume of this name.
#[tactic(auto, using(crate::proofs::CommandLaws::deleted_rises))]
pub fn delete(alloc: Global, db: &Db, labels: &Labels, name: &[u8]) -> Result<Db, StepError>
    requires sound { IsSoundOn db.now labels.now }
    requires areas { AreasFit labels.now }
    ensures { StepsTo result (deleted db.now labels.now (volume_named name.now db.now.records)) }
{
    let Some(volume) = db.volume_named(name) else {
        return Err(StepError::Refused(Refusal::NoVolume));
    };
    let leaving = Leaving::Deleted {
        volume: volume.head.id,
    };
    change(alloc, db, labels, 0, leaving, Vec::new(alloc))
}
