//! The first broken rule of all.
ghost use Rattle.std.specs.Prelude.{◌≡◌, List, [], ◌∷◌, All, OnOk};
ghost use Rattle.ldm_bytes.specs.Tables.{first_of};
ghost use Rattle.ldm_group.specs.Partitions.{EndsInRange};
ghost use Rattle.ldm_rules.specs.Disjoint.{AllLaidOut};
ghost use Rattle.ldm_records.specs.declared.types.Record.{Record};
ghost use Rattle.ldm_layout.specs.Volumes.{layout_faults};
ghost use Rattle.ldm_rules.specs.Rules.{first_broken, has_layout_fault, passes_layout};
ghost use Rattle.ldm_rules.specs.Table.{broken_at, ChecksAs, first_broken_rule, name_rules};
ghost use Rattle.ldm_rules.specs.Table.{tree_rules, sector_rules};
ghost use Rattle.ldm_rules.specs.declared.fault.RuleError.TheVariants.{Fault};

use crate::broken::{RecordRule, first_broken};
use crate::ends::over_the_end;
use crate::fault::RuleError;
use crate::layouts::{faulty, too_large};
use crate::meetings::meeting;
use crate::single::not_one_group;
use ldm_group::{Db, RuleFault};
use ldm_label::Labels;
use ldm_layout::{VolumeFault, faults};
use std::alloc::Global;

fn broken(rule: u8, id: u64) -> RuleError
    ensures { result ≡ Fault (record { rule = rule; id = id }) }
{
    RuleError::Fault(RuleFault { rule, id })
}

#[tactic(auto, unfolding(crate::specs::Table::name_rules))]
fn check_names(db: &Db) -> Result<(), RuleError>
    ensures { ChecksAs result (first_of (name_rules db.now.records)) }
{
    if let Some(id) = not_one_group(db) {
        return Err(broken(1, id));
    }
    if let Some(id) = first_broken(RecordRule::OneGuid, db) {
        return Err(broken(2, id));
    }
    if let Some(id) = first_broken(RecordRule::OneName, db) {
        return Err(broken(3, id));
    }
    Ok(())
}

#[tactic(auto, unfolding(crate::specs::Table::tree_rules))]
fn check_tree(db: &Db) -> Result<(), RuleError>
    ensures { ChecksAs result (first_of (tree_rules db.now.records)) }
{
    if let Some(id) = first_broken(RecordRule::HasVolume, db) {
        return Err(broken(4, id));
    }
    if let Some(id) = first_broken(RecordRule::HasComponent, db) {
        return Err(broken(5, id));
    }
    if let Some(id) = first_broken(RecordRule::HasDisk, db) {
        return Err(broken(6, id));
    }
    if let Some(id) = first_broken(RecordRule::CountsComponents, db) {
        return Err(broken(7, id));
    }
    if let Some(id) = first_broken(RecordRule::CountsPartitions, db) {
        return Err(broken(8, id));
    }
    Ok(())
}

fn first_fault(faults: &[VolumeFault]) -> Result<(), RuleError>
    ensures { (records : List Record) → faults.now ≡ layout_faults records
        → ChecksAs result (first_of (broken_at 12 (first_broken (has_layout_fault records) records)
        ∷ broken_at 13 (first_broken (passes_layout records) records) ∷ [])) }
{
    if let Some(id) = faulty(faults) {
        return Err(broken(12, id));
    }
    if let Some(id) = too_large(faults) {
        return Err(broken(13, id));
    }
    Ok(())
}

fn check_layouts(alloc: Global, db: &Db) -> Result<(), RuleError>
    ensures { ChecksAs result (first_of (broken_at 12
        (first_broken (has_layout_fault db.now.records) db.now.records)
        ∷ broken_at 13 (first_broken (passes_layout db.now.records) db.now.records) ∷ [])) }
{
    let faults = faults(alloc, db)?;
    first_fault(faults.as_slice())
}

#[tactic(auto, unfolding(crate::specs::Table::sector_rules))]
fn check_sectors(alloc: Global, db: &Db, labels: &Labels) -> Result<(), RuleError>
    ensures is { ChecksAs result (first_of (sector_rules db.now.records labels.now)) }
    ensures ends { OnOk result (All EndsInRange db.now.records) }
{
    if let Some(id) = first_broken(RecordRule::HasSectors, db) {
        return Err(broken(9, id));
    }
    if let Some(id) = over_the_end(db, labels) {
        return Err(broken(10, id));
    }
    if let Some(id) = meeting(alloc, db)? {
        return Err(broken(11, id));
    }
    check_layouts(alloc, db)
}

/// Whether the group is sound on the disks that have these labels. A disk without a label is
/// absent, and its data may end anywhere below 2^64. The error is the first broken rule, with the
/// least id at which it is broken.
pub fn check(alloc: Global, db: &Db, labels: &Labels) -> Result<(), RuleError>
    ensures is { ChecksAs result (first_broken_rule db.now.records labels.now) }
    ensures ends { OnOk result (All EndsInRange db.now.records) }
    ensures laid_out { OnOk result (AllLaidOut db.now.records) }
{
    check_names(db)?;
    check_tree(db)?;
    check_sectors(alloc, db, labels)
}
