//! What a sound group promises, and that a new one is sound.
ghost use Rattle.ldm_rules.specs.Disjoint.{SoundIsDisjoint, SoundEndsInRange};
ghost use Rattle.ldm_rules.specs.New.{NewIsSound};

/// A law, which does nothing: in a sound group each sector of a volume lies in a partition of its
/// own volume, at a place that no other sector has, and no parity.
pub fn places_are_disjoint()
    ensures disjoint { SoundIsDisjoint }
    ensures ends { SoundEndsInRange }
{}

/// A law, which does nothing: a group record, and a disk record for each of some images of
/// different disks, are a sound group.
pub fn new_groups_are_sound()
    ensures { NewIsSound }
{}
