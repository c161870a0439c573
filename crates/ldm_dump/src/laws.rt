//! Laws of volumes that are read, each a clause of a call that does nothing.
ghost use Rattle.ldm_dump.specs.Laws.{VolumesLieOn, RowsLie};
ghost use Rattle.ldm_dump.specs.Bytes.{SectionsJoin};
ghost use Rattle.ldm_dump.specs.Redundant.{ReadsTheSame};

/// That the sectors of a volume of a group that was found lie on its images, wherever a disk is
/// there. The call does nothing.
pub fn volumes_lie_on_images()
    ensures volumes { VolumesLieOn }
    ensures rows { RowsLie }
{}

/// That a volume whose copies are equal, and whose rows have the exclusive-or zero, on all images
/// reads the same where an image is missing, as far as no sector is lost. The call does nothing.
pub fn redundant_volumes_read_the_same()
    ensures { ReadsTheSame }
{}

/// That a volume may be read section by section: the bytes of a section, and then those of the one
/// behind it, are the bytes of both. The call does nothing.
pub fn sections_join()
    ensures { SectionsJoin }
{}
