//! Laws of volumes on disks that fail, each a clause of a call that does nothing.
ghost use Rattle.ldm_rescue.specs.Rescued.{RescuesAsDump};

/// That a sector which isn't lost is what `dump` says of it, where no read failed and no disk is
/// behind. The call does nothing.
pub fn rescued_sectors_are_dumped()
    ensures { RescuesAsDump }
{}
