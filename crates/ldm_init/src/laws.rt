//! Laws of a new group that is found, and of its images while they are written.
ghost use Rattle.ldm_init.specs.Moments.{MadeOpens, SignsWhole};
ghost use Rattle.ldm_init.specs.New.{NewOpens, NewIsEditable};

/// A law, which does nothing: images that hold a new group are found as it, and it may be edited
/// where there are two disks at least.
pub fn new_groups_open()
    ensures opens { NewOpens }
    ensures editable { NewIsEditable }
{}

/// A law, which does nothing: images of which each has no signature or is whole are refused, as
/// without signature, or are found as the new group; and writing the last byte of the signature
/// makes an image that is ready whole at once, whatever a stop leaves of it.
pub fn new_group_moments()
    ensures opens { MadeOpens }
    ensures signs { SignsWhole }
{}
