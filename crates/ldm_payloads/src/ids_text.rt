//! The two texts of ids that a group record may have.
ghost use Rattle.std.specs.Prelude.{◌≤◌, length};

/// Two texts of a group where they stand.
#[derive(Clone, Copy)]
pub struct IdsText<'a> {
    pub first: &'a [u8],
    pub second: &'a [u8],
    pub ghost first_short: { length first.now ≤ 255 },
    pub ghost second_short: { length second.now ≤ 255 },
}
