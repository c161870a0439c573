//! The beginning of a record: its mark, flags, type, length, id and name.
ghost use Rattle.std.specs.Prelude.{◌≤◌, length};

/// What every record begins with, and the bytes that its payload has.
#[derive(Clone, Copy)]
pub struct Opening<'a> {
    pub mark: u16,
    pub flags: u8,
    pub id: u64,
    pub name: &'a [u8],
    pub room: usize,
    pub ghost name_short: { length name.now ≤ 255 },
}
