//! One field of a record, by its form.
/// The value of a field, as it is written.
#[derive(Clone, Copy)]
pub enum Field<'a> {
    Fixed(&'a [u8]),
    /// Eight bytes, big-endian.
    Wide(u64),
    /// Sixteen bytes, big-endian.
    Wide16(u128),
    /// The text of a GUID.
    Guid(u128),
    Number(u64),
    Text(&'a [u8]),
    Absent,
}
