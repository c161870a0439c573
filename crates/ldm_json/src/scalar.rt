//! Values without parts.

/// A value without parts.
#[derive(Clone, Copy)]
pub enum Scalar<'a> {
    Number(u64),
    /// A number, where it is known.
    Maybe(Option<u64>),
    /// A text as it is.
    Word(&'a str),
    /// A text as it is, where there is one.
    MaybeWord(Option<&'a str>),
    /// A text of the program's own: each byte that is no visible ASCII character or space as \xHH.
    Said(&'a [u8]),
    /// A name, as it is written on a command line.
    Name(&'a [u8]),
    /// A name, where there is one.
    MaybeName(Option<&'a [u8]>),
    /// A GUID text in lower case.
    Guid(u128),
    Flag(bool),
    Null,
}
