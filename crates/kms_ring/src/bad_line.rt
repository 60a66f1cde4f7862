// What is wrong with a key file.

/// The first bad line of a key file.
#[derive(Clone, Copy, Debug, PartialEq, Eq)]
pub struct BadLine {
    /// its number, from 1 to 17
    pub line: u8,
    pub why: BadKey,
}

/// Why a line of a key file is bad.
#[derive(Clone, Copy, Debug, PartialEq, Eq)]
pub enum BadKey {
    /// It isn't a key's text: the base64url of 32 bytes, 44 characters.
    NotAKey,
    /// Its key stands in the line of this number already.
    SameAs(u8),
    /// It is the 17th.
    TooMany,
}
