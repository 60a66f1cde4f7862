/// Why a token does not open. The tests are made in this order, and the first that fails is named.
#[derive(Clone, Copy, Debug, PartialEq, Eq)]
pub enum OpenFault {
    /// The text is no base64 of the URL-safe alphabet with padding and zero trailing bits.
    Base64,
    /// Fewer than 73 bytes stand in it.
    Short,
    /// The first byte is not 0x80.
    Version,
    /// The length of the ciphertext is no multiple of 16.
    Length,
    /// The tag is not that of what stands before it.
    Mac,
    /// The deciphered text does not end in padding.
    Padding,
    /// There was no memory.
    NoMemory,
}
