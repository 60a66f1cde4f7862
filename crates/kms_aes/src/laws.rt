// What holds of the cipher.
ghost use Rattle.kms_aes.specs.Cipher.{EnciphersOneToOne};

/// A block is enciphered to a block, two blocks that are enciphered to one under a key are one, and
/// each block is one that some block is enciphered to. So there is just one block that
/// `Key::decrypt` may answer, and it undoes `Key::encrypt`.
pub fn enciphers_one_to_one()
    ensures { EnciphersOneToOne }
{}
