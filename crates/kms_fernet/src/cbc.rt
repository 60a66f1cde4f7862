// Cipher block chaining with AES-128 (NIST SP 800-38A, section 6.2), in place.
ghost use Rattle.std.specs.Prelude.{◌≡◌, ◌+◌, ◌*◌, ◌%◌, ◌≤◌, length, take, drop};
ghost use Rattle.kms_aes.specs.Field.{sum_of};
ghost use Rattle.kms_aes.specs.Cipher.{IsBlock, encrypt};
ghost use Rattle.kms_fernet.specs.Cbc.{cbc};

use kms_aes::Key;

// The sum of two blocks, in place of the first.
fn add(block: &mut [u8; 16], other: &[u8; 16])
    ensures sum { block.new ≡ sum_of block.old other.now }
    ensures twice { sum_of block.new other.now ≡ block.old }
{
    for (i, byte) in block.iter_mut().enumerate() {
        *byte ^= other[i];
    }
}

fn next_block(key: &Key, before: &[u8; 16], block: &[u8]) -> [u8; 16]
    requires { length block.now ≡ 16 }
    ensures block { IsBlock result }
    ensures enciphered { result ≡ encrypt key.now (sum_of block.now before.now) }
{
    let mut sum = [0; 16];
    sum.copy_from_slice(block);
    add(&mut sum, before);
    key.encrypt(sum)
}

fn block_before(key: &Key, before: &[u8; 16], enciphered: &[u8; 16]) -> [u8; 16]
    ensures { encrypt key.now (sum_of result before.now) ≡ enciphered.now }
{
    let mut block = key.decrypt(*enciphered);
    add(&mut block, before);
    block
}

/// Enciphers whole blocks in place.
pub(crate) fn encipher(key: &Key, iv: &[u8; 16], text: &mut [u8])
    requires { length text.old % 16 ≡ 0 }
    ensures { text.new ≡ cbc key.now iv.now text.old }
{
    let mut before = *iv;
    for i in 0..text.len() / 16 {
        let at = 16 * i;
        before = next_block(key, &before, &text[at..at + 16]);
        text[at..at + 16].copy_from_slice(&before);
    }
}

/// Deciphers the `count` blocks that begin at `from`, and puts the text at the front.
pub(crate) fn decipher(key: &Key, iv: &[u8; 16], room: &mut [u8], from: usize, count: usize)
    requires { from + 16 * count ≤ length room.old }
    ensures { cbc key.now iv.now (take (16 * count) room.new) ≡ take (16 * count) (drop from room.old) }
{
    let mut before = *iv;
    for i in 0..count {
        let at = from + 16 * i;
        let mut enciphered = [0; 16];
        enciphered.copy_from_slice(&room[at..at + 16]);
        let block = block_before(key, &before, &enciphered);
        room[16 * i..16 * i + 16].copy_from_slice(&block);
        before = enciphered;
    }
}
