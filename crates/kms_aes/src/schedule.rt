// The key schedule of AES-128 (FIPS 197, section 5.2).
ghost use Rattle.std.specs.Prelude.{◌≡◌, ◌+◌, ◌-◌, ◌<◌, ◌≤◌, [], ◌∷◌};
ghost use Rattle.kms_aes.specs.Field.{sum_of};
ghost use Rattle.kms_aes.specs.KeyExpansion.{power_of_x, rot_word, sub_word, next_word, first_words, IsSchedule};

use crate::sbox::substituted_byte;
use crate::state::joined;

// The first bytes of Rcon 1 to Rcon 10.
const ROUND_CONSTANTS: [u8; 10] = [0x01, 0x02, 0x04, 0x08, 0x10, 0x20, 0x40, 0x80, 0x1b, 0x36];

fn round_constant(round: usize) -> u8
    requires first { 1 ≤ round }
    requires last { round ≤ 10 }
    ensures { result ≡ power_of_x (round - 1) }
{
    ROUND_CONSTANTS[round - 1]
}

fn added_word(a: &[u8; 4], b: &[u8; 4]) -> [u8; 4]
    ensures { result ≡ sum_of a.now b.now }
{
    [a[0] ^ b[0], a[1] ^ b[1], a[2] ^ b[2], a[3] ^ b[3]]
}

// What is added to the first word of a round's key, from the word before it.
fn turned_word(word: &[u8; 4], constant: u8) -> [u8; 4]
    ensures { result ≡ sum_of (sub_word (rot_word word.now)) (constant ∷ 0 ∷ 0 ∷ 0 ∷ []) }
{
    [
        substituted_byte(word[1]) ^ constant,
        substituted_byte(word[2]),
        substituted_byte(word[3]),
        substituted_byte(word[0]),
    ]
}

fn next_word(words: &[[u8; 4]; 44], i: usize) -> [u8; 4]
    requires first { 4 ≤ i }
    requires last { i < 44 }
    ensures { result ≡ next_word words.now i }
{
    let before = &words[i - 1];
    if i % 4 == 0 {
        added_word(&words[i - 4], &turned_word(before, round_constant(i / 4)))
    } else {
        added_word(&words[i - 4], before)
    }
}

fn key_words(key: &[u8; 16]) -> [[u8; 4]; 44]
    ensures { result ≡ first_words key.now 40 }
{
    let mut words = [[0; 4]; 44];
    words[0] = [key[0], key[1], key[2], key[3]];
    words[1] = [key[4], key[5], key[6], key[7]];
    words[2] = [key[8], key[9], key[10], key[11]];
    words[3] = [key[12], key[13], key[14], key[15]];
    for i in 4..44 {
        words[i] = next_word(&words, i);
    }
    words
}

/// The keys of the rounds, which begin with the key itself.
pub(crate) fn round_keys(key: &[u8; 16]) -> [[u8; 16]; 11]
    ensures { IsSchedule key.now result }
{
    let words = key_words(key);
    let mut keys = [[0; 16]; 11];
    for round in 0..11 {
        let i = 4 * round;
        keys[round] = joined(&words[i], &words[i + 1], &words[i + 2], &words[i + 3]);
    }
    keys
}
