// The other steps of a round (FIPS 197, sections 5.1.2 to 5.1.4), and what undoes them. A state is
// its 16 bytes, column by column.
ghost use Rattle.std.specs.Prelude.{◌≡◌, ◌++◌};
ghost use Rattle.kms_aes.specs.Field.{times_x, product, sum_of};
ghost use Rattle.kms_aes.specs.Cipher.{IsBlock, sum_of_four, shift_rows, mixed_column, IsMixedTo, mix_columns};

// x times a byte. The high bit that a shift drops stands for x ^ 8, which is 0x1b and the reduction
// polynomial.
fn doubled(byte: u8) -> u8
    ensures { result ≡ times_x byte }
{
    if byte < 128 {
        byte * 2
    } else {
        (byte - 128) * 2 ^ 0x1b
    }
}

// A byte of a mixed column, from the column's bytes, that of its own row first.
fn mixed(a: u8, b: u8, c: u8, d: u8) -> u8
    ensures { result ≡ sum_of_four (product 2 a) (product 3 b) c d }
{
    (doubled(a) ^ (doubled(b) ^ b)) ^ (c ^ d)
}

fn times_9(byte: u8) -> u8
    ensures { result ≡ product 9 byte }
{
    doubled(doubled(doubled(byte))) ^ byte
}

fn times_11(byte: u8) -> u8
    ensures { result ≡ product 11 byte }
{
    let twice = doubled(byte);
    doubled(doubled(twice)) ^ twice ^ byte
}

fn times_13(byte: u8) -> u8
    ensures { result ≡ product 13 byte }
{
    let fourfold = doubled(doubled(byte));
    doubled(fourfold) ^ fourfold ^ byte
}

fn times_14(byte: u8) -> u8
    ensures { result ≡ product 14 byte }
{
    let twice = doubled(byte);
    let fourfold = doubled(twice);
    doubled(fourfold) ^ fourfold ^ twice
}

// The same under the inverse of the matrix (5.3.3).
fn unmixed(a: u8, b: u8, c: u8, d: u8) -> u8
    ensures { result ≡ sum_of_four (product 14 a) (product 11 b) (product 13 c) (product 9 d) }
{
    (times_14(a) ^ times_11(b)) ^ (times_13(c) ^ times_9(d))
}

fn mixed_column(a: u8, b: u8, c: u8, d: u8) -> [u8; 4]
    ensures { result ≡ mixed_column a b c d }
{
    [
        mixed(a, b, c, d),
        mixed(b, c, d, a),
        mixed(c, d, a, b),
        mixed(d, a, b, c),
    ]
}

// The column that is mixed to this one.
fn unmixed_column(a: u8, b: u8, c: u8, d: u8) -> [u8; 4]
    ensures { IsMixedTo result a b c d }
{
    [
        unmixed(a, b, c, d),
        unmixed(b, c, d, a),
        unmixed(c, d, a, b),
        unmixed(d, a, b, c),
    ]
}

/// MixColumns.
pub(crate) fn mixed_columns(s: &[u8; 16]) -> [u8; 16]
    ensures { result ≡ mix_columns s.now }
{
    let a = mixed_column(s[0], s[1], s[2], s[3]);
    let b = mixed_column(s[4], s[5], s[6], s[7]);
    let c = mixed_column(s[8], s[9], s[10], s[11]);
    let d = mixed_column(s[12], s[13], s[14], s[15]);
    joined(&a, &b, &c, &d)
}

/// The state that MixColumns makes into this one.
pub(crate) fn unmixed_columns(s: &[u8; 16]) -> [u8; 16]
    ensures { mix_columns result ≡ s.now }
{
    let a = unmixed_column(s[0], s[1], s[2], s[3]);
    let b = unmixed_column(s[4], s[5], s[6], s[7]);
    let c = unmixed_column(s[8], s[9], s[10], s[11]);
    let d = unmixed_column(s[12], s[13], s[14], s[15]);
    joined(&a, &b, &c, &d)
}

/// Four words one after another.
pub(crate) fn joined(a: &[u8; 4], b: &[u8; 4], c: &[u8; 4], d: &[u8; 4]) -> [u8; 16]
    ensures { result ≡ a.now ++ b.now ++ c.now ++ d.now }
{
    [
        a[0], a[1], a[2], a[3], b[0], b[1], b[2], b[3], c[0], c[1], c[2], c[3], d[0], d[1], d[2],
        d[3],
    ]
}

/// ShiftRows.
pub(crate) fn shifted_rows(s: &[u8; 16]) -> [u8; 16]
    ensures { result ≡ shift_rows s.now }
{
    [
        s[0], s[5], s[10], s[15], s[4], s[9], s[14], s[3], s[8], s[13], s[2], s[7], s[12], s[1],
        s[6], s[11],
    ]
}

/// The state that ShiftRows makes into this one.
pub(crate) fn unshifted_rows(s: &[u8; 16]) -> [u8; 16]
    ensures { shift_rows result ≡ s.now }
{
    [
        s[0], s[13], s[10], s[7], s[4], s[1], s[14], s[11], s[8], s[5], s[2], s[15], s[12], s[9],
        s[6], s[3],
    ]
}

// AddRoundKey in place.
fn add(state: &mut [u8; 16], key: &[u8; 16])
    ensures { state.new ≡ sum_of state.old key.now }
{
    for (i, byte) in state.iter_mut().enumerate() {
        *byte ^= key[i];
    }
}

/// AddRoundKey, which undoes itself.
pub(crate) fn added(state: &[u8; 16], key: &[u8; 16]) -> [u8; 16]
    ensures block { IsBlock result }
    ensures sum { result ≡ sum_of state.now key.now }
    ensures twice { sum_of result key.now ≡ state.now }
{
    let mut out = *state;
    add(&mut out, key);
    out
}
