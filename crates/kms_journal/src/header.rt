// The header of a store file, as its first 50 bytes tell it.
ghost use Rattle.std.specs.Prelude.{◌≡◌, ◌+◌, ◌<◌, ◌≤◌, ◌^◌, ℕ, List, length, take, IfSome};
ghost use Rattle.kms_journal.specs.Current.{IsHead, IsSized, is_current_based};
ghost use Rattle.kms_journal.specs.Header.{number_in, is_header};
ghost use Rattle.kms_journal.specs.Spelling.{header_rest};

/// The length of a header, in bytes.
pub const HEADER: usize = 50;

const LETTERS: [u8; 8] = *b"BKMSTORE";

/// The header of a store file.
#[derive(Clone, Copy)]
pub struct Header {
    /// The file, 0 or 1.
    pub file: u8,
    /// At least 1. The current file is the one of the greater generation.
    pub generation: u64,
    /// The tag of the store's ids.
    pub tag: u64,
    /// How many ids were given when the snapshot was taken.
    pub ids: u64,
    /// How many steps the snapshot stands for.
    pub steps: u64,
    /// The length of the snapshot, in bytes.
    pub snapshot: u64,
}

/// The current file.
#[derive(Clone, Copy)]
pub struct Current {
    pub header: Header,
    /// The file's length in bytes.
    pub size: u64,
}

/// The number of 8 bytes at a place, big-endian.
pub fn number(head: &[u8], place: usize) -> u64
    requires { place + 8 ≤ length head.now }
    ensures { result ≡ number_in place head.now }
{
    let mut bytes = [0; 8];
    bytes.copy_from_slice(&head[place..place + 8]);
    u64::from_be_bytes(bytes)
}

/// The first commit mark is set, and the header is one of this format.
#[tactic(auto, unfolding(crate::specs::Header::is_header, crate::specs::Header::letters))]
pub fn is_header(head: &[u8]) -> bool
    requires { length head.now ≡ 50 }
    ensures { result ≡ is_header head.now }
{
    head[0] == 1 && &head[1..9] == LETTERS.as_slice() && head[9] == 1 && number(head, 10) >= 1
}

/// The 49 bytes of a header after the first commit mark: the letters, the version, and the five numbers.
#[tactic(auto, unfolding(crate::specs::Spelling::header_rest, crate::specs::Header::letters))]
pub fn spelled(header: &Header) -> [u8; 49]
    ensures { result ≡ header_rest header.now }
{
    let [a, b, c, d, e, f, g, h] = header.generation.to_be_bytes();
    let [i, j, k, l, m, n, o, p] = header.tag.to_be_bytes();
    let [q, r, s, t, u, v, w, x] = header.ids.to_be_bytes();
    let [a2, b2, c2, d2, e2, f2, g2, h2] = header.steps.to_be_bytes();
    let [i2, j2, k2, l2, m2, n2, o2, p2] = header.snapshot.to_be_bytes();
    [
        b'B', b'K', b'M', b'S', b'T', b'O', b'R', b'E', 1, a, b, c, d, e, f, g, h, i, j, k, l, m,
        n, o, p, q, r, s, t, u, v, w, x, a2, b2, c2, d2, e2, f2, g2, h2, i2, j2, k2, l2, m2, n2,
        o2, p2,
    ]
}

/// What a file of this length says of itself in its first 50 bytes, if its first commit mark is set and its header is
/// whole.
pub fn header_in(file: u8, size: u64, head: &[u8]) -> Option<Current>
    requires file { file < 2 }
    requires size { size < 2 ^ 62 }
    requires head { length head.now ≡ 50 }
    ensures told { (bytes : List ℕ) → size ≡ length bytes → (50 < length bytes → head.now ≡ take 50 bytes) → IsHead file bytes result }
    ensures sized { IfSome result (λ c. IsSized c × (c.header.file ≡ file)) }
{
    if size <= 50 || !is_header(head) {
        return None;
    }
    let header = Header {
        file,
        generation: number(head, 10),
        tag: number(head, 18),
        ids: number(head, 26),
        steps: number(head, 34),
        snapshot: number(head, 42),
    };
    Some(Current { header, size })
}

/// The header's numbers are in range, and the snapshot and the commit mark after it lie in the file.
pub fn is_based(current: &Current) -> bool
    requires { 50 < current.now.size }
    ensures { result ≡ is_current_based current.now }
{
    let header = current.header;
    header.tag < 1 << 60 && header.ids <= 1 << 62 && header.snapshot < current.size - 50
}
