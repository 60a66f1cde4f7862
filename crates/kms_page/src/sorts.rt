// The keys by which secrets are sorted.
ghost use Rattle.std.specs.Prelude.{◌≡◌, ◌≤◌, ◌++◌, [], ◌∷◌, length, map, IfOk, OnOk, OnErr};
ghost use Rattle.std.specs.List.{position_or_len, slice_split};
ghost use Rattle.kms_page.specs.NewSort.{new_sort};
ghost use Rattle.kms_page.specs.Sorts as spec;

use kms_world::NoMemory;
use std::alloc::{AllocError, Global};
use std::marker::Model;

/// What secrets are sorted by: an attribute or a time.
#[derive(Clone, Copy, Debug, PartialEq, Eq)]
pub enum SortKey {
    Name,
    /// the algorithm
    Alg,
    /// the bit length
    Bits,
    Mode,
    SecretType,
    Created,
    Updated,
    Expiration,
}

impl SortKey {
    /// The key's word in queries.
    pub const fn word(self) -> &'static str
        ensures { result.now ≡ spec.word_of self }
    {
        match self {
            SortKey::Name => "name",
            SortKey::Alg => "alg",
            SortKey::Bits => "bits",
            SortKey::Mode => "mode",
            SortKey::SecretType => "secret_type",
            SortKey::Created => "created",
            SortKey::Updated => "updated",
            SortKey::Expiration => "expiration",
        }
    }
}

/// Sort keys, the first that counts in front, each with `true` where it descends. Contracts see the list.
#[derive(Drop, Debug)]
pub struct Sorts {
    items: Vec<(SortKey, bool)>,
}

impl Model for Sorts {
    ghost use Rattle.std.specs.Prelude.{List, Bool};
    ghost use Rattle.kms_page.specs.declared.sorts.SortKey.{SortKey};

    ghost Value = { List (SortKey × Bool) };

    ghost view = { λ s. s.items.items };
}

impl Sorts {
    /// No keys; takes no memory.
    pub fn new(alloc: Global) -> Sorts
        ensures { result ≡ [] }
    {
        Sorts {
            items: Vec::new(alloc),
        }
    }

    /// Puts a key behind the others. After `NoMemory` they are as before.
    pub fn push(&mut self, sort: (SortKey, bool)) -> Result<(), NoMemory>
        ensures ok { OnOk result (self.new ≡ self.old ++ sort ∷ []) }
        ensures err { OnErr result (self.new ≡ self.old) }
    {
        self.items.push(sort)?;
        Ok(())
    }

    /// The keys in their order.
    pub fn as_slice(&self) -> &[(SortKey, bool)]
        ensures { result.now ≡ self.now }
    {
        &self.items
    }
}

const KEYS: [SortKey; 8] = [
    SortKey::Name,
    SortKey::Alg,
    SortKey::Bits,
    SortKey::Mode,
    SortKey::SecretType,
    SortKey::Created,
    SortKey::Updated,
    SortKey::Expiration,
];

// The key whose word this is.
fn key_of(word: &[u8]) -> Option<SortKey>
    ensures { result ≡ spec.key_of word.now }
{
    KEYS.iter()
        .copied()
        .find(|key| key.word().as_bytes() == word)
}

// What stands behind a key: true where it asks for descending order.
fn direction_of(rest: &[u8]) -> Option<bool>
    ensures { result ≡ spec.direction_of rest.now }
{
    if rest == "".as_bytes() || rest == ":asc".as_bytes() {
        Some(false)
    } else if rest == ":desc".as_bytes() {
        Some(true)
    } else {
        None
    }
}

// The place of the first colon, or of the end.
fn colon(piece: &[u8]) -> usize
    ensures place { result ≡ position_or_len spec.is_colon piece.now }
    ensures in_range { result ≤ length piece.now }
{
    match piece.iter().position(|b| *b == b':') {
        Some(place) => place,
        None => piece.len(),
    }
}

// A key and maybe `:asc` or `:desc`.
fn sort_of(piece: &[u8]) -> Option<(SortKey, bool)>
    ensures { result ≡ spec.sort_of piece.now }
{
    let (word, rest) = piece.split_at(colon(piece));
    match (key_of(word), direction_of(rest)) {
        (Some(key), Some(descends)) => Some((key, descends)),
        _ => None,
    }
}

fn has_key(key: SortKey, sorts: &[(SortKey, bool)]) -> bool
    ensures { result ≡ spec.has_key key sorts.now }
{
    sorts.iter().any(|sort| sort.0.word() == key.word())
}

// The sort that a piece is, where none of those before it has its key.
fn new_sort(sorts: &[(SortKey, bool)], piece: &str) -> Option<(SortKey, bool)>
    ensures { result ≡ new_sort sorts.now piece.now }
{
    let sort = sort_of(piece.as_bytes())?;
    if has_key(sort.0, sorts) {
        None
    } else {
        Some(sort)
    }
}

// The pieces between the commas.
fn pieces<'a>(alloc: Global, text: &'a str) -> Result<Vec<&'a str>, AllocError>
    ensures { IfOk result (λ pieces. map (λ piece. piece.now) pieces.items ≡ slice_split spec.is_comma text.entry.now) }
{
    text.split(',').collect(alloc)
}

// The keys of a parameter `sort`, with commas between them. `Ok(None)` exactly where the text is no such list, or a key
// stands twice.
pub fn sorts_of(alloc: Global, text: &str) -> Result<Option<Sorts>, NoMemory>
    ensures { IfOk result (λ sorts. sorts ≡ spec.sorts_of text.now) }
{
    let mut sorts = Sorts::new(alloc);
    let pieces = pieces(alloc, text)?;
    for piece in &pieces {
        let Some(sort) = new_sort(sorts.as_slice(), piece) else {
            return Ok(None);
        };
        sorts.push(sort)?;
    }
    Ok(Some(sorts))
}
