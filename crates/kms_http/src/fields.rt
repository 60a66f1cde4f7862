// Fields by their names.
ghost use Rattle.std.specs.Prelude.{◌≡◌, ◌<◌, length, get_or, map, All, IfOk};
ghost use Rattle.std.specs.Str.{str_eq_ignore_ascii_case};
ghost use Rattle.httparse.specs.Spans.{IsHeaderWithin, header_bytes};
ghost use Rattle.kms_http.specs.Fields.{Pair, IsOccurrence, values_of};

use httparse::spans::HeaderSpan;
use kms_world::NoMemory;
use std::alloc::Global;
use std::marker::Model;

/// The fields of a head, in their order. Contracts see the list of their names and values.
#[derive(Drop, Debug)]
pub struct Fields {
    head: Vec<u8>,
    spans: Vec<HeaderSpan>,
}

impl Model for Fields {
    ghost use Rattle.std.specs.Prelude.{ℕ, List, length, map, All};
    ghost use Rattle.httparse.specs.Spans.{IsHeaderWithin, header_bytes};

    ghost Value = { List (List ℕ × List ℕ) };

    ghost view = { λ f. map (header_bytes f.head.items) f.spans.items };

    ghost invariant = { λ f. All (IsHeaderWithin (length f.head.items)) f.spans.items };
}

impl Fields {
    /// A copy of the fields that these spans of a head cover.
    pub fn of(alloc: Global, head: &[u8], spans: &[HeaderSpan]) -> Result<Fields, NoMemory>
        requires { All (IsHeaderWithin (length head.now)) spans.now }
        ensures { IfOk result (λ fields. fields ≡ map (header_bytes head.now) spans.now) }
    {
        Ok(Fields {
            head: head.to_vec(alloc)?,
            spans: spans.to_vec(alloc)?,
        })
    }

    /// How many there are.
    pub fn len(&self) -> usize
        ensures { result ≡ length self.now }
    {
        self.spans.len()
    }

    /// The name and the value at a place.
    pub fn at(&self, place: usize) -> (&[u8], &[u8])
        requires { place < length self.now }
        ensures { (d : Pair) → get_or self.now place d ≡ (result.0.now, result.1.now) }
    {
        let span = self.spans[place];
        (span.name.of(&self.head), span.value.of(&self.head))
    }
}

/// How often a field stands in a head.
#[derive(Clone, Copy, Debug)]
pub enum Occurrence<'a> {
    Absent,
    Once(&'a [u8]),
    Repeated,
}

/// Whether a field's name is this one, which has no case.
pub fn is_same_name(field: &[u8], name: &[u8]) -> bool
    ensures { result ≡ str_eq_ignore_ascii_case field.now name.now }
{
    field.eq_ignore_ascii_case(name)
}

/// Looks a field up by its name.
pub fn lookup<'a>(fields: &'a Fields, name: &[u8]) -> Occurrence<'a>
    ensures { IsOccurrence result (values_of name.now fields.now) }
{
    let mut found: Option<&'a [u8]> = None;
    for place in 0..fields.len() {
        let (field, value) = fields.at(place);
        if !is_same_name(field, name) {
            continue;
        }
        if found.is_some() {
            return Occurrence::Repeated;
        }
        found = Some(value);
    }
    match found {
        Some(value) => Occurrence::Once(value),
        None => Occurrence::Absent,
    }
}
