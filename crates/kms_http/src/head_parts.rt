// What a head says beside its path and its method.
ghost use Rattle.std.specs.Prelude.{◌≡◌, IfOk, OnOk, codes, map, string_bytes};
ghost use Rattle.std.specs.List.{list_all};
ghost use Rattle.kms_world.specs.Name.{is_name_byte};
ghost use Rattle.kms_http.specs.Fields.{values_of};
ghost use Rattle.kms_http.specs.Routing as spec;

use crate::fields::{Fields, Occurrence, is_same_name, lookup};
use crate::message::Head;
use crate::target::{fifth_segment, path_text, query_text, third_segment};
use kms_text::read_id;
use kms_world::{Id, Name, NoMemory, PutShape, Text, is_name_byte};
use std::alloc::Global;

/// The id in the path. None where its segment is no id.
pub fn id_in(head: &Head) -> Option<Id>
    ensures { result ≡ spec.id_in head.now }
{
    read_id(third_segment(path_text(head.target.as_str())).as_bytes())
}

/// The project in the path. None where its segment is no name.
pub fn project_in(head: &Head) -> Option<Name>
    ensures { result ≡ spec.project_in head.now }
{
    Name::read(third_segment(path_text(head.target.as_str())).as_bytes())
}

fn all_name_bytes(text: &[u8]) -> bool
    ensures { result ≡ list_all is_name_byte text.now }
{
    text.iter().all(|b| is_name_byte(*b))
}

fn is_key(text: &[u8]) -> bool
    ensures { result ≡ spec.is_key text.now }
{
    1 <= text.len() && text.len() <= 255 && all_name_bytes(text)
}

fn key_by(alloc: Global, text: &str) -> Result<Option<Text>, NoMemory>
    ensures { IfOk result (λ key. key ≡ spec.key_by text.now) }
{
    if !is_key(text.as_bytes()) {
        return Ok(None);
    }
    Ok(Some(Text::of(alloc, text)?))
}

/// The metadata key in the path, as it stands there. None where its segment is no key.
pub fn key_in(alloc: Global, head: &Head) -> Result<Option<Text>, NoMemory>
    ensures { IfOk result (λ key. key ≡ spec.key_in head.now) }
{
    key_by(alloc, fifth_segment(path_text(head.target.as_str())))
}

/// The query, empty where there is none.
pub fn query_in(alloc: Global, head: &Head) -> Result<Text, NoMemory>
    ensures { IfOk result (λ query. query ≡ spec.query_in head.now) }
{
    Text::of(alloc, query_text(head.target.as_str()))
}

// A value that is no text counts as the empty one.
fn value_text<'a>(value: &'a [u8]) -> &'a str
    ensures { result.now ≡ spec.value_text value.entry.now }
{
    match str::from_utf8(value) {
        Ok(text) => text,
        Err(_) => "",
    }
}

// The text of a field that may stand once.
fn alone(alloc: Global, fields: &Fields, name: &[u8]) -> Result<Option<Text>, NoMemory>
    ensures { IfOk result (λ text. text ≡ spec.alone (values_of name.now fields.now)) }
{
    match lookup(fields, name) {
        Occurrence::Absent => Ok(None),
        Occurrence::Once(value) => Ok(Some(Text::of(alloc, value_text(value))?)),
        Occurrence::Repeated => Ok(Some(Text::of(alloc, "")?)),
    }
}

/// The body's Content-Type (RFC 9110 section 8.3); empty where it stands more than once or is no UTF-8.
pub fn content_type_in(alloc: Global, head: &Head) -> Result<Option<Text>, NoMemory>
    ensures { IfOk result (λ text. text ≡ spec.content_type_in head.now) }
{
    alone(alloc, &head.fields, b"content-type")
}

/// The body's Content-Type and Content-Encoding (RFC 9110 sections 8.3 and 8.4), each likewise.
pub fn put_in(alloc: Global, head: &Head) -> Result<PutShape, NoMemory>
    ensures { IfOk result (λ put. put ≡ spec.put_in head.now) }
{
    let content_type = content_type_in(alloc, head)?;
    let content_encoding = alone(alloc, &head.fields, b"content-encoding")?;
    Ok(PutShape {
        content_type,
        content_encoding,
    })
}

// Puts a text after the others, with a comma between.
fn put_text(out: &mut String, is_first: bool, text: &str) -> Result<(), NoMemory>
    ensures { OnOk result (string_bytes out.new ≡ spec.with_text is_first (string_bytes out.old) text.now) }
{
    if !is_first {
        out.push(',')?;
    }
    out.push_str(text)?;
    Ok(())
}

// The texts of all fields of this name, with commas between.
fn joined(alloc: Global, fields: &Fields, name: &[u8]) -> Result<String, NoMemory>
    ensures { IfOk result (λ text. string_bytes text ≡ spec.joined (map spec.value_text (values_of name.now fields.now))) }
{
    let mut text = String::new(alloc);
    let mut is_first = true;
    for place in 0..fields.len() {
        let (field, value) = fields.at(place);
        if is_same_name(field, name) {
            put_text(&mut text, is_first, value_text(value))?;
            is_first = false;
        }
    }
    Ok(text)
}

fn together(alloc: Global, fields: &Fields, name: &[u8]) -> Result<Option<Text>, NoMemory>
    ensures { IfOk result (λ text. text ≡ spec.together (values_of name.now fields.now)) }
{
    match lookup(fields, name) {
        Occurrence::Absent => Ok(None),
        Occurrence::Once(value) => Ok(Some(Text::of(alloc, value_text(value))?)),
        Occurrence::Repeated => {
            let text = joined(alloc, fields, name)?;
            Ok(Some(Text::of(alloc, text.as_str())?))
        }
    }
}

/// The Accept fields (RFC 9110 section 12.5.1), with commas between; one that is no UTF-8 counts as empty. None where there
/// is none.
pub fn accept_in(alloc: Global, head: &Head) -> Result<Option<Text>, NoMemory>
    ensures { IfOk result (λ text. text ≡ spec.accept_in head.now) }
{
    together(alloc, &head.fields, b"accept")
}
