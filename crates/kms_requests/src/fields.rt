// Fields of bodies, by their JSON types.
ghost use Rattle.std.specs.Prelude.{◌≡◌, Some, option_map};
ghost use Rattle.serde_json.specs.Find.{get};
ghost use Rattle.serde_json.specs.View.{view, items_view};
ghost use Rattle.kms_world.specs.Field.{word_of};
ghost use Rattle.kms_requests.specs.Fields.{Gives, text_in, optional_text, number_in, optional_number, optional_bool, optional_list, optional_object};

use kms_world::{Field, NoMemory, Refusal, Text};
use serde_json::Value;
use std::alloc::Global;

// Why a body wasn't read to its end.
#[derive(Clone, Copy, Debug, PartialEq, Eq)]
pub(crate) enum BodyFault {
    Refused(Refusal),
    NoMemory,
}

impl From<NoMemory> for BodyFault {
    ghost use Rattle.std.specs.Prelude.{◌≡◌};
    ghost use Rattle.kms_requests.specs.declared.fields.BodyFault.TheVariants as fault;

    ghost from_gives = { λ _ e. e ≡ fault.NoMemory };

    fn from(_: NoMemory) -> Self {
        BodyFault::NoMemory
    }
}

// A text under a field's name, refused under the name of another.
pub(crate) fn text_of(
    alloc: Global,
    body: &Value,
    field: Field,
    blamed: Field,
) -> Result<Option<Text>, BodyFault>
    ensures { Gives (λ t. t) result (text_in blamed (get (word_of field) (view body.now))) }
{
    match body.get(field.word()) {
        None => Ok(None),
        Some(Value::Null) => Ok(None),
        Some(Value::String(text)) => Ok(Some(Text::of(alloc, text.as_str())?)),
        Some(_) => Err(BodyFault::Refused(Refusal::BadBody(blamed))),
    }
}

// A text under a field's name.
pub(crate) fn text(alloc: Global, body: &Value, field: Field) -> Result<Option<Text>, BodyFault>
    ensures { Gives (λ t. t) result (optional_text field (view body.now)) }
{
    text_of(alloc, body, field, field)
}

fn integer(value: &Value, field: Field) -> Result<Option<i128>, BodyFault>
    ensures { Gives (λ t. t) result (number_in field (Some (view value.now))) }
{
    match value {
        Value::Null => Ok(None),
        Value::Number(number) => match number.as_i128() {
            Some(n) => Ok(Some(n)),
            None => Err(BodyFault::Refused(Refusal::BadBody(field))),
        },
        _ => Err(BodyFault::Refused(Refusal::BadBody(field))),
    }
}

// A number under a field's name.
pub(crate) fn number(body: &Value, field: Field) -> Result<Option<i128>, BodyFault>
    ensures { Gives (λ t. t) result (optional_number field (view body.now)) }
{
    match body.get(field.word()) {
        None => Ok(None),
        Some(value) => integer(value, field),
    }
}

// A truth value under a field's name.
pub(crate) fn truth(body: &Value, field: Field) -> Result<Option<bool>, BodyFault>
    ensures { Gives (λ t. t) result (optional_bool field (view body.now)) }
{
    match body.get(field.word()) {
        None => Ok(None),
        Some(Value::Null) => Ok(None),
        Some(Value::Bool(b)) => Ok(Some(*b)),
        Some(_) => Err(BodyFault::Refused(Refusal::BadBody(field))),
    }
}

// A list under a field's name.
pub(crate) fn list(body: &Value, field: Field) -> Result<Option<&[Value]>, BodyFault>
    ensures { Gives (λ t. option_map (λ vs. items_view vs.now) t) result (optional_list field (view body.now)) }
{
    match body.get(field.word()) {
        None => Ok(None),
        Some(Value::Null) => Ok(None),
        Some(Value::Array(items)) => Ok(Some(items.as_slice())),
        Some(_) => Err(BodyFault::Refused(Refusal::BadBody(field))),
    }
}

// An object under a field's name.
pub(crate) fn object(body: &Value, field: Field) -> Result<Option<&Value>, BodyFault>
    ensures { Gives (λ t. option_map (λ v. view v.now) t) result (optional_object field (view body.now)) }
{
    match body.get(field.word()) {
        None => Ok(None),
        Some(Value::Null) => Ok(None),
        Some(value) => {
            if value.is_object() {
                Ok(Some(value))
            } else {
                Err(BodyFault::Refused(Refusal::BadBody(field)))
            }
        }
    }
}
