// The body of an access list.
ghost use Rattle.std.specs.Prelude.{◌≡◌, IfOk};
ghost use Rattle.serde_json.specs.View.{view};
ghost use Rattle.kms_requests.specs.Fields.{Gives};
ghost use Rattle.kms_requests.specs.AclBody as spec;
ghost use Rattle.std.specs.Prelude.{option_map};
ghost use Rattle.serde_json.specs.View.{items_view};
ghost use Rattle.kms_requests.specs.Fields.{text_item, texts_of};
ghost use Rattle.kms_world.specs.declared.refusal.Field.TheVariants as field;

use crate::body::body;
use crate::fields::{BodyFault, list, object, truth};
use kms_world::{AclBody, Field, NoMemory, ReadBody, Refusal, Text, Texts};
use serde_json::Value;
use std::alloc::Global;

fn user(alloc: Global, d: &Value) -> Result<Text, BodyFault>
    ensures { Gives (λ b. b) result (text_item field.Users (view d.now)) }
{
    match d {
        Value::String(text) => Ok(Text::of(alloc, text.as_str())?),
        _ => Err(BodyFault::Refused(Refusal::BadBody(Field::Users))),
    }
}

#[tactic(auto, using(crate::proofs::ListLaws::one_text))]
fn users(alloc: Global, items: &[Value]) -> Result<Texts, BodyFault>
    ensures { Gives (λ b. b) result (texts_of field.Users (items_view items.now)) }
{
    let mut users = Texts::new(alloc);
    for item in items {
        users.push(user(alloc, item)?)?;
    }
    Ok(users)
}

fn optional_users(alloc: Global, items: Option<&[Value]>) -> Result<Option<Texts>, BodyFault>
    ensures { Gives (λ b. b) result (spec.optional_users (option_map (λ vs. items_view vs.now) items.entry)) }
{
    match items {
        None => Ok(None),
        Some(items) => Ok(Some(users(alloc, items)?)),
    }
}

#[tactic(auto, unfolding(crate::specs::AclBody::read_of))]
fn read(alloc: Global, d: &Value) -> Result<ReadBody, BodyFault>
    ensures { Gives (λ b. b) result (spec.read_of (view d.now)) }
{
    let items = list(d, Field::Users)?;
    let users = optional_users(alloc, items)?;
    Ok(ReadBody {
        users,
        project_access: truth(d, Field::ProjectAccess)?,
    })
}

fn optional_read(alloc: Global, d: Option<&Value>) -> Result<Option<ReadBody>, BodyFault>
    ensures { Gives (λ b. b) result (spec.optional_read (option_map (λ v. view v.now) d.entry)) }
{
    match d {
        None => Ok(None),
        Some(d) => Ok(Some(read(alloc, d)?)),
    }
}

#[tactic(auto, unfolding(crate::specs::AclBody::acl_of))]
fn acl(alloc: Global, d: &Value) -> Result<AclBody, BodyFault>
    ensures { Gives (λ b. b) result (spec.acl_of (view d.now)) }
{
    let given = object(d, Field::Read)?;
    Ok(AclBody {
        read: optional_read(alloc, given)?,
    })
}

fn said(alloc: Global, content_type: &Option<Text>, bytes: &[u8]) -> Result<AclBody, BodyFault>
    ensures { Gives (λ b. b) result (spec.acl_body content_type.now bytes.now) }
{
    let object = body(alloc, content_type, bytes)?;
    acl(alloc, &object)
}

// The body of an access list, or the refusal that reading it gives.
pub(crate) fn acl_body(
    alloc: Global,
    content_type: &Option<Text>,
    bytes: &[u8],
) -> Result<Result<AclBody, Refusal>, NoMemory>
    ensures { IfOk result (λ said. said ≡ spec.acl_body content_type.now bytes.now) }
{
    match said(alloc, content_type, bytes) {
        Ok(body) => Ok(Ok(body)),
        Err(BodyFault::Refused(refusal)) => Ok(Err(refusal)),
        Err(BodyFault::NoMemory) => Err(NoMemory),
    }
}
