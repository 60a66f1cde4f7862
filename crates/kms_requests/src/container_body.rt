// The body of a new container.
ghost use Rattle.std.specs.Prelude.{◌≡◌, IfOk};
ghost use Rattle.serde_json.specs.View.{view};
ghost use Rattle.kms_requests.specs.Fields.{Gives};
ghost use Rattle.kms_requests.specs.ContainerBody as spec;
ghost use Rattle.std.specs.Prelude.{option_map};
ghost use Rattle.serde_json.specs.View.{items_view};

use crate::body::body;
use crate::fields::{BodyFault, list, text, text_of};
use kms_world::{ContainerBody, Field, MemberBodies, MemberBody, NoMemory, Refusal, Text};
use serde_json::Value;
use std::alloc::Global;

#[tactic(auto, unfolding(crate::specs::ContainerBody::listed_of))]
fn listed(alloc: Global, d: &Value, field: Field) -> Result<MemberBody, BodyFault>
    ensures { Gives (λ b. b) result (spec.listed_of field (view d.now)) }
{
    if !d.is_object() {
        return Err(BodyFault::Refused(Refusal::BadBody(field)));
    }
    Ok(MemberBody {
        name: text_of(alloc, d, Field::Name, field)?,
        secret_ref: text_of(alloc, d, Field::SecretRef, field)?,
    })
}

#[tactic(auto, using(crate::proofs::ListLaws::one_member))]
fn members(alloc: Global, items: &[Value], field: Field) -> Result<MemberBodies, BodyFault>
    ensures { Gives (λ b. b) result (spec.members_of field (items_view items.now)) }
{
    let mut members = MemberBodies::new(alloc);
    for item in items {
        members.push(listed(alloc, item, field)?)?;
    }
    Ok(members)
}

fn optional_members(
    alloc: Global,
    items: Option<&[Value]>,
    field: Field,
) -> Result<Option<MemberBodies>, BodyFault>
    ensures { Gives (λ b. b) result
        (spec.optional_members field (option_map (λ vs. items_view vs.now) items.entry)) }
{
    match items {
        None => Ok(None),
        Some(items) => Ok(Some(members(alloc, items, field)?)),
    }
}

#[tactic(auto, unfolding(crate::specs::ContainerBody::container_of))]
fn container(alloc: Global, d: &Value) -> Result<ContainerBody, BodyFault>
    ensures { Gives (λ b. b) result (spec.container_of (view d.now)) }
{
    let name = text(alloc, d, Field::Name)?;
    let kind = text(alloc, d, Field::TypeName)?;
    let items = list(d, Field::SecretRefs)?;
    Ok(ContainerBody {
        name,
        kind,
        secret_refs: optional_members(alloc, items, Field::SecretRefs)?,
    })
}

fn said(
    alloc: Global,
    content_type: &Option<Text>,
    bytes: &[u8],
) -> Result<ContainerBody, BodyFault>
    ensures { Gives (λ b. b) result (spec.container_body content_type.now bytes.now) }
{
    let object = body(alloc, content_type, bytes)?;
    container(alloc, &object)
}

// The body of a new container, or the refusal that reading it gives.
pub(crate) fn container_body(
    alloc: Global,
    content_type: &Option<Text>,
    bytes: &[u8],
) -> Result<Result<ContainerBody, Refusal>, NoMemory>
    ensures { IfOk result (λ said. said ≡ spec.container_body content_type.now bytes.now) }
{
    match said(alloc, content_type, bytes) {
        Ok(body) => Ok(Ok(body)),
        Err(BodyFault::Refused(refusal)) => Ok(Err(refusal)),
        Err(BodyFault::NoMemory) => Err(NoMemory),
    }
}
