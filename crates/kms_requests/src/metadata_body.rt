// The body that replaces a secret's metadata.
ghost use Rattle.std.specs.Prelude.{◌≡◌, IfOk};
ghost use Rattle.serde_json.specs.View.{view};
ghost use Rattle.kms_requests.specs.Fields.{Gives};
ghost use Rattle.kms_requests.specs.MetadataBody as spec;
ghost use Rattle.std.specs.Prelude.{option_map};
ghost use Rattle.serde_json.specs.View.{members_view};

use crate::body::body;
use crate::fields::{BodyFault, object};
use kms_world::{Field, MetadataBody, NoMemory, Refusal, Text, TextPairs};
use serde_json::{Map, Value};
use std::alloc::Global;

#[tactic(auto, unfolding(crate::specs::MetadataBody::pair_of))]
fn pair(alloc: Global, key: &str, value: &Value, field: Field) -> Result<(Text, Text), BodyFault>
    ensures { Gives (λ b. b) result (spec.pair_of field key.now (view value.now)) }
{
    let Value::String(text) = value else {
        return Err(BodyFault::Refused(Refusal::BadBody(field)));
    };
    Ok((Text::of(alloc, key)?, Text::of(alloc, text.as_str())?))
}

// The pairs of an object of texts.
#[tactic(auto, using(crate::proofs::ListLaws::one_pair))]
fn pairs(alloc: Global, members: &Map<String, Value>, field: Field) -> Result<TextPairs, BodyFault>
    ensures { Gives (λ b. b) result (spec.pair_texts field (members_view members.now.entries)) }
{
    let mut pairs = TextPairs::new(alloc);
    for (key, value) in members.iter() {
        let next = pair(alloc, key.as_str(), value, field)?;
        pairs.push(next)?;
    }
    Ok(pairs)
}

fn object_pairs(alloc: Global, d: &Value, field: Field) -> Result<TextPairs, BodyFault>
    ensures { Gives (λ b. b) result (spec.pairs_of field (view d.now)) }
{
    match d.as_object() {
        Some(members) => pairs(alloc, members, field),
        None => Err(BodyFault::Refused(Refusal::BadBody(field))),
    }
}

fn optional_pairs(
    alloc: Global,
    d: Option<&Value>,
    field: Field,
) -> Result<Option<TextPairs>, BodyFault>
    ensures { Gives (λ b. b) result (spec.optional_pairs field (option_map (λ v. view v.now) d.entry)) }
{
    match d {
        None => Ok(None),
        Some(d) => Ok(Some(object_pairs(alloc, d, field)?)),
    }
}

#[tactic(auto, unfolding(crate::specs::MetadataBody::metadata_of))]
fn metadata(alloc: Global, d: &Value) -> Result<MetadataBody, BodyFault>
    ensures { Gives (λ b. b) result (spec.metadata_of (view d.now)) }
{
    let given = object(d, Field::Metadata)?;
    Ok(MetadataBody {
        metadata: optional_pairs(alloc, given, Field::Metadata)?,
    })
}

fn said(alloc: Global, content_type: &Option<Text>, bytes: &[u8]) -> Result<MetadataBody, BodyFault>
    ensures { Gives (λ b. b) result (spec.metadata_body content_type.now bytes.now) }
{
    let object = body(alloc, content_type, bytes)?;
    metadata(alloc, &object)
}

// The body that replaces a secret's metadata, or the refusal that reading it gives.
pub(crate) fn metadata_body(
    alloc: Global,
    content_type: &Option<Text>,
    bytes: &[u8],
) -> Result<Result<MetadataBody, Refusal>, NoMemory>
    ensures { IfOk result (λ said. said ≡ spec.metadata_body content_type.now bytes.now) }
{
    match said(alloc, content_type, bytes) {
        Ok(body) => Ok(Ok(body)),
        Err(BodyFault::Refused(refusal)) => Ok(Err(refusal)),
        Err(BodyFault::NoMemory) => Err(NoMemory),
    }
}
