// Metadata of secrets as bodies.
ghost use Rattle.std.specs.Prelude.{◌≡◌, false, IfOk, OnOk};
ghost use Rattle.serde_json.specs.Data.{put, string};
ghost use Rattle.serde_json.specs.View.{view, members_view};
ghost use Rattle.serde_json.specs.Written.{compact_text};
ghost use Rattle.kms_json.specs.Metadata.{pairs_data, metadata_data, pair_data};
ghost use Rattle.kms_json.specs.Tokens.{Adds, data_tokens};

use crate::writing::put_text;
use json::Writer;
use kms_world::{Bytes, NoMemory, Text};
use serde_json::{Map, Value};
use std::alloc::Global;

// Puts a value under a key.
fn put(
    alloc: Global,
    members: &mut Map<String, Value>,
    key: &str,
    value: Value,
) -> Result<(), NoMemory>
    ensures { OnOk result (members_view members.new.entries ≡ put key.now (view value) (members_view members.old.entries)) }
{
    let key = String::from_str(alloc, key)?;
    members.insert(key, value)?;
    Ok(())
}

fn pairs_value(alloc: Global, pairs: &[(Text, Text)]) -> Result<Value, NoMemory>
    ensures { IfOk result (λ value. view value ≡ pairs_data pairs.now) }
{
    let mut members = Map::new(alloc);
    for pair in pairs {
        let value = Value::try_from_str(alloc, pair.1.as_str())?;
        put(alloc, &mut members, pair.0.as_str(), value)?;
    }
    Ok(Value::Object(members))
}

fn metadata_value(alloc: Global, pairs: &[(Text, Text)]) -> Result<Value, NoMemory>
    ensures { IfOk result (λ value. view value ≡ metadata_data pairs.now) }
{
    let mut members = Map::new(alloc);
    let pairs = pairs_value(alloc, pairs)?;
    put(alloc, &mut members, "metadata", pairs)?;
    Ok(Value::Object(members))
}

// The object of all pairs.
#[tactic(auto, using(crate::proofs::Floats::no_float_metadata))]
pub(crate) fn metadata_body(alloc: Global, pairs: &[(Text, Text)]) -> Result<Bytes, NoMemory>
    ensures { IfOk result (λ body. body ≡ compact_text (metadata_data pairs.now)) }
{
    let value = metadata_value(alloc, pairs)?;
    Ok(Bytes::from_vec(value.to_vec(alloc)?))
}

// The object of one pair.
pub(crate) fn write_pair(out: &mut Writer, key: &Text, value: &Text) -> Result<(), NoMemory>
    ensures { OnOk result (Adds out.old out.new (data_tokens (pair_data key.now value.now))) }
{
    out.begin_object()?;
    put_text(out, "key", key.as_str())?;
    put_text(out, "value", value.as_str())?;
    out.end_object()?;
    Ok(())
}
