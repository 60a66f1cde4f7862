// What a request asks for.
ghost use Rattle.std.specs.Prelude.{◌≡◌, IfOk};
ghost use Rattle.kms_requests.specs.Operation.{op_of};

use crate::acl_body::acl_body;
use crate::consumer_body::consumer_body;
use crate::container_body::container_body;
use crate::member_body::member_body;
use crate::metadata_body::metadata_body;
use crate::order_body::order_body;
use crate::pair_body::pair_body;
use crate::quota_body::quota_body;
use crate::secret_body::secret_body;
use kms_world::{Bytes, NoMemory, Op, Shape};
use std::alloc::Global;

/// What a request asks for: the operation of a shape, with the body that these bytes are. Where the operation has none,
/// the bytes are ignored; those of a new payload are kept as they are.
///
/// The other bodies are JSON (RFC 8259): a body is the typed body, or the first of these refusals that applies.
///
/// - `WrongType`: the Content-Type is there and isn't `application/json`, in any case and with any parameters;
/// - `BadBody(Field::Body)`: the bytes aren't JSON in UTF-8, or no object; or they nest deeper than 127, or have a number
///   beyond the range of a double or an escape of half a surrogate pair anywhere;
/// - `BadBody` of the first field, in the API's order, that has another JSON type than its own. An item of a list counts as
///   the list, a member's field as the list of members, and a pair of metadata as `metadata`. A number is a whole one
///   without point or exponent from -2^63 to 2^64 - 1, and `-0` isn't one.
///
/// A field that is null is absent, and unknown keys are ignored. Of one key twice the last counts. Metadata comes in the
/// order of its keys' bytes. No rule behind the types is tested here. `NoMemory` is the only error.
#[tactic(auto, unfolding(crate::specs::Operation::op_of))]
pub fn op(alloc: Global, shape: Shape, bytes: &[u8]) -> Result<Op, NoMemory>
    ensures { IfOk result (λ asked. asked ≡ op_of shape bytes.now) }
{
    match shape {
        Shape::ListSecrets { query } => Ok(Op::ListSecrets { query }),
        Shape::PostSecret { content_type } => Ok(Op::PostSecret {
            body: secret_body(alloc, &content_type, bytes)?,
        }),
        Shape::GetSecret { id, accept } => Ok(Op::GetSecret { id, accept }),
        Shape::PutPayload { id, put } => Ok(Op::PutPayload {
            id,
            put,
            body: Bytes::of(alloc, bytes)?,
        }),
        Shape::DeleteSecret { id } => Ok(Op::DeleteSecret { id }),
        Shape::GetPayload { id, accept } => Ok(Op::GetPayload { id, accept }),
        Shape::GetMetadata { id } => Ok(Op::GetMetadata { id }),
        Shape::PutMetadata { id, content_type } => Ok(Op::PutMetadata {
            id,
            body: metadata_body(alloc, &content_type, bytes)?,
        }),
        Shape::PostPair { id, content_type } => Ok(Op::PostPair {
            id,
            body: pair_body(alloc, &content_type, bytes)?,
        }),
        Shape::GetPair { id, key } => Ok(Op::GetPair { id, key }),
        Shape::PutPair {
            id,
            key,
            content_type,
        } => Ok(Op::PutPair {
            id,
            key,
            body: pair_body(alloc, &content_type, bytes)?,
        }),
        Shape::DeletePair { id, key } => Ok(Op::DeletePair { id, key }),
        Shape::GetAcl { kind, id } => Ok(Op::GetAcl { kind, id }),
        Shape::PutAcl {
            kind,
            id,
            content_type,
        } => Ok(Op::PutAcl {
            kind,
            id,
            body: acl_body(alloc, &content_type, bytes)?,
        }),
        Shape::PatchAcl {
            kind,
            id,
            content_type,
        } => Ok(Op::PatchAcl {
            kind,
            id,
            body: acl_body(alloc, &content_type, bytes)?,
        }),
        Shape::DeleteAcl { kind, id } => Ok(Op::DeleteAcl { kind, id }),
        Shape::ListContainers { query } => Ok(Op::ListContainers { query }),
        Shape::PostContainer { content_type } => Ok(Op::PostContainer {
            body: container_body(alloc, &content_type, bytes)?,
        }),
        Shape::GetContainer { id } => Ok(Op::GetContainer { id }),
        Shape::DeleteContainer { id } => Ok(Op::DeleteContainer { id }),
        Shape::PostMember { id, content_type } => Ok(Op::PostMember {
            id,
            body: member_body(alloc, &content_type, bytes)?,
        }),
        Shape::DeleteMember { id, content_type } => Ok(Op::DeleteMember {
            id,
            body: member_body(alloc, &content_type, bytes)?,
        }),
        Shape::ListConsumers { id, query } => Ok(Op::ListConsumers { id, query }),
        Shape::PostConsumer { id, content_type } => Ok(Op::PostConsumer {
            id,
            body: consumer_body(alloc, &content_type, bytes)?,
        }),
        Shape::DeleteConsumer { id, content_type } => Ok(Op::DeleteConsumer {
            id,
            body: consumer_body(alloc, &content_type, bytes)?,
        }),
        Shape::ListOrders { query } => Ok(Op::ListOrders { query }),
        Shape::PostOrder { content_type } => Ok(Op::PostOrder {
            body: order_body(alloc, &content_type, bytes)?,
        }),
        Shape::GetOrder { id } => Ok(Op::GetOrder { id }),
        Shape::DeleteOrder { id } => Ok(Op::DeleteOrder { id }),
        Shape::GetQuotas => Ok(Op::GetQuotas),
        Shape::ListQuotas { query } => Ok(Op::ListQuotas { query }),
        Shape::GetProjectQuotas { project } => Ok(Op::GetProjectQuotas { project }),
        Shape::PutProjectQuotas {
            project,
            content_type,
        } => Ok(Op::PutProjectQuotas {
            project,
            body: quota_body(alloc, &content_type, bytes)?,
        }),
        Shape::DeleteProjectQuotas { project } => Ok(Op::DeleteProjectQuotas { project }),
    }
}
