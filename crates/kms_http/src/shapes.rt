// What the methods of each path ask for.
ghost use Rattle.std.specs.Prelude.{◌≡◌, IfOk};
ghost use Rattle.kms_http.specs.Routing as spec;

use crate::head_parts::{accept_in, content_type_in, id_in, key_in, project_in, put_in, query_in};
use crate::message::Head;
use crate::method::Method;
use crate::path::Path;
use kms_world::{AclKind, NoMemory, Shape};
use std::alloc::Global;

fn secrets(alloc: Global, method: Method, head: &Head) -> Result<Option<Shape>, NoMemory>
    ensures { IfOk result (λ shape. shape ≡ spec.secrets_shape method head.now) }
{
    match method {
        Method::Get => Ok(Some(Shape::ListSecrets {
            query: query_in(alloc, head)?,
        })),
        Method::Post => Ok(Some(Shape::PostSecret {
            content_type: content_type_in(alloc, head)?,
        })),
        Method::Put | Method::Patch | Method::Delete => Ok(None),
    }
}

fn secret(alloc: Global, method: Method, head: &Head) -> Result<Option<Shape>, NoMemory>
    ensures { IfOk result (λ shape. shape ≡ spec.secret_shape method head.now) }
{
    match method {
        Method::Get => Ok(Some(Shape::GetSecret {
            id: id_in(head),
            accept: accept_in(alloc, head)?,
        })),
        Method::Put => Ok(Some(Shape::PutPayload {
            id: id_in(head),
            put: put_in(alloc, head)?,
        })),
        Method::Delete => Ok(Some(Shape::DeleteSecret { id: id_in(head) })),
        Method::Post | Method::Patch => Ok(None),
    }
}

fn payload(alloc: Global, method: Method, head: &Head) -> Result<Option<Shape>, NoMemory>
    ensures { IfOk result (λ shape. shape ≡ spec.payload_shape method head.now) }
{
    match method {
        Method::Get => Ok(Some(Shape::GetPayload {
            id: id_in(head),
            accept: accept_in(alloc, head)?,
        })),
        Method::Post | Method::Put | Method::Patch | Method::Delete => Ok(None),
    }
}

fn metadata(alloc: Global, method: Method, head: &Head) -> Result<Option<Shape>, NoMemory>
    ensures { IfOk result (λ shape. shape ≡ spec.metadata_shape method head.now) }
{
    match method {
        Method::Get => Ok(Some(Shape::GetMetadata { id: id_in(head) })),
        Method::Put => Ok(Some(Shape::PutMetadata {
            id: id_in(head),
            content_type: content_type_in(alloc, head)?,
        })),
        Method::Post => Ok(Some(Shape::PostPair {
            id: id_in(head),
            content_type: content_type_in(alloc, head)?,
        })),
        Method::Patch | Method::Delete => Ok(None),
    }
}

fn pair(alloc: Global, method: Method, head: &Head) -> Result<Option<Shape>, NoMemory>
    ensures { IfOk result (λ shape. shape ≡ spec.pair_shape method head.now) }
{
    match method {
        Method::Get => Ok(Some(Shape::GetPair {
            id: id_in(head),
            key: key_in(alloc, head)?,
        })),
        Method::Put => Ok(Some(Shape::PutPair {
            id: id_in(head),
            key: key_in(alloc, head)?,
            content_type: content_type_in(alloc, head)?,
        })),
        Method::Delete => Ok(Some(Shape::DeletePair {
            id: id_in(head),
            key: key_in(alloc, head)?,
        })),
        Method::Post | Method::Patch => Ok(None),
    }
}

fn acl(alloc: Global, kind: AclKind, method: Method, head: &Head) -> Result<Option<Shape>, NoMemory>
    ensures { IfOk result (λ shape. shape ≡ spec.acl_shape kind method head.now) }
{
    match method {
        Method::Get => Ok(Some(Shape::GetAcl {
            kind,
            id: id_in(head),
        })),
        Method::Put => Ok(Some(Shape::PutAcl {
            kind,
            id: id_in(head),
            content_type: content_type_in(alloc, head)?,
        })),
        Method::Patch => Ok(Some(Shape::PatchAcl {
            kind,
            id: id_in(head),
            content_type: content_type_in(alloc, head)?,
        })),
        Method::Delete => Ok(Some(Shape::DeleteAcl {
            kind,
            id: id_in(head),
        })),
        Method::Post => Ok(None),
    }
}

fn containers(alloc: Global, method: Method, head: &Head) -> Result<Option<Shape>, NoMemory>
    ensures { IfOk result (λ shape. shape ≡ spec.containers_shape method head.now) }
{
    match method {
        Method::Get => Ok(Some(Shape::ListContainers {
            query: query_in(alloc, head)?,
        })),
        Method::Post => Ok(Some(Shape::PostContainer {
            content_type: content_type_in(alloc, head)?,
        })),
        Method::Put | Method::Patch | Method::Delete => Ok(None),
    }
}

fn container(method: Method, head: &Head) -> Option<Shape>
    ensures { result ≡ spec.container_shape method head.now }
{
    match method {
        Method::Get => Some(Shape::GetContainer { id: id_in(head) }),
        Method::Delete => Some(Shape::DeleteContainer { id: id_in(head) }),
        Method::Post | Method::Put | Method::Patch => None,
    }
}

fn members(alloc: Global, method: Method, head: &Head) -> Result<Option<Shape>, NoMemory>
    ensures { IfOk result (λ shape. shape ≡ spec.members_shape method head.now) }
{
    match method {
        Method::Post => Ok(Some(Shape::PostMember {
            id: id_in(head),
            content_type: content_type_in(alloc, head)?,
        })),
        Method::Delete => Ok(Some(Shape::DeleteMember {
            id: id_in(head),
            content_type: content_type_in(alloc, head)?,
        })),
        Method::Get | Method::Put | Method::Patch => Ok(None),
    }
}

fn consumers(alloc: Global, method: Method, head: &Head) -> Result<Option<Shape>, NoMemory>
    ensures { IfOk result (λ shape. shape ≡ spec.consumers_shape method head.now) }
{
    match method {
        Method::Get => Ok(Some(Shape::ListConsumers {
            id: id_in(head),
            query: query_in(alloc, head)?,
        })),
        Method::Post => Ok(Some(Shape::PostConsumer {
            id: id_in(head),
            content_type: content_type_in(alloc, head)?,
        })),
        Method::Delete => Ok(Some(Shape::DeleteConsumer {
            id: id_in(head),
            content_type: content_type_in(alloc, head)?,
        })),
        Method::Put | Method::Patch => Ok(None),
    }
}

fn orders(alloc: Global, method: Method, head: &Head) -> Result<Option<Shape>, NoMemory>
    ensures { IfOk result (λ shape. shape ≡ spec.orders_shape method head.now) }
{
    match method {
        Method::Get => Ok(Some(Shape::ListOrders {
            query: query_in(alloc, head)?,
        })),
        Method::Post => Ok(Some(Shape::PostOrder {
            content_type: content_type_in(alloc, head)?,
        })),
        Method::Put | Method::Patch | Method::Delete => Ok(None),
    }
}

fn order(method: Method, head: &Head) -> Option<Shape>
    ensures { result ≡ spec.order_shape method head.now }
{
    match method {
        Method::Get => Some(Shape::GetOrder { id: id_in(head) }),
        Method::Delete => Some(Shape::DeleteOrder { id: id_in(head) }),
        Method::Post | Method::Put | Method::Patch => None,
    }
}

fn quotas(method: Method) -> Option<Shape>
    ensures { result ≡ spec.quotas_on method }
{
    match method {
        Method::Get => Some(Shape::GetQuotas),
        Method::Post | Method::Put | Method::Patch | Method::Delete => None,
    }
}

fn project_quotas(alloc: Global, method: Method, head: &Head) -> Result<Option<Shape>, NoMemory>
    ensures { IfOk result (λ shape. shape ≡ spec.project_quotas_shape method head.now) }
{
    match method {
        Method::Get => Ok(Some(Shape::ListQuotas {
            query: query_in(alloc, head)?,
        })),
        Method::Post | Method::Put | Method::Patch | Method::Delete => Ok(None),
    }
}

fn project_quota(alloc: Global, method: Method, head: &Head) -> Result<Option<Shape>, NoMemory>
    ensures { IfOk result (λ shape. shape ≡ spec.project_quota_shape method head.now) }
{
    match method {
        Method::Get => Ok(Some(Shape::GetProjectQuotas {
            project: project_in(head),
        })),
        Method::Put => Ok(Some(Shape::PutProjectQuotas {
            project: project_in(head),
            content_type: content_type_in(alloc, head)?,
        })),
        Method::Delete => Ok(Some(Shape::DeleteProjectQuotas {
            project: project_in(head),
        })),
        Method::Post | Method::Patch => Ok(None),
    }
}

/// What a request of this path and method asks for. None where the path hasn't the method.
#[tactic(auto, unfolding(crate::specs::Routing::shape_on))]
pub fn shape_on(
    alloc: Global,
    path: Path,
    method: Method,
    head: &Head,
) -> Result<Option<Shape>, NoMemory>
    ensures { IfOk result (λ shape. shape ≡ spec.shape_on path method head.now) }
{
    match path {
        Path::Secrets => secrets(alloc, method, head),
        Path::Secret => secret(alloc, method, head),
        Path::Payload => payload(alloc, method, head),
        Path::Metadata => metadata(alloc, method, head),
        Path::Pair => pair(alloc, method, head),
        Path::SecretAcl => acl(alloc, AclKind::Secret, method, head),
        Path::ContainerAcl => acl(alloc, AclKind::Container, method, head),
        Path::Containers => containers(alloc, method, head),
        Path::Container => Ok(container(method, head)),
        Path::Members => members(alloc, method, head),
        Path::Consumers => consumers(alloc, method, head),
        Path::Orders => orders(alloc, method, head),
        Path::Order => Ok(order(method, head)),
        Path::Quotas => Ok(quotas(method)),
        Path::ProjectQuotas => project_quotas(alloc, method, head),
        Path::ProjectQuota => project_quota(alloc, method, head),
    }
}
