// What a request's path, method and fields ask for, before its body is read.
use crate::{AclKind, Id, Name, PutShape, Text};

/// An operation without its body: that of the variant of `Op` with the same name. In the place of a JSON body stands the
/// body's Content-Type, where there is one; one that stands more than once or isn't UTF-8 is the empty text.
#[derive(Drop, Debug)]
pub enum Shape {
    /// `GET /v1/secrets`
    ListSecrets {
        query: Text,
    },
    /// `POST /v1/secrets`
    PostSecret {
        content_type: Option<Text>,
    },
    /// `GET /v1/secrets/{id}`
    GetSecret {
        id: Option<Id>,
        accept: Option<Text>,
    },
    /// `PUT /v1/secrets/{id}`
    PutPayload {
        id: Option<Id>,
        put: PutShape,
    },
    /// `DELETE /v1/secrets/{id}`
    DeleteSecret {
        id: Option<Id>,
    },
    /// `GET /v1/secrets/{id}/payload`
    GetPayload {
        id: Option<Id>,
        accept: Option<Text>,
    },
    /// `GET /v1/secrets/{id}/metadata`
    GetMetadata {
        id: Option<Id>,
    },
    /// `PUT /v1/secrets/{id}/metadata`
    PutMetadata {
        id: Option<Id>,
        content_type: Option<Text>,
    },
    /// `POST /v1/secrets/{id}/metadata`
    PostPair {
        id: Option<Id>,
        content_type: Option<Text>,
    },
    /// `GET /v1/secrets/{id}/metadata/{key}`
    GetPair {
        id: Option<Id>,
        key: Option<Text>,
    },
    /// `PUT /v1/secrets/{id}/metadata/{key}`
    PutPair {
        id: Option<Id>,
        key: Option<Text>,
        content_type: Option<Text>,
    },
    /// `DELETE /v1/secrets/{id}/metadata/{key}`
    DeletePair {
        id: Option<Id>,
        key: Option<Text>,
    },
    /// `GET /v1/secrets/{id}/acl`, and that of a container
    GetAcl {
        kind: AclKind,
        id: Option<Id>,
    },
    /// `PUT /v1/secrets/{id}/acl`, and that of a container
    PutAcl {
        kind: AclKind,
        id: Option<Id>,
        content_type: Option<Text>,
    },
    /// `PATCH /v1/secrets/{id}/acl`, and that of a container
    PatchAcl {
        kind: AclKind,
        id: Option<Id>,
        content_type: Option<Text>,
    },
    /// `DELETE /v1/secrets/{id}/acl`, and that of a container
    DeleteAcl {
        kind: AclKind,
        id: Option<Id>,
    },
    /// `GET /v1/containers`
    ListContainers {
        query: Text,
    },
    /// `POST /v1/containers`
    PostContainer {
        content_type: Option<Text>,
    },
    /// `GET /v1/containers/{id}`
    GetContainer {
        id: Option<Id>,
    },
    /// `DELETE /v1/containers/{id}`
    DeleteContainer {
        id: Option<Id>,
    },
    /// `POST /v1/containers/{id}/secrets`
    PostMember {
        id: Option<Id>,
        content_type: Option<Text>,
    },
    /// `DELETE /v1/containers/{id}/secrets`
    DeleteMember {
        id: Option<Id>,
        content_type: Option<Text>,
    },
    /// `GET /v1/containers/{id}/consumers`
    ListConsumers {
        id: Option<Id>,
        query: Text,
    },
    /// `POST /v1/containers/{id}/consumers`
    PostConsumer {
        id: Option<Id>,
        content_type: Option<Text>,
    },
    /// `DELETE /v1/containers/{id}/consumers`
    DeleteConsumer {
        id: Option<Id>,
        content_type: Option<Text>,
    },
    /// `GET /v1/orders`
    ListOrders {
        query: Text,
    },
    /// `POST /v1/orders`
    PostOrder {
        content_type: Option<Text>,
    },
    /// `GET /v1/orders/{id}`
    GetOrder {
        id: Option<Id>,
    },
    /// `DELETE /v1/orders/{id}`
    DeleteOrder {
        id: Option<Id>,
    },
    /// `GET /v1/quotas`
    GetQuotas,
    /// `GET /v1/project-quotas`
    ListQuotas {
        query: Text,
    },
    /// `GET /v1/project-quotas/{project}`
    GetProjectQuotas {
        project: Option<Name>,
    },
    /// `PUT /v1/project-quotas/{project}`
    PutProjectQuotas {
        project: Option<Name>,
        content_type: Option<Text>,
    },
    /// `DELETE /v1/project-quotas/{project}`
    DeleteProjectQuotas {
        project: Option<Name>,
    },
}
