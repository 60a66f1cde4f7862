// What a request asks for.
use crate::{
    AclBody, Bytes, Caller, ConsumerBody, ContainerBody, Id, MemberBody, MetadataBody, Name,
    OrderBody, PairBody, QuotaBody, Refusal, SecretBody, Text,
};

/// What an access list is of.
#[derive(Clone, Copy, Debug, PartialEq, Eq)]
pub enum AclKind {
    Secret,
    Container,
}

/// The fields of a request that say what its bytes are, each as it stands there. A field that stands more than once or
/// isn't UTF-8 is the empty text.
#[derive(Drop, Debug)]
pub struct PutShape {
    pub content_type: Option<Text>,
    pub content_encoding: Option<Text>,
}

/// What a request asks for. A body is the typed body, or the refusal that reading it gave. An id, a key or a project is
/// None where its part of the path isn't of the right form. `accept` is the Accept fields, joined by commas; `query` is
/// the text after `?`, empty where there is none.
#[derive(Drop, Debug)]
pub enum Op {
    /// `GET /v1/secrets`
    ListSecrets {
        query: Text,
    },
    /// `POST /v1/secrets`
    PostSecret {
        body: Result<SecretBody, Refusal>,
    },
    /// `GET /v1/secrets/{id}`
    GetSecret {
        id: Option<Id>,
        accept: Option<Text>,
    },
    /// `PUT /v1/secrets/{id}`
    PutPayload {
        id: Option<Id>,
        put: PutShape,
        body: Bytes,
    },
    /// `DELETE /v1/secrets/{id}`
    DeleteSecret {
        id: Option<Id>,
    },
    /// `GET /v1/secrets/{id}/payload`
    GetPayload {
        id: Option<Id>,
        accept: Option<Text>,
    },
    /// `GET /v1/secrets/{id}/metadata`
    GetMetadata {
        id: Option<Id>,
    },
    /// `PUT /v1/secrets/{id}/metadata`
    PutMetadata {
        id: Option<Id>,
        body: Result<MetadataBody, Refusal>,
    },
    /// `POST /v1/secrets/{id}/metadata`
    PostPair {
        id: Option<Id>,
        body: Result<PairBody, Refusal>,
    },
    /// `GET /v1/secrets/{id}/metadata/{key}`
    GetPair {
        id: Option<Id>,
        key: Option<Text>,
    },
    /// `PUT /v1/secrets/{id}/metadata/{key}`
    PutPair {
        id: Option<Id>,
        key: Option<Text>,
        body: Result<PairBody, Refusal>,
    },
    /// `DELETE /v1/secrets/{id}/metadata/{key}`
    DeletePair {
        id: Option<Id>,
        key: Option<Text>,
    },
    /// `GET /v1/secrets/{id}/acl`, and that of a container
    GetAcl {
        kind: AclKind,
        id: Option<Id>,
    },
    /// `PUT /v1/secrets/{id}/acl`, and that of a container
    PutAcl {
        kind: AclKind,
        id: Option<Id>,
        body: Result<AclBody, Refusal>,
    },
    /// `PATCH /v1/secrets/{id}/acl`, and that of a container
    PatchAcl {
        kind: AclKind,
        id: Option<Id>,
        body: Result<AclBody, Refusal>,
    },
    /// `DELETE /v1/secrets/{id}/acl`, and that of a container
    DeleteAcl {
        kind: AclKind,
        id: Option<Id>,
    },
    /// `GET /v1/containers`
    ListContainers {
        query: Text,
    },
    /// `POST /v1/containers`
    PostContainer {
        body: Result<ContainerBody, Refusal>,
    },
    /// `GET /v1/containers/{id}`
    GetContainer {
        id: Option<Id>,
    },
    /// `DELETE /v1/containers/{id}`
    DeleteContainer {
        id: Option<Id>,
    },
    /// `POST /v1/containers/{id}/secrets`
    PostMember {
        id: Option<Id>,
        body: Result<MemberBody, Refusal>,
    },
    /// `DELETE /v1/containers/{id}/secrets`
    DeleteMember {
        id: Option<Id>,
        body: Result<MemberBody, Refusal>,
    },
    /// `GET /v1/containers/{id}/consumers`
    ListConsumers {
        id: Option<Id>,
        query: Text,
    },
    /// `POST /v1/containers/{id}/consumers`
    PostConsumer {
        id: Option<Id>,
        body: Result<ConsumerBody, Refusal>,
    },
    /// `DELETE /v1/containers/{id}/consumers`
    DeleteConsumer {
        id: Option<Id>,
        body: Result<ConsumerBody, Refusal>,
    },
    /// `GET /v1/orders`
    ListOrders {
        query: Text,
    },
    /// `POST /v1/orders`
    PostOrder {
        body: Result<OrderBody, Refusal>,
    },
    /// `GET /v1/orders/{id}`
    GetOrder {
        id: Option<Id>,
    },
    /// `DELETE /v1/orders/{id}`
    DeleteOrder {
        id: Option<Id>,
    },
    /// `GET /v1/quotas`
    GetQuotas,
    /// `GET /v1/project-quotas`
    ListQuotas {
        query: Text,
    },
    /// `GET /v1/project-quotas/{project}`
    GetProjectQuotas {
        project: Option<Name>,
    },
    /// `PUT /v1/project-quotas/{project}`
    PutProjectQuotas {
        project: Option<Name>,
        body: Result<QuotaBody, Refusal>,
    },
    /// `DELETE /v1/project-quotas/{project}`
    DeleteProjectQuotas {
        project: Option<Name>,
    },
}

/// What a message asks for: an operation of a caller, or it was refused before one was known.
#[derive(Drop, Debug)]
pub enum Request {
    /// an operation of a caller
    Asking(Caller, Op),
    /// refused before a caller or an operation was known
    Refusing(Refusal),
}
