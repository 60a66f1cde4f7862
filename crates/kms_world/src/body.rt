// Bodies of requests, field by field, as they were read and before their rules are checked. A field is None where it
// is absent, or null.
use crate::{ListOf, Text};

/// Texts, in the order of the body.
pub type Texts = ListOf<Text>;

/// Keys and values as a body has them: the keys aren't checked, and stand in the order of the body.
pub type TextPairs = ListOf<(Text, Text)>;

/// Members of a container as a body has them.
pub type MemberBodies = ListOf<MemberBody>;

/// The body of a new secret.
#[derive(Drop, Debug)]
pub struct SecretBody {
    pub name: Option<Text>,
    pub algorithm: Option<Text>,
    pub bit_length: Option<i128>,
    pub mode: Option<Text>,
    pub secret_type: Option<Text>,
    pub expiration: Option<Text>,
    pub payload: Option<Text>,
    pub payload_content_type: Option<Text>,
    pub payload_content_encoding: Option<Text>,
}

/// The body that replaces a secret's metadata.
#[derive(Drop, Debug)]
pub struct MetadataBody {
    pub metadata: Option<TextPairs>,
}

/// The body of one pair of a secret's metadata.
#[derive(Drop, Debug)]
pub struct PairBody {
    pub key: Option<Text>,
    pub value: Option<Text>,
}

/// What an access list is to say of reading: the users, and whether the row's project may.
#[derive(Drop, Debug)]
pub struct ReadBody {
    pub users: Option<Texts>,
    pub project_access: Option<bool>,
}

/// The body of an access list.
#[derive(Drop, Debug)]
pub struct AclBody {
    pub read: Option<ReadBody>,
}

/// A secret that a container is to name, by its link and maybe under a name.
#[derive(Drop, Debug)]
pub struct MemberBody {
    pub name: Option<Text>,
    pub secret_ref: Option<Text>,
}

/// The body of a new container.
#[derive(Drop, Debug)]
pub struct ContainerBody {
    pub name: Option<Text>,
    /// the field `type`
    pub kind: Option<Text>,
    pub secret_refs: Option<MemberBodies>,
}

/// The body of a consumer that registers, or goes.
#[derive(Drop, Debug)]
pub struct ConsumerBody {
    pub name: Option<Text>,
    /// the field `URL`
    pub url: Option<Text>,
}

/// What key is ordered.
#[derive(Drop, Debug)]
pub struct MetaBody {
    pub algorithm: Option<Text>,
    pub bit_length: Option<i128>,
    pub mode: Option<Text>,
    pub name: Option<Text>,
    pub payload_content_type: Option<Text>,
    pub expiration: Option<Text>,
}

/// The body of a new order.
#[derive(Drop, Debug)]
pub struct OrderBody {
    /// the field `type`
    pub kind: Option<Text>,
    pub meta: Option<MetaBody>,
}

/// The limits that a project's quotas are to have, as the numbers that were read.
#[derive(Clone, Copy, Debug, PartialEq, Eq)]
pub struct QuotaValues {
    pub secrets: Option<i128>,
    pub orders: Option<i128>,
    pub containers: Option<i128>,
    pub consumers: Option<i128>,
}

/// The body of a project's quotas.
#[derive(Clone, Copy, Debug, PartialEq, Eq)]
pub struct QuotaBody {
    pub project_quotas: Option<QuotaValues>,
}
