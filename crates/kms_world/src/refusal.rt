// Why a request is refused.
ghost use Rattle.std.specs.Prelude.{◌≡◌};
ghost use Rattle.kms_world.specs.Field.{word_of};

use crate::{QuotaKind, Rule};

/// The methods that a path has.
#[derive(Clone, Copy, Debug, PartialEq, Eq)]
pub struct Allow {
    pub get: bool,
    pub post: bool,
    pub put: bool,
    pub patch: bool,
    pub delete: bool,
}

/// What a body or a list's query has: the whole body, or one of its fields or parameters.
#[derive(Clone, Copy, Debug, PartialEq, Eq)]
pub enum Field {
    Body,
    Name,
    Algorithm,
    BitLength,
    Mode,
    SecretType,
    Expiration,
    Payload,
    PayloadContentType,
    PayloadContentEncoding,
    Metadata,
    Key,
    Value,
    Read,
    Users,
    ProjectAccess,
    TypeName,
    SecretRefs,
    SecretRef,
    Url,
    Meta,
    ProjectQuotas,
    Secrets,
    Orders,
    Containers,
    Consumers,
    Offset,
    Limit,
    Alg,
    Bits,
    Sort,
    Created,
    Updated,
    AclOnly,
}

impl Field {
    /// The field's name as it stands in bodies and queries.
    pub const fn word(self) -> &'static str
        ensures { result.now ≡ word_of self }
    {
        match self {
            Field::Body => "body",
            Field::Name => "name",
            Field::Algorithm => "algorithm",
            Field::BitLength => "bit_length",
            Field::Mode => "mode",
            Field::SecretType => "secret_type",
            Field::Expiration => "expiration",
            Field::Payload => "payload",
            Field::PayloadContentType => "payload_content_type",
            Field::PayloadContentEncoding => "payload_content_encoding",
            Field::Metadata => "metadata",
            Field::Key => "key",
            Field::Value => "value",
            Field::Read => "read",
            Field::Users => "users",
            Field::ProjectAccess => "project-access",
            Field::TypeName => "type",
            Field::SecretRefs => "secret_refs",
            Field::SecretRef => "secret_ref",
            Field::Url => "URL",
            Field::Meta => "meta",
            Field::ProjectQuotas => "project_quotas",
            Field::Secrets => "secrets",
            Field::Orders => "orders",
            Field::Containers => "containers",
            Field::Consumers => "consumers",
            Field::Offset => "offset",
            Field::Limit => "limit",
            Field::Alg => "alg",
            Field::Bits => "bits",
            Field::Sort => "sort",
            Field::Created => "created",
            Field::Updated => "updated",
            Field::AclOnly => "acl_only",
        }
    }
}

/// Why a request is refused. After every refusal the key manager's state is as before.
#[derive(Clone, Copy, Debug, PartialEq, Eq)]
pub enum Refusal {
    /// the bytes are no request (400)
    BadMessage,
    /// the head has too many bytes or fields (431)
    HeadTooLong,
    /// the body has more than 65,536 bytes (413)
    BodyTooLong,
    /// the body's length isn't said by one Content-Length (411)
    LengthRequired,
    /// the gateway's fields name no caller (401)
    NoIdentity,
    /// no such path (404)
    NoRoute,
    /// the path hasn't this method, but these (405)
    WrongMethod(Allow),
    /// nothing is there under this id or name (404)
    NoObject,
    /// the policy denies it (403)
    Denied(Rule),
    /// the Accept field admits no type that the answer has (406)
    NotAcceptable,
    /// the body's type or encoding isn't taken here (415)
    WrongType,
    /// the body or this field of it breaks a rule (400)
    BadBody(Field),
    /// the payload has more than 20,000 bytes (413)
    PayloadTooLong,
    /// an order of a kind that isn't offered (400)
    NotOffered,
    /// something of that name is there already (409)
    Conflict,
    /// the project's quota of this kind, which has this limit, is used up (403)
    QuotaReached(QuotaKind, u32),
    /// all 2^62 ids were given (500)
    IdsSpent,
}

/// Why a body wasn't checked to its end.
#[derive(Clone, Copy, Debug, PartialEq, Eq)]
pub enum CheckFault {
    /// the first rule that it breaks
    Refused(Refusal),
    NoMemory,
}
