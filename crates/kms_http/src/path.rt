// The paths of the API.

/// A path of the API, without what its parameters are.
#[derive(Clone, Copy, Debug, PartialEq, Eq)]
pub enum Path {
    /// `/v1/secrets`
    Secrets,
    /// `/v1/secrets/{id}`
    Secret,
    /// `/v1/secrets/{id}/payload`
    Payload,
    /// `/v1/secrets/{id}/metadata`
    Metadata,
    /// `/v1/secrets/{id}/metadata/{key}`
    Pair,
    /// `/v1/secrets/{id}/acl`
    SecretAcl,
    /// `/v1/containers/{id}/acl`
    ContainerAcl,
    /// `/v1/containers`
    Containers,
    /// `/v1/containers/{id}`
    Container,
    /// `/v1/containers/{id}/secrets`
    Members,
    /// `/v1/containers/{id}/consumers`
    Consumers,
    /// `/v1/orders`
    Orders,
    /// `/v1/orders/{id}`
    Order,
    /// `/v1/quotas`
    Quotas,
    /// `/v1/project-quotas`
    ProjectQuotas,
    /// `/v1/project-quotas/{project}`
    ProjectQuota,
}
