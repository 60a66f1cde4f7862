// Who calls.
use crate::Name;

/// The roles that the key manager knows; it ignores all others. `service_admin` is written `key-manager:service-admin`.
#[derive(Clone, Copy, Debug, PartialEq, Eq)]
pub struct Roles {
    pub admin: bool,
    pub creator: bool,
    pub observer: bool,
    pub audit: bool,
    pub service_admin: bool,
}

/// Who makes a request: a user with roles in a project, as the gateway in front says it.
#[derive(Clone, Copy, Debug, PartialEq, Eq)]
pub struct Caller {
    pub project: Name,
    pub user: Name,
    pub roles: Roles,
}
