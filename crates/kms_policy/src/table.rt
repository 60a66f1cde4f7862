// The action table.
ghost use Rattle.std.specs.Prelude.{◌≡◌};
ghost use Rattle.kms_policy.specs.Policy as spec;

use kms_world::{Action, Roles};

// What serves an action: the row's access list, its owner, and these roles.
#[derive(Clone, Copy)]
pub struct Entry {
    pub list_serves: bool,
    pub owner_serves: bool,
    pub roles: Roles,
}

const WRITERS: Roles = Roles {
    admin: true,
    creator: true,
    observer: false,
    audit: false,
    service_admin: false,
};

const READERS: Roles = Roles {
    admin: true,
    creator: true,
    observer: true,
    audit: false,
    service_admin: false,
};

const READERS_AND_AUDIT: Roles = Roles {
    admin: true,
    creator: true,
    observer: true,
    audit: true,
    service_admin: false,
};

const ADMINS: Roles = Roles {
    admin: true,
    creator: false,
    observer: false,
    audit: false,
    service_admin: false,
};

const SERVICE_ADMINS: Roles = Roles {
    admin: false,
    creator: false,
    observer: false,
    audit: false,
    service_admin: true,
};

fn serving(list_serves: bool, owner_serves: bool, roles: Roles) -> Entry
    ensures { result ≡ spec.serving list_serves owner_serves roles }
{
    Entry {
        list_serves,
        owner_serves,
        roles,
    }
}

// The line of the table for an action.
pub fn entry_of(action: Action) -> Entry
    ensures { result ≡ spec.entry_of action }
{
    match action {
        Action::SecretCreate => serving(false, false, WRITERS),
        Action::ContainerCreate => serving(false, false, WRITERS),
        Action::OrderCreate => serving(false, false, WRITERS),
        Action::SecretList => serving(false, false, READERS),
        Action::ContainerList => serving(false, false, READERS),
        Action::OrderList => serving(false, false, READERS),
        Action::SecretGet => serving(true, true, READERS_AND_AUDIT),
        Action::ContainerGet => serving(true, true, READERS_AND_AUDIT),
        Action::ConsumerGet => serving(true, true, READERS_AND_AUDIT),
        Action::SecretDecrypt => serving(true, true, READERS),
        Action::ConsumerWrite => serving(true, true, READERS),
        Action::SecretWrite => serving(false, true, WRITERS),
        Action::SecretDelete => serving(false, true, WRITERS),
        Action::ContainerWrite => serving(false, true, WRITERS),
        Action::ContainerDelete => serving(false, true, WRITERS),
        Action::AclWrite => serving(false, true, WRITERS),
        Action::AclGet => serving(false, true, READERS),
        Action::OrderGet => serving(false, false, READERS_AND_AUDIT),
        Action::OrderDelete => serving(false, true, ADMINS),
        Action::QuotaGet => serving(false, false, READERS_AND_AUDIT),
        Action::QuotaAdmin => serving(false, false, SERVICE_ADMINS),
    }
}
