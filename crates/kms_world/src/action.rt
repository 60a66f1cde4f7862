// What a caller may do, and why not.
ghost use Rattle.std.specs.Prelude.{◌≡◌};
ghost use Rattle.kms_world.specs.Action.{word_of};
ghost use Rattle.kms_world.specs.Why.{word_of as why_word};

/// What the policy decides about. An action prints as `secret:get`.
#[derive(Clone, Copy, Debug, PartialEq, Eq)]
pub enum Action {
    SecretCreate,
    ContainerCreate,
    OrderCreate,
    SecretList,
    ContainerList,
    OrderList,
    SecretGet,
    ContainerGet,
    ConsumerGet,
    SecretDecrypt,
    ConsumerWrite,
    SecretWrite,
    SecretDelete,
    ContainerWrite,
    ContainerDelete,
    AclWrite,
    AclGet,
    OrderGet,
    OrderDelete,
    QuotaGet,
    QuotaAdmin,
}

impl Action {
    /// The action as it is printed.
    pub const fn word(self) -> &'static str
        ensures { result.now ≡ word_of self }
    {
        match self {
            Action::SecretCreate => "secret:create",
            Action::ContainerCreate => "container:create",
            Action::OrderCreate => "order:create",
            Action::SecretList => "secret:list",
            Action::ContainerList => "container:list",
            Action::OrderList => "order:list",
            Action::SecretGet => "secret:get",
            Action::ContainerGet => "container:get",
            Action::ConsumerGet => "consumer:get",
            Action::SecretDecrypt => "secret:decrypt",
            Action::ConsumerWrite => "consumer:write",
            Action::SecretWrite => "secret:write",
            Action::SecretDelete => "secret:delete",
            Action::ContainerWrite => "container:write",
            Action::ContainerDelete => "container:delete",
            Action::AclWrite => "acl:write",
            Action::AclGet => "acl:get",
            Action::OrderGet => "order:get",
            Action::OrderDelete => "order:delete",
            Action::QuotaGet => "quota:get",
            Action::QuotaAdmin => "quota:admin",
        }
    }
}

/// Why an action is denied.
#[derive(Clone, Copy, Debug, PartialEq, Eq)]
pub enum Why {
    /// the row is another project's
    Project,
    /// none of the caller's roles serves the action
    Role,
    /// the row's access list shuts its project out
    Private,
}

impl Why {
    /// The reason as it is printed.
    pub const fn word(self) -> &'static str
        ensures { result.now ≡ why_word self }
    {
        match self {
            Why::Project => "project",
            Why::Role => "role",
            Why::Private => "private",
        }
    }
}

/// The rule by which an action is denied. It prints as `secret:get/role`.
#[derive(Clone, Copy, Debug, PartialEq, Eq)]
pub struct Rule {
    pub action: Action,
    pub why: Why,
}
