// What the key manager answers.
use crate::{
    AclRow, ConsumerRow, ContainerRow, Id, ListOf, OrderRow, Pairs, Payload, QuotaRow, Refusal,
    SecretRow, Text,
};

/// What a link leads to.
#[derive(Clone, Copy, Debug, PartialEq, Eq)]
pub enum Link {
    Secret,
    /// a secret's metadata
    Metadata,
    /// a secret's access list
    SecretAcl,
    /// a container's access list
    ContainerAcl,
    Container,
    Order,
}

/// Consumers in order of creation.
pub type ConsumerRows = ListOf<ConsumerRow>;

/// A container as it is shown: with its consumers.
#[derive(Drop, Debug)]
pub struct ContainerView {
    pub row: ContainerRow,
    pub consumers: ConsumerRows,
}

/// The rows of one page of a list, in the page's order.
#[derive(Drop, Debug)]
pub enum ListRows {
    Secrets(ListOf<SecretRow>),
    Containers(ListOf<ContainerView>),
    Consumers(ConsumerRows),
    Orders(ListOf<OrderRow>),
    Quotas(ListOf<QuotaRow>),
}

/// The answer to an operation, before it is printed. Of a secret that is shown, alone or in a list, the metadata and the
/// payload's bytes are left empty.
#[derive(Drop, Debug)]
pub enum Answer {
    Refused(Refusal),
    /// The status, 200 or 204, of an answer without a body.
    Empty(u16),
    /// A status and the link to what was made or changed.
    Link {
        status: u16,
        link: Link,
        id: Id,
    },
    /// A secret's attributes.
    Secret(SecretRow),
    Payload(Payload),
    Metadata(Pairs),
    Pair {
        status: u16,
        key: Text,
        value: Text,
    },
    /// An access list, None where there is none.
    Acl(Option<AclRow>),
    Order(OrderRow),
    Container(ContainerView),
    /// The limits in force for the caller's project, each there, and -1 where it is unlimited.
    Quotas(QuotaRow),
    /// The quotas of a project as they were set.
    ProjectQuotas(QuotaRow),
    /// A page of a list: the path after `/v1`, the query's text, the page's rows, and how many rows there are in all.
    List {
        path: Text,
        query: Text,
        rows: ListRows,
        total: u64,
    },
}
