// Quotas of projects.
ghost use Rattle.std.specs.Prelude.{◌≡◌};
ghost use Rattle.kms_world.specs.QuotaKind.{word_of};

use crate::Name;

/// What a quota counts.
#[derive(Clone, Copy, Debug, PartialEq, Eq)]
pub enum QuotaKind {
    Secrets,
    Orders,
    Containers,
    Consumers,
}

impl QuotaKind {
    /// The word for the kind, as it is printed.
    pub const fn word(self) -> &'static str
        ensures { result.now ≡ word_of self }
    {
        match self {
            QuotaKind::Secrets => "secrets",
            QuotaKind::Orders => "orders",
            QuotaKind::Containers => "containers",
            QuotaKind::Consumers => "consumers",
        }
    }
}

/// The quotas of a project: at most so many rows of each kind, from 0 to 1,000,000,000, or -1 for no limit.
/// Where a value is absent there is no limit either.
#[derive(Clone, Copy, Debug, PartialEq, Eq)]
pub struct QuotaRow {
    pub project: Name,
    pub secrets: Option<i64>,
    pub orders: Option<i64>,
    pub containers: Option<i64>,
    pub consumers: Option<i64>,
}
