// The rows of a snapshot, one change after the other.
ghost use Rattle.std.specs.Prelude.{◌≡◌};
ghost use Rattle.kms_kept.specs.Snapshot.{snapshot_of};
ghost use Rattle.kms_store.specs.RowsLeft.{changes_left};
ghost use Rattle.kms_store.specs.Gives.{Gives};

use crate::Tables;
use crate::secrets_left::SecretsLeft;
use kms_record::{BaseChange, WrappedKey};
use kms_world::{AclRow, ConsumerRow, ContainerRow, OrderRow, QuotaRow};

/// The rows whose changes are still to be given, in a snapshot's order.
#[derive(Drop)]
pub(crate) struct RowsLeft<'a> {
    keys: &'a [WrappedKey],
    secrets: SecretsLeft<'a>,
    containers: &'a [ContainerRow],
    consumers: &'a [ConsumerRow],
    acls: &'a [AclRow],
    orders: &'a [OrderRow],
    quotas: &'a [QuotaRow],
}

impl<'a> RowsLeft<'a> {
    /// All rows of the tables.
    pub(crate) fn of(tables: &'a Tables) -> RowsLeft<'a>
        ensures { changes_left result ≡ snapshot_of tables.now.kept }
    {
        RowsLeft {
            keys: tables.keys(),
            secrets: SecretsLeft::of(tables.secrets()),
            containers: tables.containers(),
            consumers: tables.consumers(),
            acls: tables.acls(),
            orders: tables.orders(),
            quotas: tables.quotas(),
        }
    }

    /// The next change, if one is left.
    pub(crate) fn next(&mut self) -> Option<BaseChange<'a>>
        ensures { Gives result (changes_left self.old) (changes_left self.new) }
    {
        if let Some((key, rest)) = self.keys.split_first() {
            self.keys = rest;
            return Some(BaseChange::Key(key));
        }
        if let Some(change) = self.secrets.next() {
            return Some(change);
        }
        if let Some((row, rest)) = self.containers.split_first() {
            self.containers = rest;
            return Some(BaseChange::Container(row));
        }
        if let Some((row, rest)) = self.consumers.split_first() {
            self.consumers = rest;
            return Some(BaseChange::Consumer(row));
        }
        if let Some((row, rest)) = self.acls.split_first() {
            self.acls = rest;
            return Some(BaseChange::Acl(row));
        }
        if let Some((row, rest)) = self.orders.split_first() {
            self.orders = rest;
            return Some(BaseChange::Order(row));
        }
        if let Some((row, rest)) = self.quotas.split_first() {
            self.quotas = rest;
            return Some(BaseChange::Quota(row));
        }
        None
    }
}
