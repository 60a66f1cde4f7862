// Rows in tables, and rows by what names them.
ghost use Rattle.std.specs.Prelude.{◌≡◌, ◌<◌, ◌≤◌, ◌+◌, ◌^◌, option_copied, OnOk, ℕ};
ghost use Rattle.kms_world.specs.LookUp.{secret_of, container_of, order_of, acl_of, quota_of};
ghost use Rattle.kms_kept.specs.Kept.{is_taken, kept_first, key_of};
ghost use Rattle.kms_store.specs.Rows.{kept_in, AreOrdered, HasSpace};
ghost use Rattle.kms_store.specs.Table.{Rises};

use crate::KeptSecret;
use crate::consumers::Consumers;
use crate::keyed::KeyedTable;
use crate::keys::key_in;
use crate::table::Table;
use kms_record::WrappedKey;
use kms_world::{AclRow, ContainerRow, Id, Name, NoMemory, OrderRow, QuotaRow};
use std::alloc::Global;

/// The rows of a store in their tables, each in order of creation, and the wrapped keys.
#[derive(Drop)]
pub(crate) struct Rows {
    pub(crate) tag: u64,
    pub(crate) ids: u64,
    pub(crate) secrets: Table<KeptSecret>,
    pub(crate) containers: Table<ContainerRow>,
    pub(crate) consumers: Consumers,
    pub(crate) orders: Table<OrderRow>,
    pub(crate) acls: KeyedTable<AclRow>,
    pub(crate) quotas: KeyedTable<QuotaRow>,
    pub(crate) keys: Vec<WrappedKey>,
}

impl Rows {
    /// No rows, under this tag and where so many ids were given.
    pub(crate) fn first(alloc: Global, tag: u64, ids: u64) -> Rows
        requires tag { tag < 2 ^ 60 }
        requires ids { ids ≤ 2 ^ 62 }
        ensures kept { kept_in result ≡ kept_first tag ids }
        ensures space { HasSpace 0 result }
        ensures ordered { AreOrdered result }
    {
        Rows {
            tag,
            ids,
            secrets: Table::new(alloc),
            containers: Table::new(alloc),
            consumers: Consumers::new(alloc),
            orders: Table::new(alloc),
            acls: KeyedTable::new(alloc),
            quotas: KeyedTable::new(alloc),
            keys: Vec::new(alloc),
        }
    }

    /// Memory for so many rows more in each table. The rows are as before.
    pub(crate) fn reserve(&mut self, rows: usize) -> Result<(), NoMemory>
        ensures kept { kept_in self.new ≡ kept_in self.old }
        ensures ok { OnOk result (HasSpace rows self.new) }
        ensures space { (n : ℕ) → HasSpace n self.old → HasSpace n self.new }
    {
        self.secrets.reserve(rows)?;
        self.containers.reserve(rows)?;
        self.consumers.reserve(rows)?;
        self.orders.reserve(rows)?;
        self.acls.reserve(rows)?;
        self.quotas.reserve(rows)?;
        self.keys.reserve(rows)?;
        Ok(())
    }

    pub(crate) fn secret(&self, id: Id) -> Option<&KeptSecret>
        requires { AreOrdered self.now }
        ensures { option_copied result ≡ secret_of id self.now.secrets.items }
    {
        self.secrets.found(id)
    }

    pub(crate) fn container(&self, id: Id) -> Option<&ContainerRow>
        requires { AreOrdered self.now }
        ensures { option_copied result ≡ container_of id self.now.containers.items }
    {
        self.containers.found(id)
    }

    pub(crate) fn order(&self, id: Id) -> Option<&OrderRow>
        requires { AreOrdered self.now }
        ensures { option_copied result ≡ order_of id self.now.orders.items }
    {
        self.orders.found(id)
    }

    pub(crate) fn acl(&self, target: Id) -> Option<&AclRow>
        ensures { option_copied result ≡ acl_of target self.now.acls.items }
    {
        self.acls.found(&target)
    }

    pub(crate) fn quota(&self, project: &Name) -> Option<&QuotaRow>
        ensures { option_copied result ≡ quota_of project.now self.now.quotas.items }
    {
        self.quotas.found(project)
    }

    pub(crate) fn key(&self, project: &Name, number: u32) -> Option<&WrappedKey>
        requires { AreOrdered self.now }
        ensures { option_copied result ≡ key_of project.now number self.now.keys.items }
    {
        key_in(&self.keys, project, number)
    }

    /// A secret, container or order has this id.
    pub(crate) fn is_taken(&self, id: Id) -> bool
        requires { AreOrdered self.now }
        ensures { result ≡ is_taken (kept_in self.now).state id }
    {
        self.secret(id).is_some() || self.container(id).is_some() || self.order(id).is_some()
    }
}
