// Opening all that tables keep.
ghost use Rattle.std.specs.Prelude.{◌≡◌, IfOk, IfErr, OnOk};
ghost use Rattle.std.specs.List.{AllByRecursion, AllZip};
ghost use Rattle.kms_ring.specs.Ring.{IsUnwrapped};
ghost use Rattle.kms_sealing.specs.Opening.{IsUnwrapRefusal, IsOpenRefusal, PayloadOpens};
ghost use Rattle.kms_sealing.specs.ProjectKeys.{AreOf};

use crate::fault::PayloadFault;
use crate::project_keys::look_up;
use crate::{OpeningFault, ProjectKeys};
use kms_fernet::FernetKey;
use kms_record::WrappedKey;
use kms_ring::Ring;
use kms_store::Tables;
use std::alloc::Global;

/// The project keys of wrapped keys, in their order.
pub(crate) fn unwrapped(
    alloc: Global,
    ring: &Ring,
    rows: &[WrappedKey],
) -> Result<Vec<FernetKey>, OpeningFault>
    ensures ok { IfOk result (λ keys. AllZip (λ row key. IsUnwrapped ring.now row.wrapped key) rows.now keys.items) }
    ensures err { IfErr result (IsUnwrapRefusal ring.now rows.now) }
{
    let mut keys = Vec::with_capacity(alloc, rows.len())?;
    for row in rows {
        match ring.unwrap(&row.wrapped) {
            Some(key) => keys.push(FernetKey::of(key))?,
            None => return Err(OpeningFault::UnknownMaster(row.project)),
        }
    }
    Ok(keys)
}

impl ProjectKeys {
    // Opens the payload of each secret.
    pub(crate) fn open_each(&self, alloc: Global, tables: &Tables) -> Result<(), OpeningFault>
        requires { AreOf self.now tables.now.kept.keys }
        ensures ok { OnOk result (AllByRecursion (PayloadOpens self.now.masters tables.now.kept.keys) tables.now.kept.state.secrets) }
        ensures err { IfErr result (IsOpenRefusal self.now.masters tables.now.kept.keys tables.now.kept.state.secrets) }
    {
        look_up(tables);
        for secret in tables.secrets() {
            match self.opened(alloc, tables, secret) {
                Ok(_) => {}
                Err(PayloadFault::Closed) => return Err(OpeningFault::Damaged(secret.row().id)),
                Err(PayloadFault::NoMemory) => return Err(OpeningFault::NoMemory),
            }
        }
        Ok(())
    }
}
