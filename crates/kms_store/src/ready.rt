// Changes that are ready to be applied.
ghost use Rattle.std.specs.Prelude.{◌≡◌, ◌<◌, ◌^◌, IfOk};
ghost use Rattle.kms_record.specs.Grammar.{IsChange};
ghost use Rattle.kms_store.specs.Prepared.{change_of, IsRowOf};

use kms_record::Change;
use kms_world::{ContainerRow, NoMemory};
use std::alloc::Global;
use std::marker::Model;

#[derive(Drop)]
pub(crate) enum Prepared {
    /// the row that a change puts
    Container(ContainerRow),
    /// a change that puts no container
    Other(Change),
}

/// A change with all the memory that its row needs, to be applied to the tables of a store with this tag. Contracts see the
/// tag and the change.
#[derive(Drop)]
pub struct Ready {
    pub(crate) tag: u64,
    pub(crate) prepared: Prepared,
}

impl Model for Ready {
    ghost use Rattle.kms_store.specs.Ready.{TaggedChange};

    ghost Value = { TaggedChange };

    ghost use Rattle.kms_store.specs.ReadyFields.{tagged, IsPrepared};

    ghost view = { tagged };

    ghost invariant = { IsPrepared };
}

fn prepare(alloc: Global, tag: u64, change: Change) -> Result<Prepared, NoMemory>
    requires tag { tag < 2 ^ 60 }
    requires change { IsChange change }
    ensures row { IfOk result (IsRowOf tag) }
    ensures change { IfOk result (λ p. change_of p ≡ change) }
{
    match change {
        Change::ContainerPut(put) => Ok(Prepared::Container(put.into_row(alloc, tag)?)),
        other => Ok(Prepared::Other(other)),
    }
}

impl Ready {
    /// Makes a change ready for the tables of this tag.
    pub(crate) fn of(alloc: Global, tag: u64, change: Change) -> Result<Ready, NoMemory>
        requires tag { tag < 2 ^ 60 }
        requires change { IsChange change }
        ensures { IfOk result (λ r. r ≡ record { tag = tag; change = change }) }
    {
        let prepared = prepare(alloc, tag, change)?;
        Ok(Ready { tag, prepared })
    }
}
