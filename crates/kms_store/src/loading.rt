// What a chain of records leads to, in tables.
ghost use Rattle.std.specs.Prelude.{◌≡◌, ◌<◌, ◌≤◌, ◌^◌, Some, None, IfOk, IsErrOf, OnOk};
ghost use Rattle.std.specs.List.{AllByRecursion};
ghost use Rattle.kms_record.specs.Grammar.{IsChange, AreSteps};
ghost use Rattle.kms_kept.specs.Kept.{Base, after_change, after_changes, after_record, kept_first};
ghost use Rattle.kms_store.specs.Loading.{Loads, LoadsRecords};
ghost use Rattle.kms_store.specs.Part.{part_of};
ghost use Rattle.kms_store.specs.Stands.{Applies, IsBroken, IsNoSnapshot, IsSnapshotOf};
ghost use Rattle.kms_store.specs.Tables.{Tabled};
ghost use Rattle.kms_store.specs.declared.loading.ApplyFault.TheVariants as faults;

use crate::{LoadFault, Part, Tables};
use kms_host::Bytes;
use kms_journal::Chain;
use kms_record::{Change, Steps, decode_base, decode_body};
use kms_world::NoMemory;
use std::alloc::Global;

/// Why changes weren't applied. What is kept then isn't said.
#[derive(Clone, Copy, Debug, PartialEq, Eq)]
enum ApplyFault {
    /// The bytes aren't in the grammar, or a change doesn't apply.
    Broken,
    NoMemory,
}

impl From<NoMemory> for ApplyFault {
    ghost from_gives = { λ _ fault. fault ≡ faults.NoMemory };

    fn from(_: NoMemory) -> Self {
        ApplyFault::NoMemory
    }
}

fn apply_change(tables: &mut Tables, part: Part, change: Change) -> Result<(), ApplyFault>
    requires { IsChange change }
    ensures ok { OnOk result (after_change (part_of part) change tables.old.kept ≡ Some tables.new.kept) }
    ensures broken { IsErrOf result faults.Broken → after_change (part_of part) change tables.old.kept ≡ None }
{
    if !tables.applies(part, &change) {
        return Err(ApplyFault::Broken);
    }
    let ready = tables.ready(change)?;
    tables.apply(ready);
    Ok(())
}

fn apply_changes(tables: &mut Tables, part: Part, changes: Vec<Change>) -> Result<(), ApplyFault>
    requires { AllByRecursion IsChange changes.items }
    ensures ok { OnOk result (after_changes (part_of part) changes.items tables.old.kept ≡ Some tables.new.kept) }
    ensures broken { IsErrOf result faults.Broken → after_changes (part_of part) changes.items tables.old.kept ≡ None }
{
    for change in changes {
        apply_change(tables, part, change)?;
    }
    Ok(())
}

fn apply_steps(tables: &mut Tables, steps: Steps) -> Result<(), ApplyFault>
    requires { AreSteps steps }
    ensures ok { OnOk result (after_record steps tables.old.kept ≡ Some tables.new.kept) }
    ensures broken { IsErrOf result faults.Broken → after_record steps tables.old.kept ≡ None }
{
    for step in steps.into_vec() {
        apply_changes(tables, Part::Records, step.into_vec())?;
    }
    Ok(())
}

// Broken exactly where the bytes are no record that applies.
fn apply_record(alloc: Global, tables: &mut Tables, bytes: &[u8]) -> Result<(), ApplyFault>
    ensures ok { OnOk result (Applies bytes.now tables.old.kept tables.new.kept) }
    ensures broken { IsErrOf result faults.Broken → IsBroken bytes.now tables.old.kept }
{
    match decode_body(alloc, bytes)? {
        Some(steps) => apply_steps(tables, steps),
        None => Err(ApplyFault::Broken),
    }
}

// What the changes of a snapshot lead to.
fn apply_first(
    alloc: Global,
    tag: u64,
    ids: u64,
    changes: Vec<Change>,
) -> Result<Tables, ApplyFault>
    requires tag { tag < 2 ^ 60 }
    requires ids { ids ≤ 2 ^ 62 }
    requires changes { AllByRecursion IsChange changes.items }
    ensures ok { IfOk result (λ tables. after_changes Base changes.items (kept_first tag ids) ≡ Some tables.kept) }
    ensures broken { IsErrOf result faults.Broken → after_changes Base changes.items (kept_first tag ids) ≡ None }
{
    let mut tables = Tables::first(alloc, tag, ids);
    apply_changes(&mut tables, Part::Snapshot, changes)?;
    Ok(tables)
}

// What a snapshot's bytes lead to. Broken exactly where they lead nowhere.
fn apply_snapshot(alloc: Global, tag: u64, ids: u64, bytes: &[u8]) -> Result<Tables, ApplyFault>
    ensures ok { IfOk result (λ tables. IsSnapshotOf tag ids bytes.now tables.kept) }
    ensures broken { IsErrOf result faults.Broken → IsNoSnapshot tag ids bytes.now }
{
    if tag >= 1 << 60 || ids > 1 << 62 {
        return Err(ApplyFault::Broken);
    }
    match decode_base(alloc, bytes)? {
        Some(changes) => apply_first(alloc, tag, ids, changes.into_vec()),
        None => Err(ApplyFault::Broken),
    }
}

fn load_records(
    alloc: Global,
    tables: &mut Tables,
    bodies: &[(u64, Bytes)],
) -> Result<(), LoadFault>
    ensures { LoadsRecords bodies.now tables.old.kept tables.new.kept result }
{
    for (at, bytes) in bodies {
        match apply_record(alloc, tables, bytes.as_slice()) {
            Ok(()) => {}
            Err(ApplyFault::Broken) => return Err(LoadFault::Damaged(*at)),
            Err(ApplyFault::NoMemory) => return Err(LoadFault::NoMemory),
        }
    }
    Ok(())
}

/// What is kept after a chain's snapshot and its records, or the first place of its damage.
pub fn load(alloc: Global, chain: &Chain) -> Result<Tables, LoadFault>
    ensures { Loads (λ (tables : Tabled). tables.kept) chain.now result }
{
    match apply_snapshot(alloc, chain.tag, chain.ids, chain.base.as_slice()) {
        Ok(mut tables) => {
            load_records(alloc, &mut tables, chain.bodies.as_slice())?;
            Ok(tables)
        }
        Err(ApplyFault::Broken) => Err(LoadFault::Damaged(0)),
        Err(ApplyFault::NoMemory) => Err(LoadFault::NoMemory),
    }
}
