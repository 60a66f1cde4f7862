// Steps made ready and applied to rows in memory, and the rows of each kind counted by project.
ghost use Rattle.std.specs.Prelude.{◌≡◌, true, is_some};
ghost use Rattle.kms_record.specs.Grammar.{AreSteps, IsStep};
ghost use Rattle.kms_kept.specs.Kept.{after_step};

use crate::tests::changes::{CHANGES, COUNTS, PROJECT_COUNTS, PROJECTS};
use crate::tests::loading::counts;
use crate::tests::{TAG, record};
use crate::{Part, Tables};
use kms_record::{Step, Steps, decode_body};
use kms_world::{Name, QuotaKind};
use std::alloc::Global;
use std::rt::HostRuntime;
use std::test::Fail;

// Whether the step has one change, which applies.
fn applies(tables: &Tables, step: &Step) -> bool
    requires { IsStep step.now }
    ensures { result ≡ true → is_some (after_step step.now tables.now.kept) ≡ true }
{
    match step.as_slice() {
        [change] => tables.applies(Part::Records, change),
        _ => false,
    }
}

// Makes the step ready, and applies it.
fn takes(tables: &mut Tables, step: Step) -> bool
    requires step { IsStep step }
    requires applies { is_some (after_step step tables.old.kept) ≡ true }
{
    match tables.ready_step(step) {
        Ok(ready) => {
            tables.apply_all(ready);
            true
        }
        Err(_) => false,
    }
}

// The step of one change, made ready and applied, where it applies.
fn applied(tables: &mut Tables, step: Step) -> bool
    requires { IsStep step }
{
    if applies(tables, &step) {
        takes(tables, step)
    } else {
        false
    }
}

fn applied_each(tables: &mut Tables, steps: Steps) -> bool
    requires { AreSteps steps }
{
    let mut all = true;
    for step in steps.into_vec() {
        all = applied(tables, step) && all;
    }
    all
}

fn applied_record(alloc: Global, tables: &mut Tables, bytes: &[u8]) -> bool {
    match decode_body(alloc, bytes) {
        Ok(Some(steps)) => applied_each(tables, steps),
        _ => false,
    }
}

fn applied_change(alloc: Global, tables: &mut Tables, change: &str) -> bool {
    match record(alloc, change) {
        Ok(bytes) => applied_record(alloc, tables, bytes.as_slice()),
        Err(_) => false,
    }
}

// How many rows of a kind a project has, by a walk.
fn walked(tables: &Tables, project: &Name, kind: QuotaKind) -> usize {
    match kind {
        QuotaKind::Secrets => {
            let secrets = tables.secrets().iter();
            secrets.filter(|row| row.row().project == *project).count()
        }
        QuotaKind::Orders => {
            let orders = tables.orders().iter();
            orders.filter(|row| row.project == *project).count()
        }
        QuotaKind::Containers => {
            let containers = tables.containers().iter();
            containers.filter(|row| row.project == *project).count()
        }
        QuotaKind::Consumers => {
            let consumers = tables.consumers().iter();
            consumers
                .filter(|row| match tables.container(row.container) {
                    Some(container) => container.project == *project,
                    None => false,
                })
                .count()
        }
    }
}

const KINDS: [QuotaKind; 4] = [
    QuotaKind::Secrets,
    QuotaKind::Orders,
    QuotaKind::Containers,
    QuotaKind::Consumers,
];

// All counts of these projects are as by a walk, and so many rows are counted.
fn counted(tables: &Tables, projects: &[&str]) -> Option<usize> {
    let mut all = 0usize;
    for name in projects {
        let project = Name::read(name.as_bytes())?;
        for kind in KINDS {
            let count = tables.count(&project, kind);
            if count != walked(tables, &project, kind) as u64 {
                return None;
            }
            all = all.saturating_add(count as usize);
        }
    }
    Some(all)
}

// How many secrets, containers, orders and consumers there are.
fn all_counted(tables: &Tables) -> usize {
    let own = tables
        .secrets()
        .len()
        .saturating_add(tables.containers().len());
    own.saturating_add(tables.orders().len())
        .saturating_add(tables.consumers().len())
}

// There are so many rows of each kind, and they are counted.
fn are_counted(tables: &Tables, expected: &[u64; 8]) -> bool {
    counts(tables) == *expected && counted(tables, &["p0", "p1", "p2"]) == Some(all_counted(tables))
}

// How many of the changes apply one after the other, with so many rows after each.
fn passed(alloc: Global, tables: &mut Tables, changes: &[&str], expected: &[[u64; 8]]) -> usize {
    let mut passed = 0usize;
    for (change, expected) in changes.iter().zip(expected.iter()) {
        if applied_change(alloc, tables, change) && are_counted(tables, expected) {
            passed = passed.saturating_add(1);
        }
    }
    passed
}

// The same from where nothing is kept.
fn passed_first(alloc: Global, changes: &[&str], expected: &[[u64; 8]]) -> usize {
    let mut tables = Tables::first(alloc, TAG, 0);
    passed(alloc, &mut tables, changes, expected)
}

#[test]
fn steps_are_made_ready_and_applied(rt: HostRuntime) -> Result<(), Fail> {
    assert_eq!(rt;
        passed_first(rt.alloc(), &CHANGES, &COUNTS[1..]),
        CHANGES.len()
    );
    Ok(())
}

#[test]
fn rows_are_counted_by_project(rt: HostRuntime) -> Result<(), Fail> {
    assert_eq!(rt;
        passed_first(rt.alloc(), &PROJECTS, &PROJECT_COUNTS),
        PROJECTS.len()
    );
    Ok(())
}
