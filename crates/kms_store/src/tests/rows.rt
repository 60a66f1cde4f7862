// Rows as changes leave them, and rows found by id.
use crate::tests::changes::{CHANGES, SECRETS};
use crate::tests::{FIRST, chain, id};
use crate::{Tables, load};
use kms_journal::Chain;
use kms_world::{Id, Name, OrderState};
use std::alloc::Global;
use std::rt::HostRuntime;
use std::test::Fail;

// The secret has the last token, under the second key, and two pairs of metadata.
fn has_its_parts(tables: &Tables) -> bool {
    let Some(secret) = tables.secret(id(0)) else {
        return false;
    };
    let row = secret.row();
    match &row.payload {
        Some(payload) => {
            payload.bytes.as_slice().first() == Some(&b'h')
                && secret.number() == 2
                && row.metadata.as_slice().len() == 2
        }
        None => false,
    }
}

fn is_done(tables: &Tables) -> bool {
    match tables.order(id(3)) {
        Some(order) => order.state == OrderState::Active(id(1)) && order.updated == 499_162_802,
        None => false,
    }
}

fn is_replaced(tables: &Tables) -> bool {
    match tables.container(id(2)) {
        Some(container) => container.name.is_some() && container.secrets.as_slice().len() == 2,
        None => false,
    }
}

fn keys_stand(tables: &Tables) -> Option<bool> {
    let p1 = Name::read(b"p1")?;
    let keys = tables.keys();
    let wrapped = tables.key(&p1, 2)?.wrapped;
    Some(
        keys.len() == 2
            && keys[0].project.as_str() == "p0"
            && keys[1].number == 2
            && wrapped[0] == 8
            && tables.key(&p1, 1).is_none(),
    )
}

fn lists_stand(tables: &Tables) -> Option<bool> {
    let quota = tables.quota(&Name::read(b"p1")?)?;
    let acl = tables.acl(id(0))?;
    Some(
        quota.secrets == Some(5)
            && quota.containers == Some(-1)
            && !acl.project_access
            && tables.acl(id(2)).is_none()
            && tables.quota(&Name::read(b"p2")?).is_none(),
    )
}

// The secret under this id has it, where there is one.
fn is_found(tables: &Tables, id: Id) -> bool {
    match tables.secret(id) {
        Some(secret) => secret.row().id == id,
        None => false,
    }
}

// What is asked of rows.
#[derive(Clone, Copy)]
enum Asked {
    /// A secret under the id of this count.
    Secret(u8),
    /// A secret under the id before the first.
    Before,
    Parts,
    Order,
    Container,
    Keys,
    Lists,
}

fn holds(tables: &Tables, asked: Asked) -> bool {
    match asked {
        Asked::Secret(count) => is_found(tables, id(count)),
        Asked::Before => is_found(tables, Id(FIRST - 1)),
        Asked::Parts => has_its_parts(tables),
        Asked::Order => is_done(tables),
        Asked::Container => is_replaced(tables),
        Asked::Keys => keys_stand(tables) == Some(true),
        Asked::Lists => lists_stand(tables) == Some(true),
    }
}

// Whether it holds of the rows that a chain leads to, if it leads to some.
fn holds_of(alloc: Global, chain: &Chain, asked: Asked) -> Option<bool> {
    match load(alloc, chain) {
        Ok(tables) => Some(holds(&tables, asked)),
        Err(_) => None,
    }
}

// Whether it holds of the rows that these changes lead to, if they do.
fn holds_after(alloc: Global, changes: &[&str], asked: Asked) -> Option<bool> {
    match chain(alloc, 0, &[0; 8], changes) {
        Ok(chain) => holds_of(alloc, &chain, asked),
        Err(_) => None,
    }
}

#[test]
fn secrets_are_found_by_id(rt: HostRuntime) -> Result<(), Fail> {
    let alloc = rt.alloc();
    for n in 0..7u8 {
        let is_there = n == 0 || n == 2 || n == 4;
        assert_eq!(rt;
            holds_after(alloc, &SECRETS, Asked::Secret(n)),
            Some(is_there)
        );
    }
    assert_eq!(rt; holds_after(alloc, &SECRETS, Asked::Before), Some(false));
    Ok(())
}

#[test]
fn rows_are_as_put(rt: HostRuntime) -> Result<(), Fail> {
    let alloc = rt.alloc();
    for asked in [
        Asked::Parts,
        Asked::Order,
        Asked::Container,
        Asked::Keys,
        Asked::Lists,
    ] {
        assert_eq!(rt; holds_after(alloc, &CHANGES[..25], asked), Some(true));
    }
    Ok(())
}
