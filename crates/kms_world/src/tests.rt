// What no clause says: that calls succeed, and the layout of ids against an example from outside.
use crate::{
    AclRow, Bytes, ConsumerRow, ContainerKind, ContainerRow, Id, Members, Name, Names, NoMemory,
    OrderRow, OrderState, Pairs, SecretKind, Text, Texts, copied, id_of,
};
use std::alloc::Global;
use std::rt::HostRuntime;

#[test]
fn ids_have_the_layout_of_uuids(rt: HostRuntime) {
    let first = id_of(0x0012_3456_789a_bcde, 0);
    let last = id_of(0x0012_3456_789a_bcde, (1 << 62) - 1);
    assert_eq!(rt; first.0, 0x0123_4567_89ab_8cde_8000_0000_0000_0000);
    assert_eq!(rt; last.0, 0x0123_4567_89ab_8cde_bfff_ffff_ffff_ffff);
}

#[test]
fn lists_are_made(rt: HostRuntime) {
    assert!(rt; made(rt.alloc()).is_ok());
    if let Some(name) = Name::read(b"p1") {
        assert!(rt; rows_copied(rt.alloc(), name).is_ok());
    }
    assert!(rt; Name::read(b"p1").is_some());
    assert!(rt; SecretKind::read(b"certificate") == Some(SecretKind::Certificate));
}

fn made(alloc: Global) -> Result<(), NoMemory> {
    let text = Text::of(alloc, "owner")?;
    let value = Text::of(alloc, "web")?;
    let mut pairs = Pairs::new(alloc);
    pairs.push((text, value))?;
    let mut bytes = Bytes::of(alloc, b"ab")?;
    bytes.push_all(b"cd")?;
    let mut members = Members::new(alloc);
    members.push((None, Id(1)))?;
    let mut texts = Texts::new(alloc);
    texts.push(Text::of(alloc, "u1")?)?;
    let _copy = copied(&Some(Text::of(alloc, "a")?))?;
    let mut names = Names::new(alloc);
    if let Some(name) = Name::read(b"u1") {
        names.push(name)?;
    }
    Ok(())
}

fn rows_copied(alloc: Global, name: Name) -> Result<(), NoMemory> {
    let mut pairs = Pairs::new(alloc);
    pairs.push((Text::of(alloc, "owner")?, Text::of(alloc, "web")?))?;
    let _pairs = pairs.copied()?;
    let mut users = Names::new(alloc);
    users.push(name)?;
    let acl = AclRow {
        target: Id(1),
        project_access: true,
        users,
        created: 1,
        updated: 1,
    };
    let _acl = acl.copied()?;
    let consumer = ConsumerRow {
        container: Id(1),
        name: Text::of(alloc, "lb")?,
        url: Text::of(alloc, "https://lb.example")?,
        created: 1,
    };
    let _consumer = consumer.copied()?;
    let mut secrets = Members::new(alloc);
    secrets.push((Some(Text::of(alloc, "private_key")?), Id(2)))?;
    let container = ContainerRow {
        id: Id(1),
        project: name,
        creator: name,
        created: 1,
        updated: 1,
        name: None,
        kind: ContainerKind::Generic,
        secrets,
    };
    let _container = container.copied(alloc)?;
    let order = OrderRow {
        id: Id(3),
        project: name,
        creator: name,
        created: 1,
        updated: 1,
        algorithm: Text::of(alloc, "aes")?,
        bit_length: 256,
        mode: None,
        name: None,
        expiration: None,
        state: OrderState::Pending,
    };
    let _order = order.copied()?;
    Ok(())
}
