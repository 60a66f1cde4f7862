// The cells of the action table, and examples of each call. The cells are computed from docs/PROFILE.md by
// tests/policy_cells.py, which says how a text is read.
use crate::{Limits, Target, check_acl, check_quotas, decide, effective, room};
use kms_world::{
    AclBody, AclRow, Action, Caller, CheckFault, Field, Id, Name, Names, NoMemory, QuotaBody,
    QuotaKind, QuotaRow, QuotaValues, ReadBody, Refusal, Roles, Rule, Text, Texts, Why,
};
use std::alloc::{AllocError, Global};
use std::test::Fail;

static CELLS: [(Action, &str); 21] = [
    (
        Action::SecretCreate,
        "|rrrrrrrrrrrpppppppppp|+++++++++++pppppppppp|+++x+x++x+xpppppppppp|rrrrrrrrrrrpppppppppp|rrrrrrrrrrrpppppppppp|rrrrrrrrrrrpppppppppp",
    ),
    (
        Action::ContainerCreate,
        "|rrrrrrrrrrrpppppppppp|+++++++++++pppppppppp|+++x+x++x+xpppppppppp|rrrrrrrrrrrpppppppppp|rrrrrrrrrrrpppppppppp|rrrrrrrrrrrpppppppppp",
    ),
    (
        Action::OrderCreate,
        "|rrrrrrrrrrrpppppppppp|+++++++++++pppppppppp|+++x+x++x+xpppppppppp|rrrrrrrrrrrpppppppppp|rrrrrrrrrrrpppppppppp|rrrrrrrrrrrpppppppppp",
    ),
    (
        Action::SecretList,
        "|rrrrrrrrrrrpppppppppp|+++++++++++pppppppppp|+++x+x++x+xpppppppppp|+++x+x++x+xpppppppppp|rrrrrrrrrrrpppppppppp|rrrrrrrrrrrpppppppppp",
    ),
    (
        Action::ContainerList,
        "|rrrrrrrrrrrpppppppppp|+++++++++++pppppppppp|+++x+x++x+xpppppppppp|+++x+x++x+xpppppppppp|rrrrrrrrrrrpppppppppp|rrrrrrrrrrrpppppppppp",
    ),
    (
        Action::OrderList,
        "|rrrrrrrrrrrpppppppppp|+++++++++++pppppppppp|+++x+x++x+xpppppppppp|+++x+x++x+xpppppppppp|rrrrrrrrrrrpppppppppp|rrrrrrrrrrrpppppppppp",
    ),
    (
        Action::SecretGet,
        "|rr++rrr++rrp++ppp++pp|+++++++++++p++ppp++pp|++++++++++xp++ppp++pp|+++++x++++xp++ppp++pp|+++++x++++xp++ppp++pp|rr++rrr++rrp++ppp++pp",
    ),
    (
        Action::ContainerGet,
        "|rr++rrr++rrp++ppp++pp|+++++++++++p++ppp++pp|++++++++++xp++ppp++pp|+++++x++++xp++ppp++pp|+++++x++++xp++ppp++pp|rr++rrr++rrp++ppp++pp",
    ),
    (
        Action::ConsumerGet,
        "|rr++rrr++rrp++ppp++pp|+++++++++++p++ppp++pp|++++++++++xp++ppp++pp|+++++x++++xp++ppp++pp|+++++x++++xp++ppp++pp|rr++rrr++rrp++ppp++pp",
    ),
    (
        Action::SecretDecrypt,
        "|rr++rrr++rrp++ppp++pp|+++++++++++p++ppp++pp|++++++++++xp++ppp++pp|+++++x++++xp++ppp++pp|rr++rrr++rrp++ppp++pp|rr++rrr++rrp++ppp++pp",
    ),
    (
        Action::ConsumerWrite,
        "|rr++rrr++rrp++ppp++pp|+++++++++++p++ppp++pp|++++++++++xp++ppp++pp|+++++x++++xp++ppp++pp|rr++rrr++rrp++ppp++pp|rr++rrr++rrp++ppp++pp",
    ),
    (
        Action::SecretWrite,
        "|rrrrrrrrrrrpppppppppp|+++++++++++pppppppppp|++++++++x+xpppppppppp|rrrrrrrrrrrpppppppppp|rrrrrrrrrrrpppppppppp|rrrrrrrrrrrpppppppppp",
    ),
    (
        Action::SecretDelete,
        "|rrrrrrrrrrrpppppppppp|+++++++++++pppppppppp|++++++++x+xpppppppppp|rrrrrrrrrrrpppppppppp|rrrrrrrrrrrpppppppppp|rrrrrrrrrrrpppppppppp",
    ),
    (
        Action::ContainerWrite,
        "|rrrrrrrrrrrpppppppppp|+++++++++++pppppppppp|++++++++x+xpppppppppp|rrrrrrrrrrrpppppppppp|rrrrrrrrrrrpppppppppp|rrrrrrrrrrrpppppppppp",
    ),
    (
        Action::ContainerDelete,
        "|rrrrrrrrrrrpppppppppp|+++++++++++pppppppppp|++++++++x+xpppppppppp|rrrrrrrrrrrpppppppppp|rrrrrrrrrrrpppppppppp|rrrrrrrrrrrpppppppppp",
    ),
    (
        Action::AclWrite,
        "|rrrrrrrrrrrpppppppppp|+++++++++++pppppppppp|++++++++x+xpppppppppp|rrrrrrrrrrrpppppppppp|rrrrrrrrrrrpppppppppp|rrrrrrrrrrrpppppppppp",
    ),
    (
        Action::AclGet,
        "|rrrrrrrrrrrpppppppppp|+++++++++++pppppppppp|++++++++x+xpppppppppp|+++x+x++x+xpppppppppp|rrrrrrrrrrrpppppppppp|rrrrrrrrrrrpppppppppp",
    ),
    (
        Action::OrderGet,
        "|rrrrrrrrrrrpppppppppp|+++++++++++pppppppppp|+++x+x++x+xpppppppppp|+++x+x++x+xpppppppppp|+++x+x++x+xpppppppppp|rrrrrrrrrrrpppppppppp",
    ),
    (
        Action::OrderDelete,
        "|rrrrrrrrrrrpppppppppp|+++++++++++pppppppppp|r+++++rrrrrpppppppppp|rrrrrrrrrrrpppppppppp|rrrrrrrrrrrpppppppppp|rrrrrrrrrrrpppppppppp",
    ),
    (
        Action::QuotaGet,
        "|rrrrrrrrrrrpppppppppp|+++++++++++pppppppppp|+++x+x++x+xpppppppppp|+++x+x++x+xpppppppppp|+++x+x++x+xpppppppppp|rrrrrrrrrrrpppppppppp",
    ),
    (
        Action::QuotaAdmin,
        "|rrrrrrrrrrrpppppppppp|rrrrrrrrrrrpppppppppp|rrrrrrrrrrrpppppppppp|rrrrrrrrrrrpppppppppp|rrrrrrrrrrrpppppppppp|+++x+x++x+xpppppppppp",
    ),
];

// The projects and users in the cells.
#[derive(Clone, Copy)]
struct People {
    p1: Name,
    p2: Name,
    u1: Name,
    u2: Name,
}

fn name(text: &str) -> Result<Name, &'static str> {
    Name::read(text.as_bytes()).ok_or("no name")
}

// The role of this number alone, none at 0.
fn role(k: u8) -> Roles {
    Roles {
        admin: k == 1,
        creator: k == 2,
        observer: k == 3,
        audit: k == 4,
        service_admin: k == 5,
    }
}

// An access list with one user.
fn list(alloc: Global, user: Name, project_access: bool) -> Result<AclRow, NoMemory> {
    let mut users = Names::new(alloc);
    users.push(user)?;
    Ok(AclRow {
        target: Id(1),
        project_access,
        users,
        created: 0,
        updated: 0,
    })
}

fn letter(action: Action, decision: Result<(), Rule>) -> u8 {
    match decision {
        Ok(()) => b'+',
        Err(rule) if rule.action != action => b'?',
        Err(rule) => match rule.why {
            Why::Project => b'p',
            Why::Role => b'r',
            Why::Private => b'x',
        },
    }
}

// Puts the answers on a row behind the text: without an access list, and with each of these.
fn put_answers(
    text: &mut Vec<u8>,
    caller: &Caller,
    action: Action,
    project: Name,
    creator: Name,
    lists: &[AclRow],
) -> Result<(), AllocError> {
    let open = Target {
        project,
        creator,
        acl: None,
    };
    text.push(letter(action, decide(caller, action, Some(&open))))?;
    for list in lists {
        let listed = Target {
            project,
            creator,
            acl: Some(list),
        };
        text.push(letter(action, decide(caller, action, Some(&listed))))?;
    }
    Ok(())
}

fn answers(
    alloc: Global,
    action: Action,
    names: &People,
    lists: &[AclRow],
) -> Result<Vec<u8>, AllocError> {
    let mut text = Vec::new(alloc);
    for k in 0..6u8 {
        let caller = Caller {
            project: names.p1,
            user: names.u1,
            roles: role(k),
        };
        text.push(b'|')?;
        text.push(letter(action, decide(&caller, action, None)))?;
        put_answers(&mut text, &caller, action, names.p1, names.u1, lists)?;
        put_answers(&mut text, &caller, action, names.p1, names.u2, lists)?;
        put_answers(&mut text, &caller, action, names.p2, names.u1, lists)?;
        put_answers(&mut text, &caller, action, names.p2, names.u2, lists)?;
    }
    Ok(text)
}

#[test]
fn cells_of_the_table(rt: HostRuntime) -> Result<(), Fail> {
    let alloc = rt.alloc();
    let names = People {
        p1: name("p1")?,
        p2: name("p2")?,
        u1: name("u1")?,
        u2: name("u2")?,
    };
    let mut lists = Vec::new(alloc);
    lists.push(list(alloc, names.u1, true)?)?;
    lists.push(list(alloc, names.u1, false)?)?;
    lists.push(list(alloc, names.u2, true)?)?;
    lists.push(list(alloc, names.u2, false)?)?;
    for (action, want) in CELLS.iter() {
        let have = answers(alloc, *action, &names, &lists)?;
        assert_eq!(rt; have.as_slice(), want.as_bytes(), "{}", action.word());
    }
    Ok(())
}

fn caller(project: Name, user: Name, k: u8) -> Caller {
    Caller {
        project,
        user,
        roles: role(k),
    }
}

// A secret that u1 of p1 made: an observer of p1 reads it, an audit user doesn't get its payload, a user of p2 sees it
// once on the access list, and with project access off the observer doesn't any more.
#[test]
fn a_secret_is_shown(rt: HostRuntime) -> Result<(), Fail> {
    let (p1, u1, u2) = (name("p1")?, name("u1")?, name("u2")?);
    let open = Target {
        project: p1,
        creator: u1,
        acl: None,
    };
    let acl = list(rt.alloc(), u2, false)?;
    let shut = Target {
        project: p1,
        creator: u1,
        acl: Some(&acl),
    };
    let observer = caller(p1, name("u3")?, 3);
    let auditor = caller(p1, u2, 4);
    let stranger = caller(name("p2")?, u2, 3);
    let maker = caller(p1, u1, 2);
    let (get, decrypt) = (Action::SecretGet, Action::SecretDecrypt);
    let have = [
        letter(get, decide(&observer, get, Some(&open))),
        letter(decrypt, decide(&auditor, decrypt, Some(&open))),
        letter(get, decide(&stranger, get, Some(&open))),
        letter(get, decide(&stranger, get, Some(&shut))),
        letter(get, decide(&observer, get, Some(&shut))),
        letter(get, decide(&maker, get, Some(&shut))),
    ];
    assert_eq!(rt; have.as_slice(), b"+rp+x+".as_slice());
    Ok(())
}

fn of_users(users: Option<Texts>) -> AclBody {
    AclBody {
        read: Some(ReadBody {
            users,
            project_access: Some(false),
        }),
    }
}

// A body with the users u0, u1 and so on, `count` of them, each `times` times.
fn numbered(alloc: Global, count: u8, times: u8) -> Result<AclBody, Fail> {
    let mut users = Texts::new(alloc);
    for _ in 0..times {
        for n in 0..count {
            let text = format!(in alloc; "u{n}")?;
            users.push(Text::of(alloc, text.as_str())?)?;
        }
    }
    Ok(of_users(Some(users)))
}

// What is left of these users: their number and the last of them, or the field that is refused.
fn left(alloc: Global, body: &AclBody) -> Result<String, Fail> {
    match check_acl(alloc, body) {
        Ok(change) => match &change.users {
            None => Ok(String::from_str(alloc, "none")?),
            Some(users) => match users.as_slice().last() {
                None => Ok(String::from_str(alloc, "0")?),
                Some(user) => {
                    Ok(format!(in alloc; "{} to {}", users.as_slice().len(), user.as_str())?)
                }
            },
        },
        Err(CheckFault::Refused(Refusal::BadBody(field))) => {
            Ok(String::from_str(alloc, field.word())?)
        }
        Err(_) => Err(Fail::from(NoMemory)),
    }
}

#[test]
fn users_are_kept_once(rt: HostRuntime) -> Result<(), Fail> {
    let alloc = rt.alloc();
    for (count, times, want) in [
        (0, 1, "0"),
        (1, 2, "1 to u0"),
        (100, 1, "100 to u99"),
        (100, 2, "100 to u99"),
        (101, 1, "users"),
    ] {
        let body = numbered(alloc, count, times)?;
        assert_eq!(rt;
            left(alloc, &body)?.as_str(),
            want,
            "{count} users {times} times"
        );
    }
    let mut users = Texts::new(alloc);
    users.push(Text::of(alloc, "u 1")?)?;
    assert_eq!(rt; left(alloc, &AclBody { read: None })?.as_str(), "read");
    assert_eq!(rt; left(alloc, &of_users(None))?.as_str(), "none");
    assert_eq!(rt; left(alloc, &of_users(Some(users)))?.as_str(), "users");
    Ok(())
}

fn quotas(secrets: Option<i128>, orders: Option<i128>) -> QuotaBody {
    QuotaBody {
        project_quotas: Some(QuotaValues {
            secrets,
            orders,
            containers: None,
            consumers: Some(-1),
        }),
    }
}

fn refused(field: Field) -> Result<Limits, CheckFault> {
    Err(CheckFault::Refused(Refusal::BadBody(field)))
}

// One secret may be made under a limit of 1, and the next not.
#[test]
fn quotas_count(rt: HostRuntime) -> Result<(), Fail> {
    let limits = check_quotas(&quotas(Some(1), Some(1_000_000_000))).map_err(|_| "refused")?;
    assert_eq!(rt; limits.secrets, Some(1));
    assert_eq!(rt; limits.orders, Some(1_000_000_000));
    assert_eq!(rt; limits.consumers, Some(-1));
    for (secrets, orders, want) in [
        (Some(-2), Some(-2), Field::Secrets),
        (Some(1_000_000_001), None, Field::Secrets),
        (Some(-1), Some(i128::MAX), Field::Orders),
        (None, Some(-9_223_372_036_854_775_808), Field::Orders),
    ] {
        assert_eq!(rt; check_quotas(&quotas(secrets, orders)), refused(want));
    }
    let nothing = QuotaBody {
        project_quotas: None,
    };
    assert_eq!(rt; check_quotas(&nothing), refused(Field::ProjectQuotas));
    let row = QuotaRow {
        project: name("p1")?,
        secrets: Some(1),
        orders: Some(1_000_000_000),
        containers: None,
        consumers: Some(-1),
    };
    for (kind, want) in [
        (QuotaKind::Secrets, Some(1)),
        (QuotaKind::Orders, Some(1_000_000_000)),
        (QuotaKind::Containers, None),
        (QuotaKind::Consumers, None),
    ] {
        assert_eq!(rt; effective(Some(&row), kind), want, "{}", kind.word());
        assert_eq!(rt; effective(None, kind), None, "{}", kind.word());
    }
    for (count, limit, want) in [
        (0, Some(1), true),
        (1, Some(1), false),
        (0, Some(0), false),
        (u64::MAX, None, true),
    ] {
        assert_eq!(rt; room(count, limit), want, "{count}");
    }
    Ok(())
}
