// What no clause says: that calls succeed. Bodies of refusals and links were worked out by hand, the others are the table's.
ghost use Rattle.std.specs.Prelude.{IfOk};
ghost use Rattle.std.specs.Result.{ForOk};
ghost use Rattle.kms_world.specs.Times.{HasTimes, IsTimely, IsTimelyContainer, IsTimelyOrder};
ghost use Rattle.kms_json.specs.Answer.{HasForm};

use crate::{answer, table};
use kms_world::{
    AclRow, Action, Answer, Bytes, Cause, ConsumerRow, ConsumerRows, ContainerKind, ContainerRow,
    ContainerView, Field, Id, Link, Media, Media2, Members, Name, Names, NoMemory, OrderRow,
    OrderState, Pairs, Payload, QuotaKind, QuotaRow, Refusal, Rule, SecretKind, SecretRow, Text,
    Why,
};
use std::alloc::Global;
use std::rt::HostRuntime;

const ENDPOINT: &str = "http://k/v1";

const FIRST: Id = Id(0x0123_4567_89ab_8cde_8000_0000_0000_0000);

const SECOND: Id = Id(0x0123_4567_89ab_8cde_8000_0000_0000_0001);

fn has_body(alloc: Global, given: &Answer, endpoint: &str, body: &str) -> bool
    requires times { HasTimes given.now }
    requires form { HasForm given.now }
{
    match answer(alloc, given, endpoint) {
        Ok(reply) => reply.body.as_slice() == body.as_bytes(),
        Err(_) => false,
    }
}

#[test]
fn refusals_have_their_bodies(rt: HostRuntime) {
    let rule = Rule {
        action: Action::SecretDecrypt,
        why: Why::Role,
    };
    let table = [
        (
            Refusal::NoObject,
            "{\"code\":404,\"description\":\"NoObject\",\"title\":\"Not Found\"}",
        ),
        (
            Refusal::Denied(rule),
            "{\"code\":403,\"description\":\"Denied: secret:decrypt/role\",\"title\":\"Forbidden\"}",
        ),
        (
            Refusal::BadBody(Field::BitLength),
            "{\"code\":400,\"description\":\"BadBody: bit_length\",\"title\":\"Bad Request\"}",
        ),
        (
            Refusal::QuotaReached(QuotaKind::Secrets, 1),
            "{\"code\":403,\"description\":\"QuotaReached: secrets 1\",\"title\":\"Forbidden\"}",
        ),
    ];
    for (refusal, body) in table {
        assert!(rt; has_body(rt.alloc(), &Answer::Refused(refusal), ENDPOINT, body));
    }
}

#[test]
fn links_are_shown(rt: HostRuntime) {
    let table = [
        (
            ENDPOINT,
            Link::Secret,
            "{\"secret_ref\":\"http://k/v1/secrets/01234567-89ab-8cde-8000-000000000000\"}",
        ),
        (
            "http://k/\"\\v1",
            Link::Secret,
            "{\"secret_ref\":\"http://k/\\\"\\\\v1/secrets/01234567-89ab-8cde-8000-000000000000\"}",
        ),
        (
            ENDPOINT,
            Link::Metadata,
            "{\"metadata_ref\":\"http://k/v1/secrets/01234567-89ab-8cde-8000-000000000000/metadata\"}",
        ),
        (
            ENDPOINT,
            Link::ContainerAcl,
            "{\"acl_ref\":\"http://k/v1/containers/01234567-89ab-8cde-8000-000000000000/acl\"}",
        ),
        (
            ENDPOINT,
            Link::Order,
            "{\"order_ref\":\"http://k/v1/orders/01234567-89ab-8cde-8000-000000000000\"}",
        ),
    ];
    for (endpoint, link, body) in table {
        let made = Answer::Link {
            status: 201,
            link,
            id: FIRST,
        };
        assert!(rt; has_body(rt.alloc(), &made, endpoint, body));
    }
    assert!(rt; has_body(rt.alloc(), &Answer::Empty(204), ENDPOINT, ""));
}

pub(crate) fn plain(alloc: Global, project: Name, creator: Name) -> Result<SecretRow, NoMemory>
    ensures { IfOk result (λ row. IsTimely row) }
{
    Ok(SecretRow {
        id: FIRST,
        project,
        creator,
        created: 499_162_800,
        updated: 499_162_800,
        name: Some(Text::of(alloc, "a")?),
        algorithm: None,
        bit_length: None,
        mode: None,
        kind: SecretKind::Opaque,
        expiration: None,
        payload: None,
        metadata: Pairs::new(alloc),
    })
}

fn plain_answer(alloc: Global, project: Name, creator: Name) -> Result<Answer, NoMemory>
    ensures times { IfOk result (λ given. HasTimes given) }
    ensures form { IfOk result (λ given. HasForm given) }
{
    Ok(Answer::Secret(plain(alloc, project, creator)?))
}

fn full_answer(alloc: Global, project: Name, creator: Name) -> Result<Answer, NoMemory>
    ensures times { IfOk result (λ given. HasTimes given) }
    ensures form { IfOk result (λ given. HasForm given) }
{
    Ok(Answer::Secret(SecretRow {
        id: FIRST,
        project,
        creator,
        created: 499_162_800,
        updated: 499_162_801,
        name: None,
        algorithm: Some(Text::of(alloc, "aes")?),
        bit_length: Some(256),
        mode: Some(Text::of(alloc, "cbc")?),
        kind: SecretKind::Symmetric,
        expiration: Some(253_402_300_799),
        payload: Some(Payload {
            media: Media::OctetStream,
            bytes: Bytes::new(alloc),
        }),
        metadata: Pairs::new(alloc),
    }))
}

pub(crate) fn is_shown(alloc: Global, given: Result<Answer, NoMemory>, body: &str) -> bool
    requires times { ForOk given (λ shown. HasTimes shown) }
    requires form { ForOk given (λ shown. HasForm shown) }
{
    match given {
        Ok(shown) => has_body(alloc, &shown, ENDPOINT, body),
        Err(_) => false,
    }
}

fn pairs(alloc: Global) -> Result<Pairs, NoMemory> {
    let mut pairs = Pairs::new(alloc);
    pairs.push((Text::of(alloc, "a")?, Text::of(alloc, "q\"")?))?;
    pairs.push((Text::of(alloc, "b.c")?, Text::of(alloc, "é\n")?))?;
    Ok(pairs)
}

fn metadata_answer(alloc: Global) -> Result<Answer, NoMemory>
    ensures times { IfOk result (λ given. HasTimes given) }
    ensures form { IfOk result (λ given. HasForm given) }
{
    Ok(Answer::Metadata(pairs(alloc)?))
}

fn pair_answer(alloc: Global) -> Result<Answer, NoMemory>
    ensures times { IfOk result (λ given. HasTimes given) }
    ensures form { IfOk result (λ given. HasForm given) }
{
    Ok(Answer::Pair {
        status: 201,
        key: Text::of(alloc, "a")?,
        value: Text::of(alloc, "\t")?,
    })
}

fn acl_answer(alloc: Global, user: Name) -> Result<Answer, NoMemory>
    ensures times { IfOk result (λ given. HasTimes given) }
    ensures form { IfOk result (λ given. HasForm given) }
{
    let mut users = Names::new(alloc);
    users.push(user)?;
    Ok(Answer::Acl(Some(AclRow {
        target: FIRST,
        project_access: false,
        users,
        created: 499_162_800,
        updated: 499_162_801,
    })))
}

pub(crate) fn order(
    alloc: Global,
    project: Name,
    creator: Name,
    state: OrderState,
) -> Result<OrderRow, NoMemory>
    ensures { IfOk result (λ row. IsTimelyOrder row) }
{
    Ok(OrderRow {
        id: FIRST,
        project,
        creator,
        created: 499_162_800,
        updated: 499_162_801,
        algorithm: Text::of(alloc, "aes")?,
        bit_length: 256,
        mode: Some(Text::of(alloc, "cbc")?),
        name: None,
        expiration: None,
        state,
    })
}

fn order_answer(
    alloc: Global,
    project: Name,
    creator: Name,
    state: OrderState,
) -> Result<Answer, NoMemory>
    ensures times { IfOk result (λ given. HasTimes given) }
    ensures form { IfOk result (λ given. HasForm given) }
{
    Ok(Answer::Order(order(alloc, project, creator, state)?))
}

pub(crate) fn consumers(alloc: Global) -> Result<ConsumerRows, NoMemory> {
    let mut rows = ConsumerRows::new(alloc);
    rows.push(ConsumerRow {
        container: SECOND,
        name: Text::of(alloc, "né")?,
        url: Text::of(alloc, "u\"\\\n\u{1}\u{7f}")?,
        created: 499_162_800,
    })?;
    Ok(rows)
}

fn members(alloc: Global) -> Result<Members, NoMemory> {
    let mut members = Members::new(alloc);
    members.push((Some(Text::of(alloc, "private_key")?), FIRST))?;
    members.push((None, SECOND))?;
    Ok(members)
}

fn container(
    alloc: Global,
    project: Name,
    creator: Name,
    name: Option<Text>,
    secrets: Members,
    consumers: ConsumerRows,
) -> ContainerView
    ensures { IsTimelyContainer result.row }
{
    let _ = alloc;
    ContainerView {
        row: ContainerRow {
            id: SECOND,
            project,
            creator,
            created: 499_162_800,
            updated: 499_162_801,
            name,
            kind: ContainerKind::Rsa,
            secrets,
        },
        consumers,
    }
}

pub(crate) fn empty_container(
    alloc: Global,
    project: Name,
    creator: Name,
) -> Result<ContainerView, NoMemory>
    ensures { IfOk result (λ view. IsTimelyContainer view.row) }
{
    let name = Text::of(alloc, "c")?;
    Ok(container(
        alloc,
        project,
        creator,
        Some(name),
        Members::new(alloc),
        ConsumerRows::new(alloc),
    ))
}

fn full_container(alloc: Global, project: Name, creator: Name) -> Result<Answer, NoMemory>
    ensures times { IfOk result (λ given. HasTimes given) }
    ensures form { IfOk result (λ given. HasForm given) }
{
    let members = members(alloc)?;
    let consumers = consumers(alloc)?;
    Ok(Answer::Container(container(alloc, project, creator, None, members, consumers)))
}

fn container_answer(alloc: Global, project: Name, creator: Name) -> Result<Answer, NoMemory>
    ensures times { IfOk result (λ given. HasTimes given) }
    ensures form { IfOk result (λ given. HasForm given) }
{
    Ok(Answer::Container(empty_container(alloc, project, creator)?))
}

pub(crate) fn limits(project: Name) -> QuotaRow {
    QuotaRow {
        project,
        secrets: None,
        orders: Some(-1),
        containers: None,
        consumers: Some(7),
    }
}

fn quotas(project: Name) -> QuotaRow {
    QuotaRow {
        project,
        secrets: Some(-1),
        orders: Some(0),
        containers: Some(1_000_000_000),
        consumers: Some(5),
    }
}

fn payload_is_the_body(alloc: Global) -> Result<bool, NoMemory> {
    let given = Answer::Payload(Payload {
        media: Media::TextPlain,
        bytes: Bytes::of(alloc, b"p\0\xff")?,
    });
    let reply = answer(alloc, &given, ENDPOINT)?;
    Ok(reply.media == Some(Media2::TextPlain) && reply.body.as_slice() == b"p\0\xff".as_slice())
}

#[test]
fn answers_are_shown(rt: HostRuntime) {
    let alloc = rt.alloc();
    let project = Name::read(b"p1").expect(&rt, "a name");
    let user = Name::read(b"u1").expect(&rt, "a name");
    assert!(rt;
        is_shown(
            alloc,
            plain_answer(alloc, project, user),
            table::PLAIN_SECRET
        )
    );
    assert!(rt; is_shown(alloc, full_answer(alloc, project, user), table::FULL_SECRET));
    assert!(rt; is_shown(alloc, metadata_answer(alloc), table::METADATA));
    assert!(rt;
        has_body(
            alloc,
            &Answer::Metadata(Pairs::new(alloc)),
            ENDPOINT,
            table::NO_METADATA
        )
    );
    assert!(rt; is_shown(alloc, pair_answer(alloc), table::PAIR));
    assert!(rt; has_body(alloc, &Answer::Acl(None), ENDPOINT, table::NO_ACL));
    assert!(rt; is_shown(alloc, acl_answer(alloc, user), table::ACL));
    assert!(rt;
        has_body(
            alloc,
            &Answer::Quotas(quotas(project)),
            ENDPOINT,
            table::QUOTAS
        )
    );
    assert!(rt;
        has_body(
            alloc,
            &Answer::ProjectQuotas(limits(project)),
            ENDPOINT,
            table::PROJECT_QUOTAS
        )
    );
    assert!(rt; payload_is_the_body(alloc) == Ok(true));
}

#[test]
fn orders_and_containers_are_shown(rt: HostRuntime) {
    let alloc = rt.alloc();
    let project = Name::read(b"p1").expect(&rt, "a name");
    let user = Name::read(b"u1").expect(&rt, "a name");
    let table = [
        (OrderState::Pending, table::PENDING),
        (OrderState::Active(SECOND), table::ACTIVE),
        (OrderState::Error(Cause::Unsupported), table::UNSUPPORTED),
        (OrderState::Error(Cause::QuotaReached), table::NO_QUOTA),
        (OrderState::Error(Cause::IdsSpent), table::NO_IDS),
    ];
    for (state, body) in table {
        assert!(rt; is_shown(alloc, order_answer(alloc, project, user, state), body));
    }
    assert!(rt;
        is_shown(
            alloc,
            container_answer(alloc, project, user),
            table::EMPTY_CONTAINER
        )
    );
    assert!(rt;
        is_shown(
            alloc,
            full_container(alloc, project, user),
            table::FULL_CONTAINER
        )
    );
}
