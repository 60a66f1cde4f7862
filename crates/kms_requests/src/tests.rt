// What no clause says: that bodies are read, and which.
use crate::{op, table};
use kms_world::{
    AclBody, AclKind, ContainerBody, MemberBody, MetaBody, MetadataBody, Op, OrderBody, PairBody,
    QuotaValues, ReadBody, Refusal, SecretBody, Shape, Text, TextPairs, Texts,
};
use std::alloc::{AllocError, Global};
use std::rt::HostRuntime;

fn put_text(shown: &mut String, text: &Option<Text>) -> Result<(), AllocError> {
    match text {
        None => shown.push_str("-"),
        Some(text) => {
            shown.push_str("=")?;
            shown.push_str(text.as_str())
        }
    }
}

// A text, and what parts it from the next field.
fn put_field(shown: &mut String, text: &Option<Text>) -> Result<(), AllocError> {
    put_text(shown, text)?;
    shown.push_str("¦")
}

fn put_number(alloc: Global, shown: &mut String, number: Option<i128>) -> Result<(), AllocError> {
    match number {
        None => shown.push_str("-"),
        Some(number) => {
            let text = format!(in alloc; "{number}")?;
            shown.push_str(text.as_str())
        }
    }
}

fn put_secret(alloc: Global, shown: &mut String, body: &SecretBody) -> Result<(), AllocError> {
    put_field(shown, &body.name)?;
    put_field(shown, &body.algorithm)?;
    put_number(alloc, shown, body.bit_length)?;
    shown.push_str("¦")?;
    put_field(shown, &body.mode)?;
    put_field(shown, &body.secret_type)?;
    put_field(shown, &body.expiration)?;
    put_field(shown, &body.payload)?;
    put_field(shown, &body.payload_content_type)?;
    put_text(shown, &body.payload_content_encoding)
}

fn put_pairs(shown: &mut String, pairs: &TextPairs) -> Result<(), AllocError> {
    shown.push_str("[")?;
    for pair in pairs.as_slice() {
        shown.push_str("=")?;
        shown.push_str(pair.0.as_str())?;
        shown.push_str("¦=")?;
        shown.push_str(pair.1.as_str())?;
        shown.push_str(";")?;
    }
    shown.push_str("]")
}

fn put_metadata(shown: &mut String, body: &MetadataBody) -> Result<(), AllocError> {
    match &body.metadata {
        None => shown.push_str("-"),
        Some(pairs) => put_pairs(shown, pairs),
    }
}

fn put_pair(shown: &mut String, body: &PairBody) -> Result<(), AllocError> {
    put_field(shown, &body.key)?;
    put_text(shown, &body.value)
}

fn put_users(shown: &mut String, users: &Texts) -> Result<(), AllocError> {
    shown.push_str("[")?;
    for user in users.as_slice() {
        shown.push_str("=")?;
        shown.push_str(user.as_str())?;
        shown.push_str(";")?;
    }
    shown.push_str("]")
}

fn put_read(shown: &mut String, read: &ReadBody) -> Result<(), AllocError> {
    shown.push_str("(")?;
    match &read.users {
        None => shown.push_str("-")?,
        Some(users) => put_users(shown, users)?,
    }
    shown.push_str(match read.project_access {
        None => "¦-)",
        Some(true) => "¦true)",
        Some(false) => "¦false)",
    })
}

fn put_acl(shown: &mut String, body: &AclBody) -> Result<(), AllocError> {
    match &body.read {
        None => shown.push_str("-"),
        Some(read) => put_read(shown, read),
    }
}

fn put_member(shown: &mut String, body: &MemberBody) -> Result<(), AllocError> {
    put_field(shown, &body.name)?;
    put_text(shown, &body.secret_ref)
}

fn put_members(shown: &mut String, members: &[MemberBody]) -> Result<(), AllocError> {
    shown.push_str("[")?;
    for member in members {
        put_member(shown, member)?;
        shown.push_str(";")?;
    }
    shown.push_str("]")
}

fn put_container(shown: &mut String, body: &ContainerBody) -> Result<(), AllocError> {
    put_field(shown, &body.name)?;
    put_field(shown, &body.kind)?;
    match &body.secret_refs {
        None => shown.push_str("-"),
        Some(members) => put_members(shown, members.as_slice()),
    }
}

fn put_meta(alloc: Global, shown: &mut String, meta: &MetaBody) -> Result<(), AllocError> {
    shown.push_str("(")?;
    put_field(shown, &meta.algorithm)?;
    put_number(alloc, shown, meta.bit_length)?;
    shown.push_str("¦")?;
    put_field(shown, &meta.mode)?;
    put_field(shown, &meta.name)?;
    put_field(shown, &meta.payload_content_type)?;
    put_text(shown, &meta.expiration)?;
    shown.push_str(")")
}

fn put_order(alloc: Global, shown: &mut String, body: &OrderBody) -> Result<(), AllocError> {
    put_field(shown, &body.kind)?;
    match &body.meta {
        None => shown.push_str("-"),
        Some(meta) => put_meta(alloc, shown, meta),
    }
}

fn put_quota(
    alloc: Global,
    shown: &mut String,
    values: Option<QuotaValues>,
) -> Result<(), AllocError> {
    let Some(values) = values else {
        return shown.push_str("-");
    };
    shown.push_str("(")?;
    put_number(alloc, shown, values.secrets)?;
    shown.push_str("¦")?;
    put_number(alloc, shown, values.orders)?;
    shown.push_str("¦")?;
    put_number(alloc, shown, values.containers)?;
    shown.push_str("¦")?;
    put_number(alloc, shown, values.consumers)?;
    shown.push_str(")")
}

fn put_refusal(shown: &mut String, refusal: Refusal) -> Result<(), AllocError> {
    match refusal {
        Refusal::WrongType => shown.push_str("415"),
        Refusal::BadBody(field) => {
            shown.push_str("bad ")?;
            shown.push_str(field.word())
        }
        _ => shown.push_str("?"),
    }
}

fn put_op(alloc: Global, shown: &mut String, asked: &Op) -> Result<(), AllocError> {
    match asked {
        Op::PostSecret { body: Ok(body) } => put_secret(alloc, shown, body),
        Op::PutMetadata { body: Ok(body), .. } => put_metadata(shown, body),
        Op::PostPair { body: Ok(body), .. } => put_pair(shown, body),
        Op::PutAcl { body: Ok(body), .. } => put_acl(shown, body),
        Op::PostContainer { body: Ok(body) } => put_container(shown, body),
        Op::PostMember { body: Ok(body), .. } => put_member(shown, body),
        Op::PostConsumer { body: Ok(body), .. } => {
            put_field(shown, &body.name)?;
            put_text(shown, &body.url)
        }
        Op::PostOrder { body: Ok(body) } => put_order(alloc, shown, body),
        Op::PutProjectQuotas { body: Ok(body), .. } => {
            put_quota(alloc, shown, body.project_quotas)
        }
        Op::PostSecret { body: Err(refusal) } => put_refusal(shown, *refusal),
        Op::PutMetadata {
            body: Err(refusal),
            ..
        } => put_refusal(shown, *refusal),
        Op::PostPair {
            body: Err(refusal),
            ..
        } => put_refusal(shown, *refusal),
        Op::PutAcl {
            body: Err(refusal),
            ..
        } => put_refusal(shown, *refusal),
        Op::PostContainer { body: Err(refusal) } => put_refusal(shown, *refusal),
        Op::PostMember {
            body: Err(refusal),
            ..
        } => put_refusal(shown, *refusal),
        Op::PostConsumer {
            body: Err(refusal),
            ..
        } => put_refusal(shown, *refusal),
        Op::PostOrder { body: Err(refusal) } => put_refusal(shown, *refusal),
        Op::PutProjectQuotas {
            body: Err(refusal),
            ..
        } => put_refusal(shown, *refusal),
        _ => shown.push_str("?"),
    }
}

fn shape(kind: &str, content_type: Option<Text>) -> Shape {
    match kind {
        "secret" => Shape::PostSecret { content_type },
        "metadata" => Shape::PutMetadata {
            id: None,
            content_type,
        },
        "pair" => Shape::PostPair {
            id: None,
            content_type,
        },
        "acl" => Shape::PutAcl {
            kind: AclKind::Secret,
            id: None,
            content_type,
        },
        "container" => Shape::PostContainer { content_type },
        "member" => Shape::PostMember {
            id: None,
            content_type,
        },
        "consumer" => Shape::PostConsumer {
            id: None,
            content_type,
        },
        "order" => Shape::PostOrder { content_type },
        "quota" => Shape::PutProjectQuotas {
            project: None,
            content_type,
        },
        _ => Shape::GetQuotas,
    }
}

fn read(alloc: Global, kind: &str, content_type: Option<Text>, body: &[u8]) -> Option<String> {
    let asked = op(alloc, shape(kind, content_type), body).ok()?;
    let mut shown = String::new(alloc);
    put_op(alloc, &mut shown, &asked).ok()?;
    Some(shown)
}

fn reads(
    alloc: Global,
    kind: &str,
    content_type: Option<Text>,
    body: &[u8],
    outcome: &str,
) -> bool {
    match read(alloc, kind, content_type, body) {
        Some(shown) => shown.as_str() == outcome,
        None => false,
    }
}

// A Content-Type as a row has it.
fn type_in(alloc: Global, spelled: &str) -> Option<Option<Text>> {
    match spelled.strip_prefix('=') {
        None => Some(None),
        Some(text) => Some(Some(Text::of(alloc, text).ok()?)),
    }
}

// Whether a row's body is read as it says; None where the row is spelled otherwise.
fn row_is_right(alloc: Global, row: &str) -> Option<bool> {
    let (head, body) = row.split_once("¦¦")?;
    let (kind, rest) = head.split_once("¦")?;
    let (spelled, outcome) = rest.split_once("¦")?;
    let content_type = type_in(alloc, spelled)?;
    Some(reads(alloc, kind, content_type, body.as_bytes(), outcome))
}

// The first row that is read otherwise.
fn wrong_row<'a>(alloc: Global, rows: &[&'a str]) -> Option<&'a str> {
    for row in rows {
        if row_is_right(alloc, row) != Some(true) {
            return Some(*row);
        }
    }
    None
}

#[test]
fn odd_bodies_are_read(rt: HostRuntime) {
    assert_eq!(rt; wrong_row(rt.alloc(), &table::ODD_BODIES), None);
    assert_eq!(rt; wrong_row(rt.alloc(), &table::TYPED_BODIES), None);
}

#[test]
fn bodies_of_secrets_are_read(rt: HostRuntime) {
    assert_eq!(rt; wrong_row(rt.alloc(), &table::SECRET_BODIES), None);
    assert_eq!(rt; wrong_row(rt.alloc(), &table::METADATA_BODIES), None);
    assert_eq!(rt; wrong_row(rt.alloc(), &table::PAIR_BODIES), None);
    assert_eq!(rt; wrong_row(rt.alloc(), &table::ACL_BODIES), None);
}

#[test]
fn bodies_of_containers_are_read(rt: HostRuntime) {
    assert_eq!(rt; wrong_row(rt.alloc(), &table::CONTAINER_BODIES), None);
    assert_eq!(rt; wrong_row(rt.alloc(), &table::MEMBER_BODIES), None);
    assert_eq!(rt; wrong_row(rt.alloc(), &table::CONSUMER_BODIES), None);
}

#[test]
fn bodies_of_orders_are_read(rt: HostRuntime) {
    assert_eq!(rt; wrong_row(rt.alloc(), &table::ORDER_BODIES), None);
    assert_eq!(rt; wrong_row(rt.alloc(), &table::QUOTA_BODIES), None);
}

#[test]
fn bytes_that_are_no_text(rt: HostRuntime) {
    let alloc = rt.alloc();
    assert!(rt; reads(alloc, "secret", None, b"{\"name\":\"\xff\"}", "bad body"));
    assert!(rt;
        reads(
            alloc,
            "secret",
            None,
            b"{\"name\":\"\xed\xa0\x80\"}",
            "bad body"
        )
    );
    assert!(rt;
        reads(
            alloc,
            "secret",
            None,
            b"{\"name\":\"\xc0\x80\"}",
            "bad body"
        )
    );
    assert!(rt;
        reads(
            alloc,
            "secret",
            None,
            b"{\"other\":\"\xf4\x90\x80\x80\"}",
            "bad body"
        )
    );
    assert!(rt; reads(alloc, "quota", None, b"{}\0", "bad body"));
}

fn is_kept(alloc: Global) -> bool {
    let put = kms_world::PutShape {
        content_type: None,
        content_encoding: None,
    };
    match op(alloc, Shape::PutPayload { id: None, put }, b"{\xff\0") {
        Ok(Op::PutPayload { body, .. }) => body.as_slice() == b"{\xff\0".as_slice(),
        _ => false,
    }
}

#[test]
fn payloads_are_kept(rt: HostRuntime) {
    assert!(rt; is_kept(rt.alloc()));
}
