// Answers as replies.
ghost use Rattle.std.specs.Prelude.{◌≡◌, [], None, IfOk};
ghost use Rattle.json.specs.Written.{Written};
ghost use Rattle.serde_json.specs.Data.{Data};
ghost use Rattle.serde_json.specs.Written.{compact_text};
ghost use Rattle.kms_world.specs.Times.{HasTimes, IsTimely, IsTimelyContainer, IsTimelyIfAny, IsTimelyOrder, RowsHaveTimes};
ghost use Rattle.kms_page.specs.Query.{IsInRange, query_of};
ghost use Rattle.kms_json.specs.Acl.{acl_data};
ghost use Rattle.kms_json.specs.Container.{container_data};
ghost use Rattle.kms_json.specs.Link.{link_data};
ghost use Rattle.kms_json.specs.List.{list_data, listing_of};
ghost use Rattle.kms_json.specs.Metadata.{metadata_data, pair_data};
ghost use Rattle.kms_json.specs.Order.{order_data};
ghost use Rattle.kms_json.specs.Quota.{quotas_data, project_quotas_data};
ghost use Rattle.kms_json.specs.Secret.{secret_data};
ghost use Rattle.kms_json.specs.Tokens.{Adds, data_tokens};
ghost use Rattle.kms_json.specs.Answer as spec;

use crate::acl::write_acl;
use crate::container::write_container;
use crate::link::write_link;
use crate::list::{listing, write_list};
use crate::metadata::{metadata_body, write_pair};
use crate::order::write_order;
use crate::quota::{write_project_quotas, write_quotas};
use crate::refused::{allow, status, write_error};
use crate::secret::write_secret;
use json::Writer;
use kms_page::{Query, QueryFault};
use kms_world::{
    AclRow, Answer, Bytes, ContainerView, Id, Link, ListRows, Media, Media2, NoMemory, OrderRow,
    Payload, QuotaRow, Refusal, Reply, SecretRow, Text,
};
use std::alloc::Global;

/// Room for the body of one object, in bytes.
const ROOM: usize = 512;

// What the body of a reply is written to.
fn writer(alloc: Global) -> Result<Writer, NoMemory>
    ensures before { IfOk result (λ out. out.before ≡ []) }
    ensures tokens { IfOk result (λ out. out.tokens ≡ []) }
{
    Ok(Writer::new(Vec::with_capacity(alloc, ROOM)?))
}

// The body that was written.
#[tactic(auto, using(crate::proofs::TokenLaws::printed))]
fn body(out: Writer) -> Bytes
    requires { out.before ≡ [] }
    ensures { (d : Data) (start : Written) → start.tokens ≡ [] → Adds start out (data_tokens d) → result ≡ compact_text d }
{
    Bytes::from_vec(out.into_inner())
}

// The reply whose body was written.
fn shown(status: u16, out: Writer) -> Reply
    requires { out.before ≡ [] }
    ensures { (d : Data) (start : Written) → start.tokens ≡ [] → Adds start out (data_tokens d) → result ≡ spec.json_reply status None d }
{
    Reply {
        status,
        media: Some(Media2::Json),
        allow: None,
        body: body(out),
    }
}

fn refused(alloc: Global, refusal: Refusal) -> Result<Reply, NoMemory>
    ensures { IfOk result (λ reply. reply ≡ spec.refused_reply refusal) }
{
    let mut out = writer(alloc)?;
    write_error(alloc, &mut out, refusal)?;
    Ok(Reply {
        status: status(refusal),
        media: Some(Media2::Json),
        allow: allow(refusal),
        body: body(out),
    })
}

fn empty(alloc: Global, status: u16) -> Reply
    ensures { result ≡ spec.empty_reply status }
{
    Reply {
        status,
        media: None,
        allow: None,
        body: Bytes::new(alloc),
    }
}

const fn media(media: Media) -> Media2
    ensures { result ≡ spec.media_of media }
{
    match media {
        Media::TextPlain => Media2::TextPlain,
        Media::OctetStream => Media2::OctetStream,
    }
}

fn payload(alloc: Global, payload: &Payload) -> Result<Reply, NoMemory>
    ensures { IfOk result (λ reply. reply ≡ spec.payload_reply payload.now) }
{
    Ok(Reply {
        status: 200,
        media: Some(media(payload.media)),
        allow: None,
        body: Bytes::of(alloc, payload.bytes.as_slice())?,
    })
}

fn link(alloc: Global, status: u16, link: Link, id: Id, endpoint: &str) -> Result<Reply, NoMemory>
    ensures { IfOk result (λ reply. reply ≡ spec.json_reply status None (link_data endpoint.now link id)) }
{
    let mut out = writer(alloc)?;
    write_link(alloc, &mut out, endpoint, link, id)?;
    Ok(shown(status, out))
}

fn secret(alloc: Global, row: &SecretRow, endpoint: &str) -> Result<Reply, NoMemory>
    requires { IsTimely row.now }
    ensures { IfOk result (λ reply. reply ≡ spec.json_reply 200 None (secret_data endpoint.now row.now)) }
{
    let mut out = writer(alloc)?;
    write_secret(alloc, &mut out, row, endpoint)?;
    Ok(shown(200, out))
}

fn metadata(alloc: Global, pairs: &[(Text, Text)]) -> Result<Reply, NoMemory>
    ensures { IfOk result (λ reply. reply ≡ spec.json_reply 200 None (metadata_data pairs.now)) }
{
    Ok(Reply {
        status: 200,
        media: Some(Media2::Json),
        allow: None,
        body: metadata_body(alloc, pairs)?,
    })
}

fn pair(alloc: Global, status: u16, key: &Text, value: &Text) -> Result<Reply, NoMemory>
    ensures { IfOk result (λ reply. reply ≡ spec.json_reply status None (pair_data key.now value.now)) }
{
    let mut out = writer(alloc)?;
    write_pair(&mut out, key, value)?;
    Ok(shown(status, out))
}

fn acl(alloc: Global, row: &Option<AclRow>) -> Result<Reply, NoMemory>
    requires { IsTimelyIfAny row.now }
    ensures { IfOk result (λ reply. reply ≡ spec.json_reply 200 None (acl_data row.now)) }
{
    let mut out = writer(alloc)?;
    write_acl(&mut out, row)?;
    Ok(shown(200, out))
}

fn order(alloc: Global, row: &OrderRow, endpoint: &str) -> Result<Reply, NoMemory>
    requires { IsTimelyOrder row.now }
    ensures { IfOk result (λ reply. reply ≡ spec.json_reply 200 None (order_data endpoint.now row.now)) }
{
    let mut out = writer(alloc)?;
    write_order(alloc, &mut out, row, endpoint)?;
    Ok(shown(200, out))
}

fn container(alloc: Global, one: &ContainerView, endpoint: &str) -> Result<Reply, NoMemory>
    requires { IsTimelyContainer one.now.row }
    ensures { IfOk result (λ reply. reply ≡ spec.json_reply 200 None (container_data endpoint.now one.now)) }
{
    let mut out = writer(alloc)?;
    write_container(alloc, &mut out, one, endpoint)?;
    Ok(shown(200, out))
}

fn quotas(alloc: Global, row: &QuotaRow) -> Result<Reply, NoMemory>
    ensures { IfOk result (λ reply. reply ≡ spec.json_reply 200 None (quotas_data row.now)) }
{
    let mut out = writer(alloc)?;
    write_quotas(&mut out, row)?;
    Ok(shown(200, out))
}

fn project_quotas(alloc: Global, row: &QuotaRow) -> Result<Reply, NoMemory>
    ensures { IfOk result (λ reply. reply ≡ spec.json_reply 200 None (project_quotas_data row.now)) }
{
    let mut out = writer(alloc)?;
    write_project_quotas(&mut out, row)?;
    Ok(shown(200, out))
}

// The page that a query asks for.
fn shown_list(
    alloc: Global,
    endpoint: &str,
    path: &str,
    query: &Query,
    rows: &ListRows,
    total: u64,
) -> Result<Reply, NoMemory>
    requires range { IsInRange query.now }
    requires times { RowsHaveTimes rows.now }
    ensures { IfOk result (λ reply. reply ≡ spec.json_reply 200 None (list_data endpoint.now path.now query.now rows.now total)) }
{
    let mut out = writer(alloc)?;
    write_list(alloc, &mut out, endpoint, path, query, rows, total)?;
    Ok(shown(200, out))
}

// The page that a query asks for, or why it asks for none.
fn list(
    alloc: Global,
    endpoint: &str,
    path: &Text,
    query: &Text,
    rows: &ListRows,
    total: u64,
) -> Result<Reply, NoMemory>
    requires { RowsHaveTimes rows.now }
    ensures { IfOk result
        (λ reply. reply ≡ spec.list_reply endpoint.now path.now (query_of (listing_of rows.now) query.now) rows.now total) }
{
    match Query::read(alloc, listing(rows), query.as_str().as_bytes()) {
        Ok(query) => { shown_list(alloc, endpoint, path.as_str(), &query, rows, total) }
        Err(QueryFault::Bad(field)) => refused(alloc, Refusal::BadBody(field)),
        Err(QueryFault::NoMemory) => Err(NoMemory),
    }
}

/// The reply that an answer is under an endpoint, with which links begin. Its body is JSON (RFC 8259) without white
/// space, the keys of an object in the order of their bytes; an attribute that is absent is null:
///
/// - a refusal's body has its status, a description and the reason phrase; with 405 the reply has the path's methods too;
/// - a link's body has the link;
/// - a secret, an order, a container and an access list have their attributes, metadata and quotas their values, each with
///   status 200. Times are seconds since 1970 below 253402300800 (the year 10000);
/// - a payload is the body itself, of its own media type;
/// - a list has its rows, their total, and the links to the next and the previous page where there are such; its query is
///   read as a request's is, and one that breaks a rule is refused with 400;
/// - an answer without a body has its status alone.
///
/// A status that the answer has itself must have a reason phrase. `NoMemory` is the only error.
#[tactic(auto, unfolding(crate::specs::Answer::reply_of))]
pub fn answer(alloc: Global, answer: &Answer, endpoint: &str) -> Result<Reply, NoMemory>
    requires times { HasTimes answer.now }
    requires form { spec.HasForm answer.now }
    ensures { IfOk result (λ reply. reply ≡ spec.reply_of endpoint.now answer.now) }
{
    match answer {
        Answer::Refused(refusal) => refused(alloc, *refusal),
        Answer::Empty(status) => Ok(empty(alloc, *status)),
        Answer::Link {
            status,
            link: to,
            id,
        } => link(alloc, *status, *to, *id, endpoint),
        Answer::Secret(row) => secret(alloc, row, endpoint),
        Answer::Payload(bytes) => payload(alloc, bytes),
        Answer::Metadata(pairs) => metadata(alloc, pairs.as_slice()),
        Answer::Pair { status, key, value } => pair(alloc, *status, key, value),
        Answer::Acl(row) => acl(alloc, row),
        Answer::Order(row) => order(alloc, row, endpoint),
        Answer::Container(view) => container(alloc, view, endpoint),
        Answer::Quotas(row) => quotas(alloc, row),
        Answer::ProjectQuotas(row) => project_quotas(alloc, row),
        Answer::List {
            path,
            query,
            rows,
            total,
        } => list(alloc, endpoint, path, query, rows, *total),
    }
}
