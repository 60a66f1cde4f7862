// Pages of lists as bodies.
ghost use Rattle.std.specs.Prelude.{◌≡◌, ◌<◌, ◌^◌, ◌≤◌, codes, option_map, OnOk};
ghost use Rattle.serde_json.specs.Data.{member};
ghost use Rattle.kms_world.specs.Times.{RowsHaveTimes};
ghost use Rattle.kms_page.specs.Page as page;
ghost use Rattle.kms_page.specs.Query.{IsInRange};
ghost use Rattle.kms_json.specs.List as spec;
ghost use Rattle.kms_json.specs.Tokens.{Adds, data_tokens, ending_tokens, member_tokens, optional_tokens, with_optional};

use crate::rows::write_rows;
use crate::writing::{put_number, put_text};
use json::Writer;
use kms_page::{Listing, Query, link};
use kms_world::{ListRows, NoMemory};
use std::alloc::Global;

// Whose parameters the query of such a list has.
pub(crate) const fn listing(rows: &ListRows) -> Listing
    ensures { result ≡ spec.listing_of rows.now }
{
    match rows {
        ListRows::Secrets(_) => Listing::Secrets,
        ListRows::Containers(_) => Listing::Containers,
        ListRows::Consumers(_) => Listing::Consumers,
        ListRows::Orders(_) => Listing::Orders,
        ListRows::Quotas(_) => Listing::Quotas,
    }
}

const fn name(rows: &ListRows) -> &'static str
    ensures { result.now ≡ spec.name_of rows.now }
{
    match rows {
        ListRows::Secrets(_) => "secrets",
        ListRows::Containers(_) => "containers",
        ListRows::Consumers(_) => "consumers",
        ListRows::Orders(_) => "orders",
        ListRows::Quotas(_) => "project_quotas",
    }
}

// The offset of the next page, where there is one.
fn next_offset(query: &Query, total: u64) -> Option<u64>
    requires { IsInRange query.now }
    ensures { result ≡ page.next_offset query.now total }
{
    let behind = query.offset + query.limit;
    if behind < total { Some(behind) } else { None }
}

// The offset of the page before, where there is one.
fn previous_offset(query: &Query) -> Option<u64>
    ensures { result ≡ page.previous_offset query.now }
{
    if query.offset == 0 {
        None
    } else {
        Some(query.offset.saturating_sub(query.limit))
    }
}

// The rows, under the list's name.
fn put_rows(
    alloc: Global,
    out: &mut Writer,
    rows: &ListRows,
    endpoint: &str,
) -> Result<(), NoMemory>
    requires { RowsHaveTimes rows.now }
    ensures { OnOk result (Adds out.old out.new (member_tokens (spec.name_of rows.now) (spec.rows_data endpoint.now rows.now))) }
{
    out.key(name(rows))?;
    write_rows(alloc, out, rows, endpoint)?;
    Ok(())
}

// The link to the page at an offset, where there is such a page.
fn put_page(
    alloc: Global,
    out: &mut Writer,
    key: &str,
    endpoint: &str,
    path: &str,
    query: &Query,
    offset: Option<u64>,
) -> Result<(), NoMemory>
    ensures { OnOk result (Adds out.old out.new (optional_tokens key.now (option_map (spec.page_link endpoint.now path.now query.now) offset))) }
{
    match offset {
        None => Ok(()),
        Some(offset) => {
            let link = link(alloc, endpoint, path, query, offset)?;
            put_text(out, key, link.as_str())
        }
    }
}

// How many rows there are, and the end of the object.
fn put_total(out: &mut Writer, total: u64) -> Result<(), NoMemory>
    ensures { OnOk result (Adds out.old out.new (ending_tokens (spec.total_members total))) }
{
    put_number(out, "total", total)?;
    out.end_object()?;
    Ok(())
}

// The members where the rows stand first.
fn put_rows_first(
    alloc: Global,
    out: &mut Writer,
    endpoint: &str,
    path: &str,
    query: &Query,
    rows: &ListRows,
    total: u64,
) -> Result<(), NoMemory>
    requires range { IsInRange query.now }
    requires times { RowsHaveTimes rows.now }
    ensures { OnOk result (Adds out.old out.new (ending_tokens
        (member (spec.name_of rows.now) (spec.rows_data endpoint.now rows.now)
        (with_optional (codes "next") (option_map (spec.page_link endpoint.now path.now query.now) (page.next_offset query.now total))
        (with_optional (codes "previous") (option_map (spec.page_link endpoint.now path.now query.now) (page.previous_offset query.now)) (spec.total_members total)))))) }
{
    put_rows(alloc, out, rows, endpoint)?;
    let next = next_offset(query, total);
    put_page(alloc, out, "next", endpoint, path, query, next)?;
    let previous = previous_offset(query);
    put_page(alloc, out, "previous", endpoint, path, query, previous)?;
    put_total(out, total)?;
    Ok(())
}

// Where they stand between the links.
fn put_rows_between(
    alloc: Global,
    out: &mut Writer,
    endpoint: &str,
    path: &str,
    query: &Query,
    rows: &ListRows,
    total: u64,
) -> Result<(), NoMemory>
    requires range { IsInRange query.now }
    requires times { RowsHaveTimes rows.now }
    ensures { OnOk result (Adds out.old out.new (ending_tokens
        (with_optional (codes "next") (option_map (spec.page_link endpoint.now path.now query.now) (page.next_offset query.now total))
        (member (spec.name_of rows.now) (spec.rows_data endpoint.now rows.now)
        (with_optional (codes "previous") (option_map (spec.page_link endpoint.now path.now query.now) (page.previous_offset query.now)) (spec.total_members total)))))) }
{
    let next = next_offset(query, total);
    put_page(alloc, out, "next", endpoint, path, query, next)?;
    put_rows(alloc, out, rows, endpoint)?;
    let previous = previous_offset(query);
    put_page(alloc, out, "previous", endpoint, path, query, previous)?;
    put_total(out, total)?;
    Ok(())
}

// Where they stand behind the links.
fn put_rows_last(
    alloc: Global,
    out: &mut Writer,
    endpoint: &str,
    path: &str,
    query: &Query,
    rows: &ListRows,
    total: u64,
) -> Result<(), NoMemory>
    requires range { IsInRange query.now }
    requires times { RowsHaveTimes rows.now }
    ensures { OnOk result (Adds out.old out.new (ending_tokens
        (with_optional (codes "next") (option_map (spec.page_link endpoint.now path.now query.now) (page.next_offset query.now total))
        (with_optional (codes "previous") (option_map (spec.page_link endpoint.now path.now query.now) (page.previous_offset query.now))
        (member (spec.name_of rows.now) (spec.rows_data endpoint.now rows.now) (spec.total_members total)))))) }
{
    let next = next_offset(query, total);
    put_page(alloc, out, "next", endpoint, path, query, next)?;
    let previous = previous_offset(query);
    put_page(alloc, out, "previous", endpoint, path, query, previous)?;
    put_rows(alloc, out, rows, endpoint)?;
    put_total(out, total)?;
    Ok(())
}

// The links and the rows, in the order of their keys' bytes.
fn put_members(
    alloc: Global,
    out: &mut Writer,
    endpoint: &str,
    path: &str,
    query: &Query,
    rows: &ListRows,
    total: u64,
) -> Result<(), NoMemory>
    requires range { IsInRange query.now }
    requires times { RowsHaveTimes rows.now }
    ensures { OnOk result (Adds out.old out.new (ending_tokens (spec.list_members endpoint.now path.now query.now rows.now total))) }
{
    match rows {
        ListRows::Containers(_) | ListRows::Consumers(_) => {
            put_rows_first(alloc, out, endpoint, path, query, rows, total)
        }
        ListRows::Orders(_) => put_rows_between(alloc, out, endpoint, path, query, rows, total),
        ListRows::Secrets(_) | ListRows::Quotas(_) => {
            put_rows_last(alloc, out, endpoint, path, query, rows, total)
        }
    }
}

// The object of a page.
pub(crate) fn write_list(
    alloc: Global,
    out: &mut Writer,
    endpoint: &str,
    path: &str,
    query: &Query,
    rows: &ListRows,
    total: u64,
) -> Result<(), NoMemory>
    requires range { IsInRange query.now }
    requires times { RowsHaveTimes rows.now }
    ensures { OnOk result (Adds out.old out.new (data_tokens (spec.list_data endpoint.now path.now query.now rows.now total))) }
{
    out.begin_object()?;
    put_members(alloc, out, endpoint, path, query, rows, total)?;
    Ok(())
}
