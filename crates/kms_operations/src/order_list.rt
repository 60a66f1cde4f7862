// The list of orders, which isn't served yet.
ghost use Rattle.std.specs.Prelude.{◌≡◌, ◌++◌, ◌∷◌, [], IfOk, if◌then◌else◌};
ghost use Rattle.kms_model.specs.Orders as spec;
ghost use Rattle.kms_operations.specs.Outcome.{Comes, IsPossible};
ghost use Rattle.kms_operations.specs.Filling.{is_on_page, IsFilled};
ghost use Rattle.kms_world.specs.Times.{HasTimes};

use crate::Outcome;
use crate::container_put::see;
use crate::listing::query_asked;
use crate::permission::granted;
use kms_page::{Listing, Query};
use kms_store::Tables;
use kms_world::{Action, Answer, Caller, CheckFault, ListOf, ListRows, NoMemory, OrderRow, Text};
use std::alloc::Global;

// Whether the list shows the order.
fn is_shown(caller: &Caller, row: &OrderRow) -> bool
    ensures { result ≡ spec.shows_order caller.now row.now }
{
    row.project.as_bytes() == caller.project.as_bytes()
}

// Whether a row before which so many are shown stands on the page that a query asks for.
fn is_on_page(query: &Query, before: u64) -> bool
    ensures { result ≡ is_on_page query.now before }
{
    query.offset <= before && before - query.offset < query.limit
}

// A page that is being filled: its rows so far, and how many rows were shown, on the page or before or behind it.
#[derive(Drop)]
struct OrderPage {
    rows: ListOf<OrderRow>,
    total: u64,
}

// One order more, before which so many are shown, on the page if it stands there.
fn add(
    page: &mut ListOf<OrderRow>,
    query: &Query,
    before: u64,
    row: &OrderRow,
) -> Result<(), NoMemory>
    ensures { IfOk result (λ done. page.new ≡ (if is_on_page query.now before then page.old ++ row.now ∷ [] else page.old)) }
{
    if is_on_page(query, before) {
        page.push(row.copied()?)?;
    }
    Ok(())
}

// The page of the caller's orders that a query asks for.
fn filled(
    alloc: Global,
    caller: &Caller,
    orders: &[OrderRow],
    query: &Query,
) -> Result<OrderPage, NoMemory>
    ensures { IfOk result (λ page. IsFilled (spec.shows_order caller.now) query.now orders.now page.rows page.total) }
{
    let mut page = ListOf::new(alloc);
    let mut total = 0;
    for row in orders {
        if is_shown(caller, row) {
            add(&mut page, query, total, row)?;
            total += 1;
        }
    }
    Ok(OrderPage { rows: page, total })
}

// The answer with the page that a query asks for.
fn page_shown(
    alloc: Global,
    rows: &Tables,
    caller: &Caller,
    text: Text,
    query: &Query,
) -> Result<Answer, NoMemory>
    ensures is { IfOk result (λ answer. answer ≡ (spec.orders_done text query.now (spec.orders_shown rows.now.kept.state caller.now)).answer) }
    ensures times { IfOk result HasTimes }
{
    see(rows);
    let page = filled(alloc, caller, rows.orders(), query)?;
    Ok(Answer::List {
        path: Text::of(alloc, "/orders")?,
        query: text,
        rows: ListRows::Orders(page.rows),
        total: page.total,
    })
}

pub fn listed(
    alloc: Global,
    rows: &Tables,
    caller: &Caller,
    text: Text,
) -> Result<Outcome, CheckFault>
    ensures comes { Comes rows.now.kept.state.tag result (spec.orders_listed rows.now.kept.state caller.now text) }
    ensures possible { IfOk result (IsPossible rows.now.kept) }
{
    granted(caller, Action::OrderList)?;
    let query = query_asked(alloc, Listing::Orders, &text)?;
    match page_shown(alloc, rows, caller, text, &query) {
        Ok(answer) => Ok(Outcome {
            answer,
            change: None,
        }),
        Err(_) => Err(CheckFault::NoMemory),
    }
}
