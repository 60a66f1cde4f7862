// The list of containers.
ghost use Rattle.std.specs.Prelude.{◌≡◌, length, map, IfOk};
ghost use Rattle.kms_model.specs.Containers.{view_of};
ghost use Rattle.kms_model.specs.Lists as spec;
ghost use Rattle.kms_operations.specs.Outcome.{Comes, IsPossible};
ghost use Rattle.kms_operations.specs.Places.{AreThose};
ghost use Rattle.kms_page.specs.Page.{rows_at};
ghost use Rattle.kms_world.specs.Times.{HasTimes};

use crate::Outcome;
use crate::container_put::see;
use crate::containers::view_of;
use crate::listing::{query_asked, row_at};
use crate::permission::{granted, may_get_container};
use kms_page::{Listing, Query, page_of};
use kms_store::Tables;
use kms_world::{
    Action, Answer, Caller, CheckFault, ContainerRow, ContainerView, ListOf, ListRows, NoMemory,
    Text,
};
use std::alloc::Global;

// Whether the list shows the container.
fn is_shown(rows: &Tables, caller: &Caller, row: &ContainerRow) -> bool
    ensures { result ≡ spec.shows_container rows.now.kept.state caller.now row.now }
{
    row.project.as_bytes() == caller.project.as_bytes() && may_get_container(rows, caller, row)
}

// The places of the containers that the list shows.
fn places_shown(alloc: Global, rows: &Tables, caller: &Caller) -> Result<Vec<usize>, NoMemory>
    ensures { IfOk result (λ places. AreThose (spec.shows_container rows.now.kept.state caller.now) rows.now.kept.state.containers (length rows.now.kept.state.containers) places.items) }
{
    let containers = rows.containers();
    let mut places = Vec::new(alloc);
    for place in 0..containers.len() {
        if is_shown(rows, caller, &containers[place]) {
            places.push(place)?;
        }
    }
    Ok(places)
}

// The containers at these places, as they are shown.
fn views_at(
    alloc: Global,
    rows: &Tables,
    places: &[usize],
) -> Result<ListOf<ContainerView>, NoMemory>
    ensures { IfOk result (λ list. list ≡ map (view_of rows.now.kept.state) (rows_at rows.now.kept.state.containers places.now)) }
{
    let containers = rows.containers();
    let mut list = ListOf::new(alloc);
    for place in places {
        if let Some(row) = row_at(containers, *place) {
            list.push(view_of(alloc, rows, row)?)?;
        }
    }
    Ok(list)
}

// The page that a query asks for.
fn page_shown(
    alloc: Global,
    rows: &Tables,
    caller: &Caller,
    text: Text,
    query: &Query,
) -> Result<Answer, NoMemory>
    ensures is { IfOk result (λ answer. answer ≡ (spec.containers_done rows.now.kept.state text query.now (spec.containers_shown rows.now.kept.state caller.now)).answer) }
    ensures times { IfOk result HasTimes }
{
    see(rows);
    let places = places_shown(alloc, rows, caller)?;
    let page = page_of(alloc, &places, query)?;
    let views = views_at(alloc, rows, page.at.as_slice())?;
    Ok(Answer::List {
        path: Text::of(alloc, "/containers")?,
        query: text,
        rows: ListRows::Containers(views),
        total: page.total,
    })
}

pub fn listed(
    alloc: Global,
    rows: &Tables,
    caller: &Caller,
    text: Text,
) -> Result<Outcome, CheckFault>
    ensures comes { Comes rows.now.kept.state.tag result (spec.containers_listed rows.now.kept.state caller.now text) }
    ensures possible { IfOk result (IsPossible rows.now.kept) }
{
    granted(caller, Action::ContainerList)?;
    let query = query_asked(alloc, Listing::Containers, &text)?;
    match page_shown(alloc, rows, caller, text, &query) {
        Ok(answer) => Ok(Outcome {
            answer,
            change: None,
        }),
        Err(_) => Err(CheckFault::NoMemory),
    }
}
