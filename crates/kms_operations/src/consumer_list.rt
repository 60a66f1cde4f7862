// The list of a container's consumers.
ghost use Rattle.std.specs.Prelude.{◌≡◌, ◌<◌, length, map, IfOk};
ghost use Rattle.kms_model.specs.Containers.{consumers_of};
ghost use Rattle.kms_model.specs.Lists as spec;
ghost use Rattle.kms_operations.specs.Outcome.{Comes, IsPossible};
ghost use Rattle.kms_operations.specs.Places.{AreThose};
ghost use Rattle.kms_page.specs.Page.{rows_at};
ghost use Rattle.kms_world.specs.Id.{is_id};

use crate::Outcome;
use crate::containers::{any_container, container_for};
use crate::listing::{query_asked, row_at};
use kms_page::{Listing, Query, page_of};
use kms_store::Tables;
use kms_text::{Kind, ref_text};
use kms_world::{
    Action, Answer, Caller, CheckFault, ConsumerRow, ConsumerRows, Id, ListRows, NoMemory, Text,
};
use std::alloc::Global;

// Whether the consumer is the container's.
fn is_of(id: Id, row: &ConsumerRow) -> bool
    ensures { result ≡ is_id id row.now.container }
{
    row.container.0 == id.0
}

// The places of the container's consumers.
fn places_of(alloc: Global, id: Id, consumers: &[ConsumerRow]) -> Result<Vec<usize>, NoMemory>
    ensures { IfOk result (λ places. AreThose (λ r. is_id id r.container) consumers.now (length consumers.now) places.items) }
{
    let mut places = Vec::new(alloc);
    for place in 0..consumers.len() {
        if is_of(id, &consumers[place]) {
            places.push(place)?;
        }
    }
    Ok(places)
}

// The consumers at these places.
fn consumers_at(
    alloc: Global,
    consumers: &[ConsumerRow],
    places: &[usize],
) -> Result<ConsumerRows, NoMemory>
    ensures { IfOk result (λ list. list ≡ rows_at consumers.now places.now) }
{
    let mut list = ConsumerRows::new(alloc);
    for place in places {
        if let Some(row) = row_at(consumers, *place) {
            list.push(row.copied()?)?;
        }
    }
    Ok(list)
}

// The path of the list.
fn path_of(alloc: Global, id: Id) -> Result<Text, NoMemory>
    ensures { IfOk result (λ path. path ≡ spec.consumers_path id) }
{
    let container = ref_text(alloc, "", Kind::Container, id)?;
    let mut path = String::from_str(alloc, container.as_str())?;
    path.push_str("/consumers")?;
    Text::of(alloc, path.as_str())
}

// The page that a query asks for.
fn page_shown(
    alloc: Global,
    rows: &Tables,
    id: Id,
    text: Text,
    query: &Query,
) -> Result<Answer, NoMemory>
    ensures { IfOk result (λ answer. answer ≡ (spec.consumers_done id text query.now (consumers_of id rows.now.kept.state)).answer) }
{
    let places = places_of(alloc, id, rows.consumers())?;
    let page = page_of(alloc, &places, query)?;
    let consumers = consumers_at(alloc, rows.consumers(), page.at.as_slice())?;
    Ok(Answer::List {
        path: path_of(alloc, id)?,
        query: text,
        rows: ListRows::Consumers(consumers),
        total: page.total,
    })
}

pub fn listed(
    alloc: Global,
    rows: &Tables,
    caller: &Caller,
    id: Option<Id>,
    text: Text,
) -> Result<Outcome, CheckFault>
    ensures comes { Comes rows.now.kept.state.tag result (spec.consumers_listed rows.now.kept.state caller.now id text) }
    ensures possible { IfOk result (IsPossible rows.now.kept) }
{
    let found = any_container(rows, id);
    let container = container_for(rows, caller, Action::ConsumerGet, found)?;
    let query = query_asked(alloc, Listing::Consumers, &text)?;
    match page_shown(alloc, rows, container.id, text, &query) {
        Ok(answer) => Ok(Outcome {
            answer,
            change: None,
        }),
        Err(_) => Err(CheckFault::NoMemory),
    }
}
