// Operations on the consumers of a container.
ghost use Rattle.std.specs.Prelude.{◌≡◌, ◌<◌, ◌&&◌, false, IfOk, filter, not};
ghost use Rattle.kms_box.specs.Ranges.{IsConsumerInRange};
ghost use Rattle.kms_model.specs.Consumers as spec;
ghost use Rattle.kms_model.specs.Containers.{view_of};
ghost use Rattle.kms_operations.specs.Found.{IsKeptContainer};
ghost use Rattle.kms_operations.specs.Outcome.{Comes, IsPossible};
ghost use Rattle.kms_world.specs.Effect as effects;
ghost use Rattle.kms_world.specs.Id.{is_id};

use crate::Outcome;
use crate::body::given;
use crate::containers::{any_container, container_for, view_of, viewed};
use crate::count::count_of;
use crate::quotas::within_quota;
use kms_box::check_consumer;
use kms_record::{Change, ConsumerAdded, ConsumerDropped};
use kms_store::Tables;
use kms_world::{
    Action, Answer, Caller, CheckFault, ConsumerBody, ConsumerRow, ConsumerRows, ContainerRow,
    ContainerView, Id, NoMemory, QuotaKind, Refusal, Text,
};
use std::alloc::Global;

fn is_consumer(id: Id, pair: &(Text, Text), row: &ConsumerRow) -> bool
    ensures { result ≡ effects.is_consumer id pair.now.0 pair.now.1 row.now }
{
    row.container.0 == id.0
        && pair.0.as_str() == row.name.as_str()
        && pair.1.as_str() == row.url.as_str()
}

// Whether the container has this consumer.
fn is_there(rows: &Tables, id: Id, pair: &(Text, Text)) -> bool
    ensures { result ≡ spec.is_there rows.now.kept.state id pair.now }
{
    rows.consumers()
        .iter()
        .any(|row| is_consumer(id, pair, row))
}

fn new_row(id: Id, pair: &(Text, Text), moment: u64) -> Result<ConsumerRow, NoMemory>
    ensures { IfOk result (λ row. row ≡ spec.new_consumer id pair.now moment) }
{
    Ok(ConsumerRow {
        container: id,
        name: pair.0.clone()?,
        url: pair.1.clone()?,
        created: moment,
    })
}

// The container as it is shown with this consumer more.
fn view_with(
    alloc: Global,
    rows: &Tables,
    row: &ContainerRow,
    pair: &(Text, Text),
    moment: u64,
) -> Result<ContainerView, NoMemory>
    ensures { IfOk result (λ view. view ≡ view_of (effects.after_effect (effects.ConsumerAdded (spec.new_consumer row.now.id pair.now moment)) rows.now.kept.state) row.now) }
{
    let mut view = view_of(alloc, rows, row)?;
    view.consumers.push(new_row(row.id, pair, moment)?)?;
    Ok(view)
}

// A consumer more, where the project's quota has room for it.
fn added(
    alloc: Global,
    rows: &Tables,
    row: &ContainerRow,
    pair: (Text, Text),
    moment: u64,
) -> Result<Outcome, CheckFault>
    requires kept { IsKeptContainer rows.now.kept row.now }
    requires time { moment < 253402300800 }
    requires range { IsConsumerInRange pair }
    requires new { spec.is_there rows.now.kept.state row.now.id pair ≡ false }
    ensures comes { Comes rows.now.kept.state.tag result (spec.consumer_added rows.now.kept.state row.now pair moment) }
    ensures possible { IfOk result (IsPossible rows.now.kept) }
{
    within_quota(rows, &row.project, QuotaKind::Consumers)?;
    match view_with(alloc, rows, row, &pair, moment) {
        Ok(view) => Ok(Outcome {
            answer: Answer::Container(view),
            change: Some(Change::ConsumerAdded(ConsumerAdded {
                container: count_of(row.id),
                name: pair.0,
                url: pair.1,
                created: moment,
            })),
        }),
        Err(_) => Err(CheckFault::NoMemory),
    }
}

pub fn posted(
    alloc: Global,
    rows: &Tables,
    caller: &Caller,
    id: Option<Id>,
    body: Result<ConsumerBody, Refusal>,
    moment: u64,
) -> Result<Outcome, CheckFault>
    requires time { moment < 253402300800 }
    ensures comes { Comes rows.now.kept.state.tag result (spec.consumer_posted rows.now.kept.state caller.now id body moment) }
    ensures possible { IfOk result (IsPossible rows.now.kept) }
{
    let found = any_container(rows, id);
    let container = container_for(rows, caller, Action::ConsumerWrite, found)?;
    let body = given(body)?;
    let pair = check_consumer(&body)?;
    if !is_there(rows, container.id, &pair) {
        return added(alloc, rows, container, pair, moment);
    }
    Ok(Outcome {
        answer: Answer::Container(viewed(alloc, rows, container)?),
        change: None,
    })
}

// Those of these consumers that are a container's, but for this one, copied.
fn others_of(
    alloc: Global,
    id: Id,
    pair: &(Text, Text),
    consumers: &[ConsumerRow],
) -> Result<ConsumerRows, NoMemory>
    ensures { IfOk result (λ all. all ≡ filter (λ r. is_id id r.container && not (effects.is_consumer id pair.now.0 pair.now.1 r)) consumers.now) }
{
    let mut all = ConsumerRows::new(alloc);
    for row in consumers {
        if row.container.0 == id.0 && !is_consumer(id, pair, row) {
            all.push(row.copied()?)?;
        }
    }
    Ok(all)
}

// The container as it is shown without this consumer.
fn view_without(
    alloc: Global,
    rows: &Tables,
    row: &ContainerRow,
    pair: &(Text, Text),
) -> Result<ContainerView, NoMemory>
    ensures { IfOk result (λ view. view ≡ view_of (effects.after_effect (effects.ConsumerDropped row.now.id pair.now.0 pair.now.1) rows.now.kept.state) row.now) }
{
    let copy = row.copied(alloc)?;
    let consumers = others_of(alloc, row.id, pair, rows.consumers())?;
    Ok(ContainerView {
        row: copy,
        consumers,
    })
}

pub fn deleted(
    alloc: Global,
    rows: &Tables,
    caller: &Caller,
    id: Option<Id>,
    body: Result<ConsumerBody, Refusal>,
    moment: u64,
) -> Result<Outcome, CheckFault>
    ensures comes { Comes rows.now.kept.state.tag result (spec.consumer_deleted rows.now.kept.state caller.now id body moment) }
    ensures possible { IfOk result (IsPossible rows.now.kept) }
{
    let found = any_container(rows, id);
    let container = container_for(rows, caller, Action::ConsumerWrite, found)?;
    let body = given(body)?;
    let pair = check_consumer(&body)?;
    if !is_there(rows, container.id, &pair) {
        return Err(CheckFault::Refused(Refusal::NoObject));
    }
    match view_without(alloc, rows, container, &pair) {
        Ok(view) => Ok(Outcome {
            answer: Answer::Container(view),
            change: Some(Change::ConsumerDropped(ConsumerDropped {
                container: count_of(container.id),
                name: pair.0,
                url: pair.1,
            })),
        }),
        Err(_) => Err(CheckFault::NoMemory),
    }
}
