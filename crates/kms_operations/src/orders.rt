// Operations on orders of keys. They aren't served yet, since no worker carries orders out: `asked` refuses them as a path that
// isn't there.
ghost use Rattle.std.specs.Prelude.{◌≡◌, ◌<◌, true, IfOk, IfSome, Ok, option_copied};
ghost use Rattle.std.specs.Option.{ForSome};
ghost use Rattle.kms_model.specs.Orders as spec;
ghost use Rattle.kms_model.specs.Secrets.{has_id};
ghost use Rattle.kms_operations.specs.Found.{Finds, IsKeptOrder};
ghost use Rattle.kms_operations.specs.Outcome.{Comes, Fits, IsPossible};
ghost use Rattle.kms_record.specs.ChangeEffect.{order_at};
ghost use Rattle.kms_record.specs.declared.change.Change.TheVariants as changes;
ghost use Rattle.kms_secret.specs.Ranges.{IsOrderInRange};
ghost use Rattle.kms_world.specs.Checked.{IsUnlessNoMemory};

use crate::Outcome;
use crate::body::given;
use crate::count::{count_of, has_id};
use crate::names::names_fit;
use crate::permission::{granted, granted_on_order};
use crate::quotas::within_quota;
use kms_record::{Change, OrderPut, OrderPutState};
use kms_secret::{NewOrder, check_order};
use kms_store::Tables;
use kms_world::{
    Action, Answer, Caller, CheckFault, Id, Link, OrderBody, OrderRow, QuotaKind, Refusal, id_of,
};

// The order under the id in a path.
fn any_order(rows: &Tables, id: Option<Id>) -> Option<&OrderRow>
    ensures found { option_copied result ≡ spec.any_order rows.now.kept.state id }
    ensures kept { IfSome (option_copied result) (IsKeptOrder rows.now.kept) }
{
    rows.order(id?)
}

// The order that was found, if the policy grants the action on it.
fn order_for<'a>(
    rows: &'a Tables,
    caller: &Caller,
    action: Action,
    found: Option<&'a OrderRow>,
) -> Result<&'a OrderRow, CheckFault>
    requires { ForSome (option_copied found) (IsKeptOrder rows.now.kept) }
    ensures finds { Finds result (spec.order_for caller.now action (option_copied found.entry)) }
    ensures kept { IfOk result (λ row. IsKeptOrder rows.now.kept row.now) }
{
    let Some(order) = found else {
        return Err(CheckFault::Refused(Refusal::NoObject));
    };
    granted_on_order(caller, action, order)?;
    Ok(order)
}

// The key that a body asks for, of a caller who may order one.
fn wanted(
    caller: &Caller,
    body: Result<OrderBody, Refusal>,
    moment: u64,
) -> Result<NewOrder, CheckFault>
    ensures is { IsUnlessNoMemory result (spec.order_wanted caller.now body moment) }
    ensures range { IfOk result (IsOrderInRange moment) }
{
    granted(caller, Action::OrderCreate)?;
    let body = given(body)?;
    let new = check_order(&body, moment)?;
    Ok(new)
}

// The change that puts a new order of the caller. An id is left.
fn new_of(rows: &Tables, caller: &Caller, new: NewOrder, moment: u64) -> OrderPut
    requires time { moment < 253402300800 }
    requires left { has_id rows.now.kept.state ≡ true }
    requires range { IsOrderInRange moment new }
    ensures row { order_at rows.now.kept.state.tag result ≡ spec.new_order rows.now.kept.state caller.now new moment }
    ensures fits { Fits rows.now.kept (changes.OrderPut result) }
{
    names_fit(caller);
    OrderPut {
        id: rows.ids(),
        project: caller.project,
        creator: caller.user,
        created: moment,
        updated: moment,
        algorithm: new.algorithm,
        bit_length: new.bit_length,
        mode: new.mode,
        name: new.name,
        expiration: new.expiration,
        state: OrderPutState::Pending,
    }
}

pub fn posted(
    rows: &Tables,
    caller: &Caller,
    body: Result<OrderBody, Refusal>,
    moment: u64,
) -> Result<Outcome, CheckFault>
    requires time { moment < 253402300800 }
    ensures comes { Comes rows.now.kept.state.tag result (spec.order_posted rows.now.kept.state caller.now body moment) }
    ensures possible { IfOk result (IsPossible rows.now.kept) }
{
    let new = wanted(caller, body, moment)?;
    within_quota(rows, &caller.project, QuotaKind::Orders)?;
    if !has_id(rows) {
        return Err(CheckFault::Refused(Refusal::IdsSpent));
    }
    Ok(Outcome {
        answer: Answer::Link {
            status: 202,
            link: Link::Order,
            id: id_of(rows.tag(), rows.ids()),
        },
        change: Some(Change::OrderPut(new_of(rows, caller, new, moment))),
    })
}

fn copied(row: &OrderRow) -> Result<OrderRow, CheckFault>
    ensures { IsUnlessNoMemory result (Ok row.now) }
{
    match row.copied() {
        Ok(row) => Ok(row),
        Err(_) => Err(CheckFault::NoMemory),
    }
}

pub fn shown(rows: &Tables, caller: &Caller, id: Option<Id>) -> Result<Outcome, CheckFault>
    ensures comes { Comes rows.now.kept.state.tag result (spec.order_shown rows.now.kept.state caller.now id) }
    ensures possible { IfOk result (IsPossible rows.now.kept) }
{
    let found = any_order(rows, id);
    let order = order_for(rows, caller, Action::OrderGet, found)?;
    Ok(Outcome {
        answer: Answer::Order(copied(order)?),
        change: None,
    })
}

pub fn deleted(rows: &Tables, caller: &Caller, id: Option<Id>) -> Result<Outcome, CheckFault>
    ensures comes { Comes rows.now.kept.state.tag result (spec.order_deleted rows.now.kept.state caller.now id) }
    ensures possible { IfOk result (IsPossible rows.now.kept) }
{
    let found = any_order(rows, id);
    let order = order_for(rows, caller, Action::OrderDelete, found)?;
    Ok(Outcome {
        answer: Answer::Empty(204),
        change: Some(Change::Deleted(count_of(order.id))),
    })
}
