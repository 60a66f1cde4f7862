// Pages of lists: the bodies are the table's.
ghost use Rattle.std.specs.Prelude.{IfOk};
ghost use Rattle.kms_world.specs.Times.{HasTimes, RowsHaveTimes};
ghost use Rattle.kms_json.specs.Answer.{HasForm};

use crate::table;
use crate::tests::{consumers, empty_container, is_shown, limits, order, plain};
use kms_world::{Answer, ListOf, ListRows, Name, NoMemory, OrderState, Text};
use std::alloc::Global;
use std::rt::HostRuntime;

fn page(
    alloc: Global,
    path: &str,
    query: &str,
    rows: ListRows,
    total: u64,
) -> Result<Answer, NoMemory>
    requires { RowsHaveTimes rows }
    ensures times { IfOk result (λ given. HasTimes given) }
    ensures form { IfOk result (λ given. HasForm given) }
{
    Ok(Answer::List {
        path: Text::of(alloc, path)?,
        query: Text::of(alloc, query)?,
        rows,
        total,
    })
}

fn secrets(alloc: Global, project: Name, creator: Name) -> Result<Answer, NoMemory>
    ensures times { IfOk result (λ given. HasTimes given) }
    ensures form { IfOk result (λ given. HasForm given) }
{
    let mut rows = ListOf::new(alloc);
    rows.push(plain(alloc, project, creator)?)?;
    let query = "limit=1&x=a+b%26&offset=5";
    page(alloc, "/secrets", query, ListRows::Secrets(rows), 30)
}

fn containers(alloc: Global, project: Name, creator: Name) -> Result<Answer, NoMemory>
    ensures times { IfOk result (λ given. HasTimes given) }
    ensures form { IfOk result (λ given. HasForm given) }
{
    let mut rows = ListOf::new(alloc);
    rows.push(empty_container(alloc, project, creator)?)?;
    page(alloc, "/containers", "", ListRows::Containers(rows), 11)
}

fn consumer_page(alloc: Global) -> Result<Answer, NoMemory>
    ensures times { IfOk result (λ given. HasTimes given) }
    ensures form { IfOk result (λ given. HasForm given) }
{
    let rows = consumers(alloc)?;
    let path = "/containers/01234567-89ab-8cde-8000-000000000001/consumers";
    page(
        alloc,
        path,
        "offset=3&limit=100",
        ListRows::Consumers(rows),
        4,
    )
}

fn orders(alloc: Global, project: Name, creator: Name) -> Result<Answer, NoMemory>
    ensures times { IfOk result (λ given. HasTimes given) }
    ensures form { IfOk result (λ given. HasForm given) }
{
    let mut rows = ListOf::new(alloc);
    rows.push(order(alloc, project, creator, OrderState::Pending)?)?;
    page(alloc, "/orders", "", ListRows::Orders(rows), 1)
}

fn projects(alloc: Global, project: Name) -> Result<Answer, NoMemory>
    ensures times { IfOk result (λ given. HasTimes given) }
    ensures form { IfOk result (λ given. HasForm given) }
{
    let mut rows = ListOf::new(alloc);
    rows.push(limits(project))?;
    page(alloc, "/project-quotas", "", ListRows::Quotas(rows), 1)
}

fn no_projects(alloc: Global, query: &str) -> Result<Answer, NoMemory>
    ensures times { IfOk result (λ given. HasTimes given) }
    ensures form { IfOk result (λ given. HasForm given) }
{
    let rows = ListOf::new(alloc);
    page(
        alloc,
        "/project-quotas",
        query,
        ListRows::Quotas(rows),
        u64::MAX,
    )
}

#[test]
fn pages_are_shown(rt: HostRuntime) {
    let alloc = rt.alloc();
    let project = Name::read(b"p1").expect(&rt, "a name");
    let user = Name::read(b"u1").expect(&rt, "a name");
    assert!(rt; is_shown(alloc, secrets(alloc, project, user), table::SECRETS));
    assert!(rt; is_shown(alloc, containers(alloc, project, user), table::CONTAINERS));
    assert!(rt; is_shown(alloc, consumer_page(alloc), table::CONSUMERS));
    assert!(rt; is_shown(alloc, orders(alloc, project, user), table::ORDERS));
    assert!(rt; is_shown(alloc, projects(alloc, project), table::PROJECTS));
    assert!(rt; is_shown(alloc, no_projects(alloc, ""), table::NO_PROJECTS));
    assert!(rt; is_shown(alloc, no_projects(alloc, "limit=0"), table::BAD_LIMIT));
}
