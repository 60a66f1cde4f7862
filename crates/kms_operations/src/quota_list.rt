// The list of all projects' quotas.
ghost use Rattle.std.specs.Prelude.{◌≡◌, IfOk, take, drop};
ghost use Rattle.kms_model.specs.Lists as spec;
ghost use Rattle.kms_operations.specs.Outcome.{Comes, IsPossible};

use crate::Outcome;
use crate::listing::query_asked;
use crate::permission::granted;
use kms_page::{Listing, Query};
use kms_store::Tables;
use kms_world::{Action, Answer, Caller, CheckFault, ListOf, ListRows, NoMemory, QuotaRow, Text};
use std::alloc::Global;

// Copies of rows of quotas.
fn copied(alloc: Global, rows: &[QuotaRow]) -> Result<ListOf<QuotaRow>, NoMemory>
    ensures { IfOk result (λ list. list ≡ rows.now) }
{
    let mut list = ListOf::new(alloc);
    for row in rows {
        list.push(*row)?;
    }
    Ok(list)
}

// The rows on the page.
fn cut(alloc: Global, rows: &[QuotaRow], query: &Query) -> Result<ListOf<QuotaRow>, NoMemory>
    ensures { IfOk result (λ list. list ≡ spec.cut query.now rows.now) }
{
    let start = rows.len().min(query.offset as usize);
    let behind = &rows[start..];
    let end = behind.len().min(query.limit as usize);
    copied(alloc, &behind[..end])
}

// The page that a query asks for.
fn page_shown(alloc: Global, rows: &Tables, text: Text, query: &Query) -> Result<Answer, NoMemory>
    ensures { IfOk result (λ answer. answer ≡ (spec.quotas_done text query.now rows.now.kept.state.quotas).answer) }
{
    let quotas = rows.quotas();
    Ok(Answer::List {
        path: Text::of(alloc, "/project-quotas")?,
        query: text,
        rows: ListRows::Quotas(cut(alloc, quotas, query)?),
        total: quotas.len() as u64,
    })
}

pub fn listed(
    alloc: Global,
    rows: &Tables,
    caller: &Caller,
    text: Text,
) -> Result<Outcome, CheckFault>
    ensures comes { Comes rows.now.kept.state.tag result (spec.quotas_listed rows.now.kept.state caller.now text) }
    ensures possible { IfOk result (IsPossible rows.now.kept) }
{
    granted(caller, Action::QuotaAdmin)?;
    let query = query_asked(alloc, Listing::Quotas, &text)?;
    match page_shown(alloc, rows, text, &query) {
        Ok(answer) => Ok(Outcome {
            answer,
            change: None,
        }),
        Err(_) => Err(CheckFault::NoMemory),
    }
}
