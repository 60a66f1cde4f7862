// The list of secrets.
ghost use Rattle.std.specs.Prelude.{◌≡◌, ◌<◌, length, map, All, IfOk};
ghost use Rattle.kms_model.specs.Lists as spec;
ghost use Rattle.kms_operations.specs.Outcome.{Comes, IsPossible};
ghost use Rattle.kms_operations.specs.Places.{AreThose};
ghost use Rattle.kms_page.specs.Page.{page_of_list, rows_at};
ghost use Rattle.kms_store.specs.KeptSecret.{without_number};
ghost use Rattle.kms_world.specs.Secret.{attributes_of};
ghost use Rattle.kms_world.specs.Times.{HasTimes};

use crate::Outcome;
use crate::container_put::see;
use crate::listing::{query_asked, row_at};
use crate::permission::{granted, may_get_secret};
use crate::secrets::is_live;
use kms_page::{Listing, Page, Query, Rows, page};
use kms_store::{KeptSecret, Tables};
use kms_world::{Action, Answer, Caller, CheckFault, ListOf, ListRows, NoMemory, SecretRow, Text};
use std::alloc::Global;

// The secrets that are kept, by their places.
#[derive(Drop)]
struct Secrets<'a> {
    kept: &'a [KeptSecret],
}

impl Rows for Secrets<'_> {
    ghost use Rattle.std.specs.Prelude.{map};
    ghost use Rattle.kms_store.specs.KeptSecret.{without_number};

    ghost listed = { λ secrets. map without_number secrets.kept.now };

    fn row(&self, place: usize) -> Option<&SecretRow> {
        match self.kept.get(place) {
            Some(secret) => Some(secret.row()),
            None => None,
        }
    }
}

// Whether the list shows the secret.
fn is_shown(rows: &Tables, caller: &Caller, moment: u64, secret: &KeptSecret) -> bool
    ensures { result ≡ spec.shows_secret rows.now.kept.state caller.now moment secret.now }
{
    let row = secret.row();
    row.project.as_bytes() == caller.project.as_bytes()
        && is_live(moment, row.expiration)
        && may_get_secret(rows, caller, row)
}

// The places of the secrets that the list shows.
fn places_shown(
    alloc: Global,
    rows: &Tables,
    caller: &Caller,
    moment: u64,
) -> Result<Vec<usize>, NoMemory>
    ensures { IfOk result (λ places. AreThose (spec.shows_secret rows.now.kept.state caller.now moment) rows.now.kept.state.secrets (length rows.now.kept.state.secrets) places.items) }
{
    let secrets = rows.secrets();
    let mut places = Vec::new(alloc);
    for place in 0..secrets.len() {
        if is_shown(rows, caller, moment, &secrets[place]) {
            places.push(place)?;
        }
    }
    Ok(places)
}

// The page of the secrets at these places, by their places.
fn page_at(alloc: Global, rows: &Tables, places: &[usize], query: &Query) -> Result<Page, NoMemory>
    requires { All (λ place. place < length rows.now.kept.state.secrets) places.now }
    ensures at { IfOk result (λ page. map attributes_of (rows_at rows.now.kept.state.secrets page.at) ≡ map attributes_of (page_of_list (rows_at rows.now.kept.state.secrets places.now) query.now).0) }
    ensures total { IfOk result (λ page. page.total ≡ (page_of_list (rows_at rows.now.kept.state.secrets places.now) query.now).1) }
{
    let secrets = Secrets {
        kept: rows.secrets(),
    };
    page(alloc, &secrets, places, query)
}

// The attributes of the secrets at these places.
fn attributes_at(
    alloc: Global,
    secrets: &[KeptSecret],
    places: &[usize],
) -> Result<ListOf<SecretRow>, NoMemory>
    ensures { IfOk result (λ list. list ≡ map attributes_of (rows_at secrets.now places.now)) }
{
    let mut list = ListOf::new(alloc);
    for place in places {
        if let Some(secret) = row_at(secrets, *place) {
            list.push(secret.row().attributes(alloc)?)?;
        }
    }
    Ok(list)
}

// The page that a query asks for.
fn page_shown(
    alloc: Global,
    rows: &Tables,
    caller: &Caller,
    text: Text,
    query: &Query,
    moment: u64,
) -> Result<Answer, NoMemory>
    ensures is { IfOk result (λ answer. answer ≡ (spec.secrets_done text (page_of_list (spec.secrets_shown rows.now.kept.state caller.now moment) query.now)).answer) }
    ensures times { IfOk result HasTimes }
{
    see(rows);
    let places = places_shown(alloc, rows, caller, moment)?;
    let page = page_at(alloc, rows, &places, query)?;
    let secrets = attributes_at(alloc, rows.secrets(), page.at.as_slice())?;
    Ok(Answer::List {
        path: Text::of(alloc, "/secrets")?,
        query: text,
        rows: ListRows::Secrets(secrets),
        total: page.total,
    })
}

pub fn listed(
    alloc: Global,
    rows: &Tables,
    caller: &Caller,
    text: Text,
    moment: u64,
) -> Result<Outcome, CheckFault>
    ensures comes { Comes rows.now.kept.state.tag result (spec.secrets_listed rows.now.kept.state caller.now text moment) }
    ensures possible { IfOk result (IsPossible rows.now.kept) }
{
    granted(caller, Action::SecretList)?;
    let query = query_asked(alloc, Listing::Secrets, &text)?;
    match page_shown(alloc, rows, caller, text, &query, moment) {
        Ok(answer) => Ok(Outcome {
            answer,
            change: None,
        }),
        Err(_) => Err(CheckFault::NoMemory),
    }
}
