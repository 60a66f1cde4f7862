// Queries, pages and links. The tables' answers are Python's: tests/pages.py computes them again and says how they read.
ghost use Rattle.std.specs.Prelude.{◌≡◌, ◌<◌, length, All};
ghost use Rattle.kms_page.specs.Page.{next_offset, previous_offset};

use crate::laws::{a_page_of_places_is_that_of_their_rows, a_row_stands_at_each_place};
use crate::table::{Attributes, PAGES, QUERIES, ROWS, SHOWN};
use crate::{Listing, Page, Query, QueryFault, link, page, page_of};
use kms_world::{Field, Id, Name, NoMemory, Pairs, SecretKind, SecretRow, Text};
use std::alloc::{AllocError, Global};
use std::test::Fail;

fn name_of(text: &str) -> Result<Name, &'static str> {
    Name::read(text.as_bytes()).ok_or("no name")
}

fn text_of(alloc: Global, text: Option<&str>) -> Result<Option<Text>, NoMemory> {
    match text {
        None => Ok(None),
        Some(text) => Ok(Some(Text::of(alloc, text)?)),
    }
}

fn row(alloc: Global, owner: Name, of: &Attributes) -> Result<SecretRow, NoMemory> {
    Ok(SecretRow {
        id: Id(1),
        project: owner,
        creator: owner,
        created: of.created,
        updated: of.updated,
        name: text_of(alloc, of.name)?,
        algorithm: text_of(alloc, of.algorithm)?,
        bit_length: of.bits,
        mode: text_of(alloc, of.mode)?,
        kind: of.kind,
        expiration: of.expiration,
        payload: None,
        metadata: Pairs::new(alloc),
    })
}

// So many rows: those of the table again and again.
fn rows(alloc: Global, count: usize) -> Result<Vec<SecretRow>, Fail> {
    let owner = name_of("p1")?;
    let mut rows = Vec::new(alloc);
    for place in 0..count {
        rows.push(row(alloc, owner, &ROWS[place % 12])?)?;
    }
    Ok(rows)
}

// The places on the page, and how many rows pass.
fn places_of(alloc: Global, page: &Page) -> Result<String, Fail> {
    let mut text = String::new(alloc);
    let mut gap = "";
    for place in page.at.as_slice() {
        write!(text, "{gap}{place}")?;
        gap = " ";
    }
    let total = page.total;
    write!(text, " of {total}")?;
    Ok(text)
}

// The page, and what stands behind the path in the link to the next offset.
fn shown(alloc: Global, page: &Page, query: &Query) -> Result<String, Fail> {
    let mut text = places_of(alloc, page)?;
    let at = query.offset.saturating_add(query.limit);
    let next = link(alloc, "", "", query, at)?;
    let next = next.as_str();
    write!(text, "; {next}")?;
    Ok(text)
}

fn answer(
    alloc: Global,
    listing: Listing,
    rows: &Vec<SecretRow>,
    places: &[usize],
    text: &str,
) -> Result<String, Fail>
    requires { All (λ place. place < length rows.now.items) places.now }
{
    match Query::read(alloc, listing, text.as_bytes()) {
        Ok(query) => {
            let page = match listing {
                Listing::Secrets => page(alloc, rows, places, &query)?,
                _ => page_of(alloc, places, &query)?,
            };
            shown(alloc, &page, &query)
        }
        Err(QueryFault::Bad(field)) => {
            let field = field.word();
            Ok(format!(in alloc; "bad {field}")?)
        }
        Err(QueryFault::NoMemory) => Err(Fail::from(NoMemory)),
    }
}

#[test]
fn queries_and_their_pages(rt: HostRuntime) -> Result<(), Fail> {
    let alloc = rt.alloc();
    let rows = rows(alloc, ROWS.len())?;
    let places = SHOWN.to_vec(alloc)?;
    assert!(rt; places.iter().all(|place| *place < rows.len()));
    for (listing, text, want) in &QUERIES {
        let have = answer(alloc, *listing, &rows, &places, text)?;
        assert_eq!(rt; have.as_str(), *want, "{text}");
    }
    Ok(())
}

fn next_of(query: &Query, total: u64) -> Option<u64>
    ensures { result ≡ next_offset query.now total }
{
    match query.offset.checked_add(query.limit) {
        Some(end) if end < total => Some(end),
        _ => None,
    }
}

fn previous_of(query: &Query) -> Option<u64>
    ensures { result ≡ previous_offset query.now }
{
    if query.offset == 0 {
        None
    } else {
        Some(query.offset.saturating_sub(query.limit))
    }
}

// The link to the page at this offset, or a dash.
fn maybe_link(alloc: Global, query: &Query, offset: Option<u64>) -> Result<Text, NoMemory> {
    match offset {
        None => Text::of(alloc, "-"),
        Some(offset) => link(alloc, "http://k/v1", "/secrets", query, offset),
    }
}

// The page of a list of so many rows, all shown, and the links to the next page and to the one before.
fn page_with_links(alloc: Global, count: usize, text: &str) -> Result<String, Fail> {
    let rows = rows(alloc, count)?;
    let mut places = Vec::new(alloc);
    for place in 0..rows.len() {
        places.push(place)?;
    }
    if !places.iter().all(|place| *place < rows.len()) {
        return Err(Fail::from("a place without a row"));
    }
    let query = Query::read(alloc, Listing::Secrets, text.as_bytes())?;
    a_row_stands_at_each_place(&rows, &places);
    a_page_of_places_is_that_of_their_rows(&rows, &places, &query);
    let page = page(alloc, &rows, &places, &query)?;
    let next = maybe_link(alloc, &query, next_of(&query, page.total))?;
    let previous = maybe_link(alloc, &query, previous_of(&query))?;
    let (next, previous) = (next.as_str(), previous.as_str());
    let mut have = places_of(alloc, &page)?;
    write!(have, "; {next}; {previous}")?;
    Ok(have)
}

#[test]
fn pages_and_their_links(rt: HostRuntime) -> Result<(), Fail> {
    let alloc = rt.alloc();
    for (count, text, want) in &PAGES {
        let have = page_with_links(alloc, *count, text)?;
        assert_eq!(rt; have.as_str(), *want, "{count} {text}");
    }
    Ok(())
}

// Names b, none, a, b: absent values last where the key descends, ties in the order of creation.
#[test]
fn absent_values_and_ties(rt: HostRuntime) -> Result<(), Fail> {
    let alloc = rt.alloc();
    let rows = rows(alloc, 4)?;
    let places = [0usize, 1, 2, 3].to_vec(alloc)?;
    assert!(rt; places.iter().all(|place| *place < rows.len()));
    let text = b"sort=name:desc,created";
    let query = Query::read(alloc, Listing::Secrets, text.as_slice())?;
    let page = page(alloc, &rows, &places, &query)?;
    assert_eq!(rt; page.at.as_slice(), [0, 3, 2, 1].as_slice());
    Ok(())
}
