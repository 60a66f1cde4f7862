// The answer to a line.
ghost use Rattle.std.specs.Prelude.{◌<◌, length, All};

use crate::secrets::secrets;
use kms_page::{Listing, Page, Query, page};
use kms_world::{Name, SecretRow};
use std::alloc::{AllocError, Global};

/// The answer to a line: a page, or `?`.
pub fn answer(alloc: Global, line: &str) -> Result<String, AllocError> {
    match answered(alloc, line)? {
        Some(text) => Ok(text),
        None => String::from_str(alloc, "?"),
    }
}

fn answered(alloc: Global, line: &str) -> Result<Option<String>, AllocError> {
    let Some((count, rest)) = line.split_once(' ') else {
        return Ok(None);
    };
    let Some((rows, text)) = rest.split_once(' ') else {
        return Ok(None);
    };
    let (Ok(count), Ok(rows)) = (count.parse::<u32>(), rows.parse::<u32>()) else {
        return Ok(None);
    };
    let Some(owner) = Name::read(b"p1") else {
        return Ok(None);
    };
    let rows = secrets(alloc, owner, rows as u64)?;
    let mut places = Vec::new(alloc);
    for place in 0..rows.len() {
        places.push(place)?;
    }
    if !places.iter().all(|place| *place < rows.len()) {
        return Ok(None);
    }
    let Ok(query) = Query::read(alloc, Listing::Secrets, text.as_bytes()) else {
        return Ok(None);
    };
    match repeated(alloc, count, &rows, &places, &query) {
        Some(page) => Ok(Some(shown(alloc, &page)?)),
        None => Ok(None),
    }
}

// The page, worked out so many times, and once where that is 0; none where there is no memory for it.
fn repeated(
    alloc: Global,
    count: u32,
    rows: &Vec<SecretRow>,
    places: &[usize],
    query: &Query,
) -> Option<Page>
    requires { All (λ place. place < length rows.now.items) places.now }
{
    for _ in 1..count {
        let _ = page(alloc, rows, places, query).ok()?;
    }
    page(alloc, rows, places, query).ok()
}

fn shown(alloc: Global, page: &Page) -> Result<String, AllocError> {
    let mut text = String::new(alloc);
    for place in page.at.as_slice() {
        write!(text, "{place} ")?;
    }
    let total = page.total;
    write!(text, "of {total}")?;
    Ok(text)
}
