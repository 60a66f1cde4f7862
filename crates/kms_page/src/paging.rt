// Pages of lists.
ghost use Rattle.std.specs.Prelude.{◌≡◌, ◌<◌, ◌&&◌, ◌||◌, nat_le, nat_lt, [], ◌∷◌, ◌++◌, length, take, drop, is_some, if◌then◌else◌, All, IfOk, OnOk};
ghost use Rattle.kms_page.specs.Filter.{filtered};
ghost use Rattle.kms_page.specs.Order as order;
ghost use Rattle.kms_page.specs.Sorted.{sorted};
ghost use Rattle.kms_page.specs.Page.{ordered, page_from, page_of_rows};

use crate::filter::passes_at;
use crate::order::place_cmp;
use crate::{Page, Places, Query, Rows};
use kms_world::NoMemory;
use std::alloc::Global;

// The places on the page.
fn cut(alloc: Global, places: &[usize], query: &Query) -> Result<Places, NoMemory>
    ensures { IfOk result (λ at. at ≡ take query.now.limit (drop query.now.offset places.now)) }
{
    let start = places.len().min(query.offset as usize);
    let behind = &places[start..];
    let end = behind.len().min(query.limit as usize);
    Ok(Places::from_vec(behind[..end].to_vec(alloc)?))
}

/// The page of a list without filters and sort keys: `shown` has the places of its rows, in the list's order. The only
/// error is out of memory.
#[tactic(auto, unfolding(crate::specs::Page::page_from))]
pub fn page_of(alloc: Global, shown: &[usize], query: &Query) -> Result<Page, NoMemory>
    ensures { IfOk result (λ page. page ≡ page_from shown.now query.now) }
{
    let at = cut(alloc, shown, query)?;
    let total = shown.len() as u64;
    Ok(Page { at, total })
}

// Puts the place behind those on the page, where so many rows before it make it stand there.
fn keep(at: &mut Vec<usize>, place: usize, before: u64, query: &Query) -> Result<(), NoMemory>
    ensures { OnOk result (at.new.items
        ≡ (if nat_le query.now.offset before && nat_lt (length at.old.items) query.now.limit then at.old.items ++ place ∷ [] else at.old.items)) }
{
    if query.offset <= before && (at.len() as u64) < query.limit {
        at.push(place)?;
    }
    Ok(())
}

// The page of a list that is filtered and not sorted: one walk over the rows, which keeps the places on the page alone.
fn filtered_page<R: Rows>(
    alloc: Global,
    rows: &R,
    shown: &[usize],
    query: &Query,
) -> Result<Page, NoMemory>
    ensures { IfOk result (λ page. page ≡ page_from (filtered (R.listed rows.now) shown.now query.now) query.now) }
{
    let mut at = Vec::new(alloc);
    let mut total: u64 = 0;
    for place in shown {
        if passes_at(rows, query, *place) {
            keep(&mut at, *place, total, query)?;
            total += 1;
        }
    }
    Ok(Page {
        at: Places::from_vec(at),
        total,
    })
}

// The places of the rows that pass.
fn filtered<R: Rows>(
    alloc: Global,
    rows: &R,
    shown: &[usize],
    query: &Query,
) -> Result<Vec<usize>, NoMemory>
    ensures { IfOk result (λ places. places.items ≡ filtered (R.listed rows.now) shown.now query.now) }
{
    let mut places = Vec::new(alloc);
    for place in shown {
        if passes_at(rows, query, *place) {
            places.push(*place)?;
        }
    }
    Ok(places)
}

// Puts places in the order of the query's keys.
fn sort<R: Rows>(
    alloc: Global,
    rows: &R,
    query: &Query,
    places: &mut [usize],
) -> Result<(), NoMemory>
    ensures { OnOk result (places.new ≡ sorted (order.place_cmp (R.listed rows.now) query.now.sort) places.old) }
{
    let sorts = query.sort.as_slice();
    places.sort_by(alloc, |p, q| place_cmp(rows, sorts, *p, *q))?;
    Ok(())
}

// The page of a list that is filtered and sorted: the places are put in order, and no row is moved.
#[tactic(auto, unfolding(crate::specs::Page::ordered))]
fn sorted_page<R: Rows>(
    alloc: Global,
    rows: &R,
    shown: &[usize],
    query: &Query,
) -> Result<Page, NoMemory>
    ensures { IfOk result (λ page. page ≡ page_from (ordered (R.listed rows.now) shown.now query.now) query.now) }
{
    let mut places = filtered(alloc, rows, shown, query)?;
    sort(alloc, rows, query, &mut places)?;
    page_of(alloc, &places, query)
}

fn has_filter(query: &Query) -> bool
    ensures { result
        ≡ is_some query.now.name || is_some query.now.alg || is_some query.now.bits || is_some query.now.mode || is_some query.now.secret_type }
{
    query.name.is_some()
        || query.alg.is_some()
        || query.bits.is_some()
        || query.mode.is_some()
        || query.secret_type.is_some()
}

/// The page of the list of secrets: of `rows` those at the places `shown`, which are below the number of rows. The rows
/// that pass the query's filters stand in the order of its keys, and where these tie in the order of `shown`, which is
/// the order of creation where `rows` has it and the places rise; `offset` of them are left out, and the next `limit` are
/// on the page. The only error is out of memory.
///
/// Without filters and keys no row is looked at. Without keys each row is looked at once, and what is kept are the places
/// on the page. With keys all places that pass are kept, and sorted.
#[tactic(auto, unfolding(crate::specs::Page::page_of_rows))]
pub fn page<R: Rows>(
    alloc: Global,
    rows: &R,
    shown: &[usize],
    query: &Query,
) -> Result<Page, NoMemory>
    requires { All (λ place. place < length (R.listed rows.now)) shown.now }
    ensures { IfOk result (λ page. page ≡ page_of_rows (R.listed rows.now) shown.now query.now) }
{
    if !query.sort.as_slice().is_empty() {
        return sorted_page(alloc, rows, shown, query);
    }
    if has_filter(query) {
        return filtered_page(alloc, rows, shown, query);
    }
    page_of(alloc, shown, query)
}
