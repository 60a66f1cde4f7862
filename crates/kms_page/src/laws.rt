//! Laws of pages, as functions that do nothing.
ghost use Rattle.std.specs.Prelude.{◌≡◌, ℕ, ◌^◌, ◌+◌, ◌-◌, ◌*◌, ◌<◌, ◌≤◌, ◌==◌, not, List, [], length, drop, take, nat_lt, Ok, Some, is_some, All};
ghost use Rattle.std.specs.List.{slice_get};
ghost use Rattle.std.specs.Option.{option_and_then};
ghost use Rattle.std.specs.List.Sorted.{IsPermutation, IsSorted, IsStable, IsStrictlyIncreasing};
ghost use Rattle.kms_page.specs.Filter.{filtered};
ghost use Rattle.kms_page.specs.Link.{query_text};
ghost use Rattle.kms_page.specs.Order.{place_cmp};
ghost use Rattle.kms_page.specs.Page.{page_of_list, rows_at, ordered, page_from, page_of_rows, next_offset, previous_offset};
ghost use Rattle.kms_page.specs.Query.{query_of};
ghost use Rattle.kms_page.specs.Laws.{at_offset, first_pages, behind, creation_cmp};

use crate::{Listing, Query};
use kms_world::SecretRow;

/// The rows at the places of a page of secrets are the page of the rows that the list shows, and so is the total.
pub fn a_page_is_that_of_its_rows(rows: &[SecretRow], shown: &[usize], query: &Query)
    ensures listed { rows_at rows.now (page_of_rows rows.now shown.now query.now).at ≡ (page_of_list (rows_at rows.now shown.now) query.now).0 }
    ensures total { (page_of_rows rows.now shown.now query.now).total ≡ (page_of_list (rows_at rows.now shown.now) query.now).1 }
{}

/// Where there is a row at each place, the rows there stand as their places do: at each index the row at that place.
pub fn a_row_stands_at_each_place<T>(rows: &[T], places: &[usize])
    requires { All (λ place. place < length rows.now) places.now }
    ensures { (i : ℕ) → slice_get (rows_at rows.now places.now) i ≡ option_and_then (slice_get rows.now) (slice_get places.now i) }
{}

/// The rows at the places of a page without filters and keys are `limit` of the list's behind `offset` of them, and the
/// total is how many rows the list has.
pub fn a_page_of_places_is_that_of_their_rows<T>(rows: &[T], places: &[usize], query: &Query)
    requires { All (λ place. place < length rows.now) places.now }
    ensures listed { rows_at rows.now (page_from places.now query.now).at
        ≡ take query.now.limit (drop query.now.offset (rows_at rows.now places.now)) }
    ensures total { (page_from places.now query.now).total ≡ length (rows_at rows.now places.now) }
{}

/// The pages at the offsets 0, limit, 2 limit .. of one query, one behind the other, are all rows that pass the filters,
/// in the query's order, each on one page; and each page has the same total.
#[tactic(auto, unfolding(crate::specs::Page::page_of_rows))]
pub fn pages_are_the_rows_in_their_order(rows: &[SecretRow], shown: &[usize], query: &Query)
    ensures pages { (n : ℕ) → length (ordered rows.now shown.now query.now) ≤ n * query.now.limit →
        first_pages (page_of_rows rows.now shown.now) query.now n ≡ ordered rows.now shown.now query.now }
    ensures total { (offset : ℕ) → (page_of_rows rows.now shown.now (at_offset query.now offset)).total
        ≡ length (filtered rows.now shown.now query.now) }
{}

/// The same of a list without filters and keys.
pub fn pages_are_the_list(places: &[usize], query: &Query)
    ensures { (n : ℕ) → length places.now ≤ n * query.now.limit → first_pages (page_from places.now) query.now n ≡ places.now }
{}

/// There is a next page exactly where rows of the list are left behind this one: it stands at `offset + limit`, and begins
/// with those rows.
pub fn a_next_page_is_where_rows_are_left(query: &Query)
    ensures there { (places : List ℕ) → is_some (next_offset query.now (length places)) ≡ nat_lt 0 (length (behind places query.now)) }
    ensures offset { (total next : ℕ) → next_offset query.now total ≡ Some next → next ≡ query.now.offset + query.now.limit }
    ensures begins { (places : List ℕ) (next : ℕ) → next_offset query.now (length places) ≡ Some next →
        (page_from places (at_offset query.now next)).at ≡ take query.now.limit (behind places query.now) }
{}

/// The same of a page of secrets, by its total.
pub fn a_next_page_is_where_secrets_are_left(rows: &[SecretRow], shown: &[usize], query: &Query)
    ensures there { is_some (next_offset query.now (page_of_rows rows.now shown.now query.now).total)
        ≡ nat_lt 0 (length (behind (ordered rows.now shown.now query.now) query.now)) }
    ensures begins { (next : ℕ) → next_offset query.now (page_of_rows rows.now shown.now query.now).total ≡ Some next →
        (page_of_rows rows.now shown.now (at_offset query.now next)).at ≡ take query.now.limit (behind (ordered rows.now shown.now query.now) query.now) }
{}

/// There is a previous page exactly where the offset isn't 0: it stands at `offset - limit`, or at 0 where the limit is
/// more.
pub fn a_previous_page_is_where_the_offset_is_not_0(query: &Query)
    ensures there { is_some (previous_offset query.now) ≡ not (query.now.offset == 0) }
    ensures offset { (previous : ℕ) → previous_offset query.now ≡ Some previous → previous ≡ query.now.offset - query.now.limit }
{}

/// What stands behind the `?` of a link is read as the same query at the link's offset.
pub fn a_link_is_read_again(listing: Listing, text: &[u8], query: &Query, offset: u64)
    requires read { query_of listing text.now ≡ Ok query.now }
    requires offset_in_range { offset < 2 ^ 32 }
    ensures { query_of listing (query_text query.now offset) ≡ Ok (at_offset query.now offset) }
{}

/// Without a key the rows stand in the order in which the list shows them. Where its places rise, as rows were created, so
/// do those of the page.
pub fn no_key_is_the_order_of_creation(rows: &[SecretRow], shown: &[usize], query: &Query)
    requires { query.now.sort ≡ [] }
    ensures same { ordered rows.now shown.now query.now ≡ filtered rows.now shown.now query.now }
    ensures rising { IsStrictlyIncreasing shown.now → IsStrictlyIncreasing (ordered rows.now shown.now query.now) }
{}

/// Sorting keeps the rows that pass, each once; they ascend by the keys, and rows that tie stay in the order in which the
/// list shows them. Where its places rise, as rows were created, the places of rows that tie rise too.
pub fn sorting_keeps_each_row(rows: &[SecretRow], shown: &[usize], query: &Query)
    ensures each_once { IsPermutation (filtered rows.now shown.now query.now) (ordered rows.now shown.now query.now) }
    ensures ascending { IsSorted (place_cmp rows.now query.now.sort) (ordered rows.now shown.now query.now) }
    ensures ties { IsStable (place_cmp rows.now query.now.sort) (filtered rows.now shown.now query.now) (ordered rows.now shown.now query.now) }
    ensures by_creation { IsStrictlyIncreasing shown.now → IsSorted (creation_cmp rows.now query.now.sort) (ordered rows.now shown.now query.now) }
{}
