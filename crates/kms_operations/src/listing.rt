// What the lists have in common.
ghost use Rattle.std.specs.Prelude.{◌≡◌, option_copied};
ghost use Rattle.std.specs.List.{slice_get};
ghost use Rattle.kms_model.specs.Lists.{query_asked};
ghost use Rattle.kms_world.specs.Checked.{IsUnlessNoMemory};

use kms_page::{Listing, Query, QueryFault};
use kms_world::{CheckFault, Refusal, Text};
use std::alloc::Global;

// What a query asks of a list.
pub fn query_asked(alloc: Global, listing: Listing, text: &Text) -> Result<Query, CheckFault>
    ensures { IsUnlessNoMemory result (query_asked listing text.now) }
{
    match Query::read(alloc, listing, text.as_str().as_bytes()) {
        Ok(query) => Ok(query),
        Err(QueryFault::Bad(field)) => Err(CheckFault::Refused(Refusal::BadBody(field))),
        Err(QueryFault::NoMemory) => Err(CheckFault::NoMemory),
    }
}

// The row at a place, where there is one.
pub fn row_at<T>(rows: &[T], place: usize) -> Option<&T>
    ensures { option_copied result ≡ slice_get rows.now place }
{
    rows.get(place)
}
