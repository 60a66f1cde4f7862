// What a query asks of a list.
ghost use Rattle.std.specs.Prelude.{◌≡◌, ◌^◌, ◌<◌, ◌≤◌, [], IfOk, unwrap_or};
ghost use Rattle.std.specs.Option.{option_and_then};
ghost use Rattle.kms_world.specs.Field.{word_of};
ghost use Rattle.kms_world.specs.declared.refusal.Field.TheVariants.{Offset, Limit, Bits, SecretType, Sort};
ghost use Rattle.kms_world.specs.SecretKind.{kind_of};
ghost use Rattle.kms_page.specs.Number.{number_of, limit_of};
ghost use Rattle.kms_page.specs.Parameters.{value_of};
ghost use Rattle.kms_page.specs.Sorts.{sorts_of};
ghost use Rattle.kms_page.specs.Query.{query_of, query_from, filters_of, IsQueryUnlessNoMemory, IsInRange};

use crate::Listing;
use crate::number::{limit_of, number_of};
use crate::parameters::{Parameters, others, read, value_of};
use crate::rules::first_fault;
use crate::sorts::{Sorts, sorts_of};
use kms_world::{Field, NoMemory, SecretKind, Text};
use std::alloc::Global;

const DEFAULT_LIMIT: u32 = 10;

/// What a query asks of a list: which rows, in which order, and which of them.
#[derive(Drop, Debug)]
pub struct Query {
    /// how many rows stand before the page: 0 to 4,294,967,295
    pub offset: u64,
    /// how many rows stand on the page at most: 1 to 100
    pub limit: u64,
    /// the name, byte for byte; as with the four below, each row passes where there is none
    pub name: Option<Text>,
    /// the algorithm, byte for byte
    pub alg: Option<Text>,
    /// the bit length: 0 to 4,294,967,295
    pub bits: Option<u32>,
    /// the mode, byte for byte
    pub mode: Option<Text>,
    pub secret_type: Option<SecretKind>,
    /// up to eight keys, none of them twice; where there is none, rows stand in the order of their creation
    pub sort: Sorts,
    /// all parameters but the limit and the offset, decoded and in their order; links keep them
    pub others: Parameters,
}

/// Why a query isn't read.
#[derive(Clone, Copy, Debug, PartialEq, Eq)]
pub enum QueryFault {
    /// the first parameter that breaks its rule
    Bad(Field),
    NoMemory,
}

impl From<NoMemory> for QueryFault {
    ghost use Rattle.std.specs.Prelude.{◌≡◌};
    ghost use Rattle.kms_page.specs.declared.query.QueryFault.TheVariants.{NoMemory};

    ghost from_gives = { λ _ fault. fault ≡ NoMemory };

    fn from(_: NoMemory) -> Self {
        QueryFault::NoMemory
    }
}

// The parameters that filter and sort; the list of secrets alone has any.
fn filters_of(listing: Listing, parameters: &[(Text, Text)]) -> &[(Text, Text)]
    ensures { result.now ≡ filters_of listing parameters.now }
{
    match listing {
        Listing::Secrets => parameters,
        Listing::Containers | Listing::Consumers | Listing::Orders | Listing::Quotas => &[],
    }
}

fn offset_in(parameters: &[(Text, Text)]) -> u64
    ensures value { result
        ≡ unwrap_or (option_and_then number_of (value_of (word_of Offset) parameters.now)) 0 }
    ensures range { result < 2 ^ 32 }
{
    let offset = value_of(parameters, Field::Offset.word()).and_then(number_of);
    u64::from(offset.unwrap_or(0))
}

fn limit_in(parameters: &[(Text, Text)]) -> u64
    ensures value { result
        ≡ unwrap_or (option_and_then limit_of (value_of (word_of Limit) parameters.now)) 10 }
    ensures range { (1 ≤ result) × (result ≤ 100) }
{
    let limit = value_of(parameters, Field::Limit.word()).and_then(limit_of);
    u64::from(limit.unwrap_or(DEFAULT_LIMIT))
}

fn text_in(alloc: Global, filters: &[(Text, Text)], field: Field) -> Result<Option<Text>, NoMemory>
    ensures { IfOk result (λ text. text ≡ value_of (word_of field) filters.now) }
{
    match value_of(filters, field.word()) {
        None => Ok(None),
        Some(value) => Ok(Some(Text::of(alloc, value)?)),
    }
}

fn bits_in(filters: &[(Text, Text)]) -> Option<u32>
    ensures { result ≡ option_and_then number_of (value_of (word_of Bits) filters.now) }
{
    value_of(filters, Field::Bits.word()).and_then(number_of)
}

fn kind_in(filters: &[(Text, Text)]) -> Option<SecretKind>
    ensures { result ≡ option_and_then kind_of (value_of (word_of SecretType) filters.now) }
{
    SecretKind::read(value_of(filters, Field::SecretType.word())?.as_bytes())
}

fn sort_in(alloc: Global, filters: &[(Text, Text)]) -> Result<Sorts, NoMemory>
    ensures { IfOk result (λ sort. sort
        ≡ unwrap_or (option_and_then sorts_of (value_of (word_of Sort) filters.now)) []) }
{
    let Some(text) = value_of(filters, Field::Sort.word()) else {
        return Ok(Sorts::new(alloc));
    };
    match sorts_of(alloc, text)? {
        None => Ok(Sorts::new(alloc)),
        Some(sorts) => Ok(sorts),
    }
}

// Each parameter by its name, or its default.
#[tactic(auto, unfolding(crate::specs::Query::query_from))]
fn query_from(
    alloc: Global,
    listing: Listing,
    parameters: &[(Text, Text)],
) -> Result<Query, NoMemory>
    ensures query { IfOk result (λ query. query ≡ query_from listing parameters.now) }
    ensures range { IfOk result IsInRange }
{
    let filters = filters_of(listing, parameters);
    Ok(Query {
        offset: offset_in(parameters),
        limit: limit_in(parameters),
        name: text_in(alloc, filters, Field::Name)?,
        alg: text_in(alloc, filters, Field::Alg)?,
        bits: bits_in(filters),
        mode: text_in(alloc, filters, Field::Mode)?,
        secret_type: kind_in(filters),
        sort: sort_in(alloc, filters)?,
        others: others(alloc, parameters)?,
    })
}

impl Query {
    /// What a query's text asks of a list; the text is what stands behind the path's `?` (URL Standard, section 5).
    ///
    /// Every list takes `offset` (0 to 4,294,967,295, or 0 where it is absent) and `limit` (1 to 4,294,967,295, of
    /// which at most 100 count, or 10 where it is absent). The list of secrets takes the filters `name`, `alg`, `bits`
    /// (up to 4,294,967,295), `mode` and `secret_type` besides, and `sort`, keys with commas between them, each maybe
    /// with `:asc` or `:desc` behind it and none of them twice. Other parameters are ignored, and kept for links.
    ///
    /// `Bad` has the first parameter, in the query's order, that breaks its rule: one that the list takes and that has
    /// stood before or has no such value; or `created`, `updated`, `expiration` or `acl_only`, which no list takes.
    #[tactic(auto, unfolding(crate::specs::Query::query_of))]
    pub fn read(alloc: Global, listing: Listing, text: &[u8]) -> Result<Query, QueryFault>
        ensures query { IsQueryUnlessNoMemory result (query_of listing text.now) }
        ensures range { IfOk result IsInRange }
    {
        let parameters = read(alloc, text)?;
        match first_fault(alloc, listing, parameters.as_slice())? {
            Some(field) => Err(QueryFault::Bad(field)),
            None => Ok(query_from(alloc, listing, parameters.as_slice())?),
        }
    }
}
