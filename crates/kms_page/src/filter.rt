// Which secrets a query's filters let through.
ghost use Rattle.std.specs.Prelude.{◌≡◌};
ghost use Rattle.kms_page.specs.Filter as spec;

use crate::{Query, Rows};
use kms_world::{SecretKind, SecretRow, Text};

fn passes_text(wanted: &Option<Text>, attribute: &Option<Text>) -> bool
    ensures { result ≡ spec.passes_text wanted.now attribute.now }
{
    match (wanted, attribute) {
        (None, _) => true,
        (Some(_), None) => false,
        (Some(wanted), Some(text)) => text.as_str() == wanted.as_str(),
    }
}

fn passes_number(wanted: Option<u32>, attribute: Option<u16>) -> bool
    ensures { result ≡ spec.passes_number wanted attribute }
{
    match (wanted, attribute) {
        (None, _) => true,
        (Some(_), None) => false,
        (Some(wanted), Some(number)) => u32::from(number) == wanted,
    }
}

fn passes_kind(wanted: Option<SecretKind>, kind: SecretKind) -> bool
    ensures { result ≡ spec.passes_kind wanted kind }
{
    match wanted {
        None => true,
        Some(wanted) => kind.word() == wanted.word(),
    }
}

// The secret passes every filter.
#[tactic(auto, unfolding(crate::specs::Filter::passes))]
pub fn passes(query: &Query, row: &SecretRow) -> bool
    ensures { result ≡ spec.passes query.now row.now }
{
    passes_text(&query.name, &row.name)
        && passes_text(&query.alg, &row.algorithm)
        && passes_number(query.bits, row.bit_length)
        && passes_text(&query.mode, &row.mode)
        && passes_kind(query.secret_type, row.kind)
}

// The row at the place passes; where there is no row none does.
pub fn passes_at<R: Rows>(rows: &R, query: &Query, place: usize) -> bool
    ensures { result ≡ spec.passes_at (R.listed rows.now) query.now place }
{
    match rows.row(place) {
        None => false,
        Some(row) => passes(query, row),
    }
}
