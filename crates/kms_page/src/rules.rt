// Which parameters a list takes, and the first one that breaks its rule.
ghost use Rattle.std.specs.Prelude.{◌≡◌, [], IfOk};
ghost use Rattle.kms_page.specs.Rules as spec;

use crate::Listing;
use crate::number::{limit_of, number_of};
use crate::parameters::value_of;
use crate::sorts::sorts_of;
use kms_world::{Field, NoMemory, SecretKind, Text};
use std::alloc::Global;

pub const PAGING: [Field; 2] = [Field::Offset, Field::Limit];

const OF_SECRETS: [Field; 8] = [
    Field::Offset,
    Field::Limit,
    Field::Name,
    Field::Alg,
    Field::Bits,
    Field::Mode,
    Field::SecretType,
    Field::Sort,
];

const LEFT_OUT: [Field; 4] = [
    Field::Created,
    Field::Updated,
    Field::Expiration,
    Field::AclOnly,
];

// The field of this name among them.
pub fn field_named(fields: &[Field], name: &str) -> Option<Field>
    ensures { result ≡ spec.field_named fields.now name.now }
{
    fields.iter().copied().find(|field| field.word() == name)
}

// The parameter of this name that the list takes.
fn taken_named(listing: Listing, name: &str) -> Option<Field>
    ensures { result ≡ spec.field_named (spec.taken listing) name.now }
{
    match listing {
        Listing::Secrets => field_named(&OF_SECRETS, name),
        Listing::Containers | Listing::Consumers | Listing::Orders | Listing::Quotas => {
            field_named(&PAGING, name)
        }
    }
}

fn is_good(alloc: Global, field: Field, value: &str) -> Result<bool, NoMemory>
    ensures { IfOk result (λ good. good ≡ spec.is_good field value.now) }
{
    Ok(match field {
        Field::Offset | Field::Bits => number_of(value).is_some(),
        Field::Limit => limit_of(value).is_some(),
        Field::SecretType => SecretKind::read(value.as_bytes()).is_some(),
        Field::Sort => sorts_of(alloc, value)?.is_some(),
        _ => true,
    })
}

// The rule that a parameter breaks behind the earlier ones.
fn fault_of(
    alloc: Global,
    listing: Listing,
    earlier: &[(Text, Text)],
    parameter: &(Text, Text),
) -> Result<Option<Field>, NoMemory>
    ensures { IfOk result (λ fault. fault ≡ spec.fault_of listing earlier.now parameter.now) }
{
    let name = parameter.0.as_str();
    if let Some(field) = field_named(&LEFT_OUT, name) {
        return Ok(Some(field));
    }
    let Some(field) = taken_named(listing, name) else {
        return Ok(None);
    };
    if value_of(earlier, name).is_some() || !is_good(alloc, field, parameter.1.as_str())? {
        return Ok(Some(field));
    }
    Ok(None)
}

// The first parameter that breaks its rule.
pub fn first_fault(
    alloc: Global,
    listing: Listing,
    parameters: &[(Text, Text)],
) -> Result<Option<Field>, NoMemory>
    ensures { IfOk result (λ fault. fault ≡ spec.first_fault listing [] parameters.now) }
{
    for (i, parameter) in parameters.iter().enumerate() {
        if let Some(field) = fault_of(alloc, listing, &parameters[..i], parameter)? {
            return Ok(Some(field));
        }
    }
    Ok(None)
}
