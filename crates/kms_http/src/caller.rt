// Who calls.
ghost use Rattle.std.specs.Prelude.{◌≡◌, codes, option_map};
ghost use Rattle.kms_http.specs.Fields.{values_of};
ghost use Rattle.kms_http.specs.Identity as spec;

use crate::elements::has_element;
use crate::fields::{Fields, Occurrence, lookup};
use kms_world::{Caller, Name, Roles};

// The value of a field that stands once.
fn once<'a>(fields: &'a Fields, name: &[u8]) -> Option<&'a [u8]>
    ensures { option_map (λ v. v.now) result ≡ spec.once (values_of name.now fields.entry.now) }
{
    match lookup(fields, name) {
        Occurrence::Once(value) => Some(value),
        Occurrence::Absent => None,
        Occurrence::Repeated => None,
    }
}

fn is_confirmed(fields: &Fields) -> bool
    ensures { result ≡ spec.is_confirmed (values_of (codes "x-identity-status") fields.now) }
{
    match lookup(fields, b"x-identity-status") {
        Occurrence::Absent => true,
        Occurrence::Once(value) => value == b"Confirmed".as_slice(),
        Occurrence::Repeated => false,
    }
}

// The name in a field that stands once.
fn name_in(fields: &Fields, field: &[u8]) -> Option<Name>
    ensures { result ≡ spec.name_read (spec.once (values_of field.now fields.now)) }
{
    match once(fields, field) {
        Some(value) => Name::read(value),
        None => None,
    }
}

fn roles_in(value: &[u8]) -> Roles
    ensures { result ≡ spec.roles_in value.now }
{
    Roles {
        admin: has_element(b"admin", value),
        creator: has_element(b"creator", value),
        observer: has_element(b"observer", value),
        audit: has_element(b"audit", value),
        service_admin: has_element(b"key-manager:service-admin", value),
    }
}

/// The caller that the fields name: `X-Project-Id` and `X-User-Id`, each with a name, and `X-Roles`, a comma list, each
/// exactly once; where `X-Identity-Status` stands, it is `Confirmed` and stands once. None otherwise.
#[tactic(auto, unfolding(crate::specs::Identity::caller_in))]
pub fn caller_in(fields: &Fields) -> Option<Caller>
    ensures { result ≡ spec.caller_in fields.now }
{
    if !is_confirmed(fields) {
        return None;
    }
    let project = name_in(fields, b"x-project-id")?;
    let user = name_in(fields, b"x-user-id")?;
    let roles = roles_in(once(fields, b"x-roles")?);
    Some(Caller {
        project,
        user,
        roles,
    })
}
