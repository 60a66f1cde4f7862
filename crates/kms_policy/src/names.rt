// Names that are compared.
ghost use Rattle.std.specs.Prelude.{◌≡◌};
ghost use Rattle.std.specs.Str.{bytes_eq};
ghost use Rattle.kms_policy.specs.Policy as spec;

use kms_world::Name;

pub fn is_same(a: &Name, b: &Name) -> bool
    ensures { result ≡ bytes_eq a.now b.now }
{
    a.as_bytes() == b.as_bytes()
}

// Whether this name is among the names.
pub fn is_among(name: &Name, names: &[Name]) -> bool
    ensures { result ≡ spec.is_among name.now names.now }
{
    names.iter().any(|n| is_same(n, name))
}
