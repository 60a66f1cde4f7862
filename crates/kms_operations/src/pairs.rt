// Pairs of metadata, with one more, or without one.
ghost use Rattle.std.specs.Prelude.{◌≡◌, ◌++◌, ◌∷◌, [], IfOk, OnOk, filter};
ghost use Rattle.std.specs.Str.{bytes_eq};
ghost use Rattle.kms_model.specs.Metadata as spec;
ghost use Rattle.kms_operations.specs.Pairs.{IsAfterAll, AreAround};
ghost use Rattle.kms_world.specs.Pairs.{Ascends, is_below};

use kms_world::{NoMemory, Pairs, Text};
use std::alloc::Global;

// A copy of a pair.
pub fn copied(pair: &(Text, Text)) -> Result<(Text, Text), NoMemory>
    ensures { IfOk result (λ copy. copy ≡ pair.now) }
{
    let key = pair.0.clone()?;
    let value = pair.1.clone()?;
    Ok((key, value))
}

// Puts a copy of a pair behind the others.
fn push_copy(pairs: &mut Pairs, pair: &(Text, Text)) -> Result<(), NoMemory>
    requires { IsAfterAll pair.now pairs.old }
    ensures { OnOk result (pairs.new ≡ pairs.old ++ pair.now ∷ []) }
{
    let copy = copied(pair)?;
    pairs.push(copy)
}

fn is_below(a: &Text, b: &Text) -> bool
    ensures { result ≡ is_below a.now b.now }
{
    a.as_str() < b.as_str()
}

// The pairs whose keys come before this one.
fn those_before(alloc: Global, key: &Text, pairs: &[(Text, Text)]) -> Result<Pairs, NoMemory>
    requires { Ascends pairs.now }
    ensures { IfOk result (λ before. before ≡ filter (λ p. is_below p.0 key.now) pairs.now) }
{
    let mut before = Pairs::new(alloc);
    for pair in pairs {
        if is_below(&pair.0, key) {
            push_copy(&mut before, pair)?;
        }
    }
    Ok(before)
}

// Puts those whose keys come after this one behind others, which come before all that do.
fn push_those_after(before: &mut Pairs, key: &Text, pairs: &[(Text, Text)]) -> Result<(), NoMemory>
    requires ascends { Ascends pairs.now }
    requires around { AreAround key.now before.old }
    ensures { OnOk result (before.new ≡ before.old ++ filter (λ p. is_below key.now p.0) pairs.now) }
{
    for pair in pairs {
        if is_below(key, &pair.0) {
            push_copy(before, pair)?;
        }
    }
    Ok(())
}

// The pairs with this one, in the place of the one with its key, if there is one.
pub fn with_pair(alloc: Global, pair: &(Text, Text), pairs: &Pairs) -> Result<Pairs, NoMemory>
    ensures { IfOk result (λ new. new ≡ spec.with_pair pair.now pairs.now) }
{
    let old = pairs.as_slice();
    let mut new = those_before(alloc, &pair.0, old)?;
    push_copy(&mut new, pair)?;
    push_those_after(&mut new, &pair.0, old)?;
    Ok(new)
}

fn same_key(a: &Text, b: &Text) -> bool
    ensures { result ≡ bytes_eq a.now b.now }
{
    a.as_str() == b.as_str()
}

// The pairs but for the one with this key.
fn those_other(alloc: Global, key: &Text, pairs: &[(Text, Text)]) -> Result<Pairs, NoMemory>
    requires { Ascends pairs.now }
    ensures { IfOk result (λ others. others ≡ spec.without_key key.now pairs.now) }
{
    let mut others = Pairs::new(alloc);
    for pair in pairs {
        if !same_key(key, &pair.0) {
            push_copy(&mut others, pair)?;
        }
    }
    Ok(others)
}

pub fn without_key(alloc: Global, key: &Text, pairs: &Pairs) -> Result<Pairs, NoMemory>
    ensures { IfOk result (λ others. others ≡ spec.without_key key.now pairs.now) }
{
    those_other(alloc, key, pairs.as_slice())
}
