// Bodies of access lists.
ghost use Rattle.std.specs.Prelude.{◌≡◌, ◌≤◌, ◌<◌, ◌++◌, ◌∷◌, [], ℕ, List, Contains, ◌||◌, not, nat_lt, length, true, OnOk, IfOk, IfErr};
ghost use Rattle.std.specs.Str.{bytes_eq};
ghost use Rattle.kms_policy.specs.Acl.{are_users, without_repeats, change_of};
ghost use Rattle.kms_world.specs.Checked.{IsUnlessNoMemory};
ghost use Rattle.kms_policy.specs.Users.{TakesUser, RefusesUsers, HasNames, has_text, is_taken};

use kms_world::{AclBody, CheckFault, Field, Name, Names, NoMemory, Refusal, Text};
use std::alloc::Global;
use std::collections::BTreeSet;

/// What a body changes of an access list; None where it says nothing.
#[derive(Drop, Debug)]
pub struct AclChange {
    /// at most 100
    pub users: Option<Names>,
    pub project_access: Option<bool>,
}

const MOST_USERS: usize = 100;

const BAD_USERS: CheckFault = CheckFault::Refused(Refusal::BadBody(Field::Users));

// Whether the set hasn't this text yet; it has it from now on.
fn is_first<'a>(seen: &mut BTreeSet<&'a str>, text: &'a str) -> Result<bool, NoMemory>
    ensures first { IfOk result (λ first. first ≡ not (has_text seen.old text.now)) }
    ensures seen { OnOk result ((q : List ℕ) → has_text seen.new q ≡ (bytes_eq text.now q || has_text seen.old q)) }
{
    Ok(seen.insert(text)?)
}

// Puts a new name behind the names, where there is room.
fn push(names: &mut Names, name: Name) -> Result<(), CheckFault>
    requires { ¬ Contains names.old name }
    ensures ok { OnOk result ((names.new ≡ names.old ++ name ∷ []) × (length names.old < 100)) }
    ensures err { IfErr result (λ fault. RefusesUsers fault (nat_lt (length names.old) 100)) }
{
    if names.as_slice().len() >= MOST_USERS {
        return Err(BAD_USERS);
    }
    match names.push(name) {
        Ok(()) => Ok(()),
        Err(_) => Err(CheckFault::NoMemory),
    }
}

// Puts the name that a text is behind the names, where it isn't among them. The set has just the names.
fn add<'a>(
    names: &mut Names,
    seen: &mut BTreeSet<&'a str>,
    text: &'a Text,
) -> Result<(), CheckFault>
    requires few { length names.old ≤ 100 }
    requires seen { HasNames seen.old names.old }
    ensures ok { OnOk result (TakesUser names.old names.new text.now) }
    ensures seen { OnOk result (HasNames seen.new names.new) }
    ensures err { IfErr result (λ fault. RefusesUsers fault (is_taken names.old text.now)) }
{
    let Some(name) = Name::read(text.as_str().as_bytes()) else {
        return Err(BAD_USERS);
    };
    match is_first(seen, text.as_str()) {
        Ok(true) => push(names, name),
        Ok(false) => Ok(()),
        Err(_) => Err(CheckFault::NoMemory),
    }
}

// The users that the texts name, each once.
fn users_of(alloc: Global, texts: &[Text]) -> Result<Names, CheckFault>
    ensures ok { IfOk result (λ names. (names ≡ without_repeats texts.now) × (are_users texts.now ≡ true)) }
    ensures err { IfErr result (λ fault. RefusesUsers fault (are_users texts.now)) }
{
    let mut names = Names::new(alloc);
    let mut seen = BTreeSet::new(alloc);
    for text in texts {
        add(&mut names, &mut seen, text)?;
    }
    Ok(names)
}

/// What a body changes of an access list. The error is the first rule that the body breaks: `read` is there; each user
/// is a name, and at most 100 users are left when later repeats are dropped.
pub fn check_acl(alloc: Global, body: &AclBody) -> Result<AclChange, CheckFault>
    ensures { IsUnlessNoMemory result (change_of body.now) }
{
    let Some(read) = &body.read else {
        return Err(CheckFault::Refused(Refusal::BadBody(Field::Read)));
    };
    let users = match &read.users {
        None => None,
        Some(texts) => Some(users_of(alloc, texts.as_slice())?),
    };
    Ok(AclChange {
        users,
        project_access: read.project_access,
    })
}
