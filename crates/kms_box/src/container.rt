// Bodies of new containers.
ghost use Rattle.std.specs.Prelude.{◌≡◌, map, IfOk, Some};
ghost use Rattle.std.specs.Option.{option_and_then};
ghost use Rattle.std.specs.Result.{result_ok};
ghost use Rattle.kms_world.specs.Checked.{IsUnlessNoMemory};
ghost use Rattle.kms_box.specs.Container as spec;
ghost use Rattle.kms_box.specs.Member.{checked_member, members_of};

use crate::fields::optional_text;
use crate::member::check_member;
use crate::names::are_named_for;
use kms_world::{
    CheckFault, ContainerBody, ContainerKind, Field, Id, MemberBodies, MemberBody, Members,
    NoMemory, Refusal, Text,
};
use std::alloc::Global;
use std::collections::BTreeSet;

/// What a client chooses of a new container. The name has at most 255 bytes.
#[derive(Drop, Debug)]
pub struct NewContainer {
    pub name: Option<Text>,
    pub kind: ContainerKind,
    /// at most 100, no secret twice
    pub secrets: Members,
}

const MOST_MEMBERS: usize = 100;

const KINDS: [ContainerKind; 3] = [
    ContainerKind::Generic,
    ContainerKind::Rsa,
    ContainerKind::Certificate,
];

// The kind whose word this is.
fn kind_of(word: &str) -> Option<ContainerKind>
    ensures { result ≡ spec.kind_of word.now }
{
    KINDS.iter().copied().find(|kind| kind.word() == word)
}

fn kind_by(word: &Option<Text>) -> Option<ContainerKind>
    ensures { result ≡ option_and_then spec.kind_of word.now }
{
    match word {
        None => None,
        Some(word) => kind_of(word.as_str()),
    }
}

// Whether no secret stands twice.
fn are_apart(alloc: Global, members: &[(Option<Text>, Id)]) -> Result<bool, NoMemory>
    ensures { IfOk result (λ apart. apart ≡ spec.are_apart (map (λ m. m.1.0) members.now)) }
{
    let mut seen = BTreeSet::new(alloc);
    for member in members {
        if !seen.insert(member.1.0)? {
            return Ok(false);
        }
    }
    Ok(true)
}

// The members, where they may be those of a container of this kind.
fn members_if(
    alloc: Global,
    kind: ContainerKind,
    members: Members,
) -> Result<Option<Members>, NoMemory>
    ensures { IfOk result (λ kept. kept ≡ spec.members_if kind members) }
{
    if members.as_slice().len() > MOST_MEMBERS
        || !are_apart(alloc, members.as_slice())?
        || !are_named_for(kind, members.as_slice())
    {
        return Ok(None);
    }
    Ok(Some(members))
}

// The member that a body names, where the body breaks no rule.
fn member_of(body: &MemberBody) -> Result<Option<(Option<Text>, Id)>, NoMemory>
    ensures { IfOk result (λ member. member ≡ result_ok (checked_member body.now)) }
{
    match check_member(body) {
        Ok(member) => Ok(Some(member)),
        Err(CheckFault::Refused(_)) => Ok(None),
        Err(CheckFault::NoMemory) => Err(NoMemory),
    }
}

// The members that bodies name, where none of the bodies breaks a rule.
fn members_of(alloc: Global, bodies: &[MemberBody]) -> Result<Option<Members>, NoMemory>
    ensures { IfOk result (λ members. members ≡ members_of bodies.now) }
{
    let mut members = Members::new(alloc);
    for body in bodies {
        let Some(member) = member_of(body)? else {
            return Ok(None);
        };
        members.push(member)?;
    }
    Ok(Some(members))
}

fn members_by(
    alloc: Global,
    kind: ContainerKind,
    bodies: &Option<MemberBodies>,
) -> Result<Option<Members>, NoMemory>
    ensures { IfOk result (λ members. members ≡ spec.members_by kind bodies.now) }
{
    let Some(bodies) = bodies else {
        return members_if(alloc, kind, Members::new(alloc));
    };
    match members_of(alloc, bodies.as_slice())? {
        Some(members) => members_if(alloc, kind, members),
        None => Ok(None),
    }
}

// The members, or the refusal of their list.
fn secrets_by(
    alloc: Global,
    kind: ContainerKind,
    bodies: &Option<MemberBodies>,
) -> Result<Members, CheckFault>
    ensures { IsUnlessNoMemory result (spec.secrets_by kind bodies.now) }
{
    match members_by(alloc, kind, bodies) {
        Ok(Some(members)) => Ok(members),
        Ok(None) => Err(CheckFault::Refused(Refusal::BadBody(Field::SecretRefs))),
        Err(_) => Err(CheckFault::NoMemory),
    }
}

/// The container that a body asks for. The error is the first rule that the body breaks: the name has at most 255 bytes;
/// the type is there and is `generic`, `rsa` or `certificate`; and of `secret_refs`: each member keeps the rules of
/// `check_member`, there are at most 100, none names a secret that another one names, and they have the names that the
/// type asks for. An rsa container has `public_key` and `private_key`, and maybe `private_key_passphrase`; a certificate
/// container has `certificate`, and maybe `private_key`, `private_key_passphrase` and `intermediates`; each of these once
/// and no others.
pub fn check_container(alloc: Global, body: &ContainerBody) -> Result<NewContainer, CheckFault>
    ensures { IsUnlessNoMemory result (spec.checked_container body.now) }
{
    let name = optional_text(Field::Name, &body.name)?;
    let Some(kind) = kind_by(&body.kind) else {
        return Err(CheckFault::Refused(Refusal::BadBody(Field::TypeName)));
    };
    let secrets = secrets_by(alloc, kind, &body.secret_refs)?;
    Ok(NewContainer {
        name,
        kind,
        secrets,
    })
}
