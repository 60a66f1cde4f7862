// The names that the members of a container have, by its kind (Barbican API v1, containers).
ghost use Rattle.std.specs.Prelude.{◌≡◌, count_by};
ghost use Rattle.std.specs.List.{list_all};
ghost use Rattle.kms_box.specs.Names as spec;

use kms_world::{ContainerKind, Id, Text};

/// A name that members of a container may have to have.
#[derive(Clone, Copy, Debug)]
pub enum MemberName {
    PublicKey,
    PrivateKey,
    Passphrase,
    Certificate,
    Intermediates,
}

impl MemberName {
    pub const fn word(self) -> &'static str
        ensures { result.now ≡ spec.word_of self }
    {
        match self {
            MemberName::PublicKey => "public_key",
            MemberName::PrivateKey => "private_key",
            MemberName::Passphrase => "private_key_passphrase",
            MemberName::Certificate => "certificate",
            MemberName::Intermediates => "intermediates",
        }
    }
}

// Each name, with true where a member must have it.
const RSA: [(MemberName, bool); 3] = [
    (MemberName::PublicKey, true),
    (MemberName::PrivateKey, true),
    (MemberName::Passphrase, false),
];

const CERTIFICATE: [(MemberName, bool); 4] = [
    (MemberName::Certificate, true),
    (MemberName::PrivateKey, false),
    (MemberName::Passphrase, false),
    (MemberName::Intermediates, false),
];

fn is_named(name: MemberName, member: &(Option<Text>, Id)) -> bool
    ensures { result ≡ spec.is_named name member.now }
{
    match &member.0 {
        None => false,
        Some(text) => text.as_str() == name.word(),
    }
}

fn is_listed(table: &[(MemberName, bool)], member: &(Option<Text>, Id)) -> bool
    ensures { result ≡ spec.is_listed table.now member.now }
{
    table.iter().any(|entry| is_named(entry.0, member))
}

// How many members have this name.
fn count(name: MemberName, members: &[(Option<Text>, Id)]) -> usize
    ensures { result ≡ count_by (spec.is_named name) members.now }
{
    let mut count = 0;
    for member in members {
        if is_named(name, member) {
            count += 1;
        }
    }
    count
}

fn stands_right(members: &[(Option<Text>, Id)], entry: (MemberName, bool)) -> bool
    ensures { result ≡ spec.stands_right members.now entry }
{
    let count = count(entry.0, members);
    if entry.1 { count == 1 } else { count <= 1 }
}

fn are_listed(table: &[(MemberName, bool)], members: &[(Option<Text>, Id)]) -> bool
    ensures { result ≡ list_all (spec.is_listed table.now) members.now }
{
    members.iter().all(|member| is_listed(table, member))
}

fn all_stand_right(members: &[(Option<Text>, Id)], table: &[(MemberName, bool)]) -> bool
    ensures { result ≡ list_all (spec.stands_right members.now) table.now }
{
    table.iter().all(|entry| stands_right(members, *entry))
}

fn have_names(table: &[(MemberName, bool)], members: &[(Option<Text>, Id)]) -> bool
    ensures { result ≡ spec.have_names table.now members.now }
{
    are_listed(table, members) && all_stand_right(members, table)
}

/// Whether the members have the names that the kind asks for. A list is walked once for each name of the kind.
pub fn are_named_for(kind: ContainerKind, members: &[(Option<Text>, Id)]) -> bool
    ensures { result ≡ spec.are_named_for kind members.now }
{
    match kind {
        ContainerKind::Generic => true,
        ContainerKind::Rsa => have_names(&RSA, members),
        ContainerKind::Certificate => have_names(&CERTIFICATE, members),
    }
}
