// Containers and their consumers.
ghost use Rattle.std.specs.Prelude.{◌≡◌, IfOk};
ghost use Rattle.kms_world.specs.ContainerKind.{word_of};

use crate::text::copied;
use crate::{Id, ListOf, Name, NoMemory, Text};
use std::alloc::Global;

/// What a container holds.
#[derive(Clone, Copy, Debug, PartialEq, Eq)]
pub enum ContainerKind {
    Generic,
    Rsa,
    Certificate,
}

impl ContainerKind {
    /// The word for the kind in bodies and answers.
    pub const fn word(self) -> &'static str
        ensures { result.now ≡ word_of self }
    {
        match self {
            ContainerKind::Generic => "generic",
            ContainerKind::Rsa => "rsa",
            ContainerKind::Certificate => "certificate",
        }
    }
}

/// The secrets that a container names, each by its id and maybe under a name.
pub type Members = ListOf<(Option<Text>, Id)>;

/// A container of secrets. Times are whole seconds since 1970; the name has at most 255 bytes.
#[derive(Drop, Debug)]
pub struct ContainerRow {
    pub id: Id,
    pub project: Name,
    /// the user who made it
    pub creator: Name,
    pub created: u64,
    pub updated: u64,
    pub name: Option<Text>,
    pub kind: ContainerKind,
    pub secrets: Members,
}

/// Somebody who uses a container: a name and a URL of 1 to 255 bytes each, and when it was registered.
#[derive(Drop, Debug)]
pub struct ConsumerRow {
    pub container: Id,
    pub name: Text,
    pub url: Text,
    pub created: u64,
}

impl ConsumerRow {
    /// A copy of the consumer.
    pub fn copied(&self) -> Result<ConsumerRow, NoMemory>
        ensures { IfOk result (λ copy. copy ≡ self.now) }
    {
        Ok(ConsumerRow {
            container: self.container,
            name: self.name.clone()?,
            url: self.url.clone()?,
            created: self.created,
        })
    }
}

fn members_copied(alloc: Global, members: &Members) -> Result<Members, NoMemory>
    ensures { IfOk result (λ copy. copy ≡ members.now) }
{
    let mut copy = Members::new(alloc);
    for member in members.as_slice() {
        let name = copied(&member.0)?;
        copy.push((name, member.1))?;
    }
    Ok(copy)
}

impl ContainerRow {
    /// A copy of the container.
    pub fn copied(&self, alloc: Global) -> Result<ContainerRow, NoMemory>
        ensures { IfOk result (λ copy. copy ≡ self.now) }
    {
        Ok(ContainerRow {
            id: self.id,
            project: self.project,
            creator: self.creator,
            created: self.created,
            updated: self.updated,
            name: copied(&self.name)?,
            kind: self.kind,
            secrets: members_copied(alloc, &self.secrets)?,
        })
    }
}
