// The secrets that a container names.
ghost use Rattle.std.specs.Prelude.{◌≡◌, ◌<◌, ◌^◌, ◌++◌, [], ◌∷◌, map, OnOk, OnErr, IfOk};
ghost use Rattle.std.specs.List.{AllByRecursion};
ghost use Rattle.kms_record.specs.ChangeEffect.{row_member};
ghost use Rattle.kms_record.specs.Container.{IsMemberInRange};

use kms_world::{Id, Members, NoMemory, Text, id_of};
use std::alloc::Global;
use std::marker::Model;

/// A secret that a container names, maybe under a name of its own.
#[derive(Drop, Debug)]
pub struct Member {
    /// at most 255 bytes
    pub name: Option<Text>,
    /// the count of the secret's id under the store's tag, below 2^62
    pub secret: u64,
}

impl Member {
    ghost use Rattle.std.specs.Prelude.{◌≡◌, ◌<◌, ◌^◌};
    ghost use Rattle.kms_record.specs.ChangeEffect.{row_member};
    ghost use Rattle.kms_record.specs.Container.{IsMemberInRange};

    /// The member of a container's row, under the store's tag.
    pub fn into_secret(self, tag: u64) -> (Option<Text>, Id)
        requires tag { tag < 2 ^ 60 }
        requires range { IsMemberInRange self }
        ensures { result ≡ row_member tag self }
    {
        (self.name, id_of(tag, self.secret))
    }
}

/// The secrets that a container names, in their order. Contracts see the list.
#[derive(Drop, Debug)]
pub struct MemberList {
    members: Vec<Member>,
}

impl Model for MemberList {
    ghost use Rattle.std.specs.Prelude.{List};
    ghost use Rattle.kms_record.specs.declared.member.Member.{Member};

    ghost Value = { List Member };

    ghost view = { λ m. m.members.items };
}

impl MemberList {
    /// No members; takes no memory.
    pub fn new(alloc: Global) -> MemberList
        ensures { result ≡ [] }
    {
        MemberList {
            members: Vec::new(alloc),
        }
    }

    /// Puts a member after the others. After `NoMemory` they are as before.
    pub fn push(&mut self, member: Member) -> Result<(), NoMemory>
        ensures ok { OnOk result (self.new ≡ self.old ++ member ∷ []) }
        ensures err { OnErr result (self.new ≡ self.old) }
    {
        self.members.push(member)?;
        Ok(())
    }

    /// The members in their order.
    pub fn as_slice(&self) -> &[Member]
        ensures { result.now ≡ self.now }
    {
        &self.members
    }

    /// The members of a container's row, under the store's tag.
    pub fn into_secrets(self, alloc: Global, tag: u64) -> Result<Members, NoMemory>
        requires tag { tag < 2 ^ 60 }
        requires range { AllByRecursion IsMemberInRange self }
        ensures { IfOk result (λ secrets. secrets ≡ map (row_member tag) self) }
    {
        let mut secrets = Members::new(alloc);
        for member in self.members {
            secrets.push(member.into_secret(tag))?;
        }
        Ok(secrets)
    }

    /// The members, with the memory that they have.
    pub fn into_vec(self) -> Vec<Member>
        ensures { result.items ≡ self }
    {
        self.members
    }
}
