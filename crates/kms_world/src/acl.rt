// Access lists.
ghost use Rattle.std.specs.Prelude.{◌≡◌, ◌++◌, [], ◌∷◌, OnOk, OnErr, IfOk, Contains};
ghost use Rattle.kms_world.specs.Names.{IsWithoutRepeats};

use crate::{Id, Name, NoMemory};
use std::alloc::Global;
use std::marker::Model;

/// Names, each at most once. Contracts see the list.
#[derive(Drop, Debug)]
pub struct Names {
    items: Vec<Name>,
}

impl Model for Names {
    ghost use Rattle.std.specs.Prelude.{List, ℕ};
    ghost use Rattle.kms_world.specs.Names.{IsWithoutRepeats};

    ghost Value = { List (List ℕ) };

    ghost view = { λ n. n.items.items };

    ghost invariant = { λ n. IsWithoutRepeats n.items.items };
}

impl Names {
    /// No names; takes no memory.
    pub fn new(alloc: Global) -> Names
        ensures { result ≡ [] }
    {
        Names {
            items: Vec::new(alloc),
        }
    }

    /// Puts a name behind the others. After `NoMemory` they are as before.
    pub fn push(&mut self, name: Name) -> Result<(), NoMemory>
        requires { ¬ Contains self.old name }
        ensures ok { OnOk result (self.new ≡ self.old ++ name ∷ []) }
        ensures err { OnErr result (self.new ≡ self.old) }
    {
        self.items.push(name)?;
        Ok(())
    }

    /// A copy of the names.
    pub fn copied(&self) -> Result<Names, NoMemory>
        ensures { IfOk result (λ copy. copy ≡ self.now) }
    {
        Ok(Names {
            items: self.items.clone()?,
        })
    }

    /// The names in their order.
    pub fn as_slice(&self) -> &[Name]
        ensures names { result.now ≡ self.now }
        ensures once { IsWithoutRepeats self.now }
    {
        &self.items
    }
}

/// The access list of a secret or a container: the users who may read it, and whether its project may.
/// Times are whole seconds since 1970; at most 100 users.
#[derive(Drop, Debug)]
pub struct AclRow {
    /// the secret or container that it is of
    pub target: Id,
    pub project_access: bool,
    pub users: Names,
    pub created: u64,
    pub updated: u64,
}

impl AclRow {
    /// A copy of the access list.
    pub fn copied(&self) -> Result<AclRow, NoMemory>
        ensures { IfOk result (λ copy. copy ≡ self.now) }
    {
        Ok(AclRow {
            target: self.target,
            project_access: self.project_access,
            users: self.users.copied()?,
            created: self.created,
            updated: self.updated,
        })
    }
}
