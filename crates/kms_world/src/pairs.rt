// Metadata of a secret.
ghost use Rattle.std.specs.Prelude.{◌≡◌, ◌++◌, [], ◌∷◌, OnOk, OnErr, IfOk, All, IsTrue};
ghost use Rattle.kms_world.specs.Pairs.{is_below, Ascends};

use crate::{NoMemory, Text};
use std::alloc::Global;
use std::marker::Model;

/// Pairs of a key and a value. The keys ascend by their bytes, and no key stands twice. Contracts see the list.
#[derive(Drop, Debug)]
pub struct Pairs {
    items: Vec<(Text, Text)>,
}

impl Model for Pairs {
    ghost use Rattle.std.specs.Prelude.{List, ℕ};
    ghost use Rattle.kms_world.specs.Pairs.{Ascends};

    ghost Value = { List (List ℕ × List ℕ) };

    ghost view = { λ p. p.items.items };

    ghost invariant = { λ p. Ascends p.items.items };
}

impl Pairs {
    /// No pairs; takes no memory.
    pub fn new(alloc: Global) -> Pairs
        ensures { result ≡ [] }
    {
        Pairs {
            items: Vec::new(alloc),
        }
    }

    /// Puts a pair behind the others. After `NoMemory` they are as before.
    pub fn push(&mut self, pair: (Text, Text)) -> Result<(), NoMemory>
        requires { All (λ p. IsTrue (is_below p.0 pair.0)) self.old }
        ensures ok { OnOk result (self.new ≡ self.old ++ pair ∷ []) }
        ensures err { OnErr result (self.new ≡ self.old) }
    {
        self.items.push(pair)?;
        Ok(())
    }

    /// A copy of the pairs.
    pub fn copied(&self) -> Result<Pairs, NoMemory>
        ensures { IfOk result (λ copy. copy ≡ self.now) }
    {
        Ok(Pairs {
            items: self.items.clone()?,
        })
    }

    /// The pairs in ascending order of their keys.
    pub fn as_slice(&self) -> &[(Text, Text)]
        ensures pairs { result.now ≡ self.now }
        ensures ascending { Ascends self.now }
    {
        &self.items
    }
}
