// What a table with ids asks of its rows.
ghost use Rattle.std.specs.Prelude.{◌≡◌};

use crate::KeptSecret;
use kms_world::{ContainerRow, Id, Name, OrderRow};

/// A row with an id, of a project.
pub(crate) trait Row {
    ghost use Rattle.std.specs.Prelude.{ℕ, List};
    ghost use Rattle.kms_world.specs.declared.id.Id.{Id};

    /// its id
    ghost id_of: { Self → Id };

    /// its project
    ghost project_of: { Self → List ℕ };

    fn id(&self) -> Id
        ensures { result ≡ id_of self.now };

    fn project(&self) -> Name
        ensures { result ≡ project_of self.now };
}

impl Row for KeptSecret {
    ghost id_of = { λ r. r.id };

    ghost project_of = { λ r. r.project };

    fn id(&self) -> Id {
        self.row().id
    }

    fn project(&self) -> Name {
        self.row().project
    }
}

impl Row for ContainerRow {
    ghost id_of = { λ r. r.id };

    ghost project_of = { λ r. r.project };

    fn id(&self) -> Id {
        self.id
    }

    fn project(&self) -> Name {
        self.project
    }
}

impl Row for OrderRow {
    ghost id_of = { λ r. r.id };

    ghost project_of = { λ r. r.project };

    fn id(&self) -> Id {
        self.id
    }

    fn project(&self) -> Name {
        self.project
    }
}
