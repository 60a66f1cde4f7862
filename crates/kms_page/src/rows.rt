// Rows by their places.
ghost use Rattle.std.specs.Prelude.{◌≡◌, List, option_copied};
ghost use Rattle.std.specs.List.{slice_get};
ghost use Rattle.kms_world.specs.declared.secret.SecretRow.{SecretRow};

use kms_world::SecretRow;

/// Secrets by their places, which count from 0. Contracts see the list of them.
pub trait Rows {
    ghost listed: { Self → List SecretRow };

    /// The secret at a place; None behind the last one.
    fn row(&self, place: usize) -> Option<&SecretRow>
        ensures { option_copied result ≡ slice_get (listed self.now) place };
}

impl Rows for Vec<SecretRow> {
    ghost listed = { λ rows. rows.items };

    fn row(&self, place: usize) -> Option<&SecretRow> {
        self.get(place)
    }
}
