// Keys by which entries stand in order.
ghost use Rattle.std.specs.Prelude.{◌≡◌};

use kms_world::{Id, Name};

/// A key of entries that stand in order: the name of a project, or an id.
pub(crate) trait IndexKey {
    ghost use Rattle.std.specs.Prelude.{Bool};

    /// the same key
    ghost is: { Self → Self → Bool };

    /// comes before the other
    ghost below: { Self → Self → Bool };

    fn is_key(&self, other: &Self) -> bool
        ensures { result ≡ is self.now other.now };

    fn comes_before(&self, other: &Self) -> bool
        ensures { result ≡ below self.now other.now };

    ghost use Rattle.kms_store.specs.IndexKey.{IsOrder};

    ghost order: { IsOrder is below };
}

impl IndexKey for Name {
    ghost use Rattle.std.specs.Str.{bytes_eq};
    ghost use Rattle.kms_world.specs.Pairs.{is_below};
    ghost use Rattle.kms_store.specs.IndexKeyLaws.{names_order};

    ghost is = { bytes_eq };

    ghost below = { is_below };

    fn is_key(&self, other: &Name) -> bool {
        self.as_bytes() == other.as_bytes()
    }

    fn comes_before(&self, other: &Name) -> bool {
        self.as_str() < other.as_str()
    }

    ghost order = { names_order };
}

impl IndexKey for Id {
    ghost use Rattle.std.specs.Prelude.{nat_lt};
    ghost use Rattle.kms_world.specs.Id.{is_id};
    ghost use Rattle.kms_store.specs.IndexKeyLaws.{ids_order};

    ghost is = { is_id };

    ghost below = { λ a b. nat_lt a.0 b.0 };

    fn is_key(&self, other: &Id) -> bool {
        other.0 == self.0
    }

    fn comes_before(&self, other: &Id) -> bool {
        self.0 < other.0
    }

    ghost order = { ids_order };
}
