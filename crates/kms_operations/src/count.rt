// Counts of ids.
ghost use Rattle.std.specs.Prelude.{◌≡◌, ◌<◌, ◌^◌};
ghost use Rattle.kms_record.specs.Base.{count_of};
ghost use Rattle.kms_model.specs.Secrets.{has_id};

use kms_store::Tables;
use kms_world::Id;

// The count of an id, in its last 62 bits.
pub fn count_of(id: Id) -> u64
    ensures count { result ≡ count_of id }
    ensures range { result < 2 ^ 62 }
{
    (id.0 % 0x4000_0000_0000_0000) as u64
}

// An id is left.
pub fn has_id(rows: &Tables) -> bool
    ensures { result ≡ has_id rows.now.kept.state }
{
    rows.ids() < 1 << 62
}
