// Ids of secrets, containers and orders.
ghost use Rattle.std.specs.Prelude.{◌≡◌, ◌<◌, ◌^◌};
ghost use Rattle.kms_world.specs.Id.{id_number};

/// The id of a secret, a container or an order: a UUID as the number of its 128 bits, the first the most significant.
#[derive(Clone, Copy, Debug, PartialEq, Eq)]
pub struct Id(pub u128);

// The version 8, in the four bits before the last twelve of the first 64 (RFC 9562 section 5.8).
const VERSION: u64 = 0x8000;

// The variant 10, in the first two of the last 64 bits (RFC 9562 section 4.1).
const VARIANT: u64 = 0x8000_0000_0000_0000;

/// The id of a count under a store's tag, a UUID of version 8 (RFC 9562 section 5.8): the tag's upper 48 bits, the
/// version, the tag's lower 12 bits, the variant, and the count in 62 bits. A tag is below 2^60, a count below 2^62.
pub fn id_of(tag: u64, count: u64) -> Id
    requires tag { tag < 2 ^ 60 }
    requires count { count < 2 ^ 62 }
    ensures { result.0 ≡ id_number tag count }
{
    let high = tag / 0x1000 * 0x1_0000 + VERSION + tag % 0x1000;
    let low = VARIANT + count;
    Id(high as u128 * 0x1_0000_0000_0000_0000 + low as u128)
}
