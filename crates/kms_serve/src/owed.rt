// Replies that are prepared and not given yet.
ghost use Rattle.std.specs.Prelude.{◌≡◌};
ghost use Rattle.kms_serve.specs.Owed.{owed_bytes};

use kms_http::{FaultReply, fault_reply};
use kms_world::Bytes;

/// A reply that is prepared and not given yet.
#[derive(Drop)]
pub enum Owed {
    Reply(Bytes),
    /// it had no memory
    OutOfMemory,
    /// no random bytes could be drawn for it
    NoDraw,
}

/// The bytes to be given.
pub fn owed_slice(owed: &Owed) -> &[u8]
    ensures { result.now ≡ owed_bytes owed.now }
{
    match owed {
        Owed::Reply(bytes) => bytes.as_slice(),
        Owed::OutOfMemory => fault_reply(FaultReply::F3),
        Owed::NoDraw => fault_reply(FaultReply::F2),
    }
}
